//! What any calls on a server's sessions come to. Nothing here runs.
ghost use Rattle.std.specs.Prelude.{◌≡◌, ◌≢◌, ◌<◌, ◌≤◌, ◌-◌, ◌^◌, ℕ, List, [], None, Option, Some, Ok, Err, length, false};
ghost use Rattle.sessions.specs.declared.ownership.Ownership.{Ownership};
ghost use Rattle.ua_base.specs.Status.{bad_subscription_id_invalid};
ghost use Rattle.sessions.specs.declared.fault.SessionFault.TheVariants.{Code};
ghost use Rattle.sessions.specs.declared.session.Parked.{Parked};
ghost use Rattle.sessions.specs.declared.session.Session.{Session};
ghost use Rattle.sessions.specs.Calls.{AreAllowed, Call, IsAllowed, after_call, after_calls, counters_given, last_publishes, with_publishes};
ghost use Rattle.sessions.specs.Session.{is_unbound};
ghost use Rattle.sessions.specs.Sound.{IsOldestUnbound, IsSound, RiseAbove};
ghost use Rattle.sessions.specs.State.{SessionsState};
ghost use Rattle.sessions.specs.Table.{closed, created, due_of, expired, keeps, lives, no_sessions, owned, ownership_of, session_at, session_of, transfer_answer, transferred};
ghost use Rattle.sessions.specs.Token.{token_of};

/// After any calls no two sessions have one counter, at most 16 exist, at most 16 Publishes of each are queued and none
/// of one that is bound to no connection, each owner exists, and no subscription is kept twice. A Publish is queued only for a session that is bound, as it is where `check` has just passed.
pub fn stay_sound()
    ensures start { (boot : ℕ) → IsSound (no_sessions boot) }
    ensures step { (call : Call) (state : SessionsState) → IsAllowed call state → IsSound state
        → IsSound (after_call call state) }
    ensures always { (boot : ℕ) (calls : List Call) → AreAllowed calls (no_sessions boot)
        → IsSound (after_calls calls (no_sessions boot)) }
{}

/// No counter is given twice in a life of a server.
pub fn counters_rise()
    ensures { (boot : ℕ) (calls : List Call) → RiseAbove 0 (counters_given calls (no_sessions boot)) }
{}

/// A token names its server's life and its session, and nothing else is a token.
pub fn tokens_tell_apart()
    ensures apart { (boot counter other another : ℕ)
        → boot < 2 ^ 16 → other < 2 ^ 16 → counter < 2 ^ 32 → another < 2 ^ 32
        → token_of boot counter ≡ token_of other another → (boot ≡ other) × (counter ≡ another) }
    ensures found { (counter : ℕ) (state : SessionsState) → counter < 2 ^ 32 → IsSound state
        → session_of (Some (token_of state.boot counter)) state ≡ session_at counter state.sessions }
    ensures stranger { (boot counter : ℕ) (state : SessionsState)
        → boot < 2 ^ 16 → state.boot < 2 ^ 16 → boot ≢ state.boot
        → session_of (Some (token_of boot counter)) state ≡ None }
    ensures length { (token : List ℕ) (state : SessionsState) → length token ≢ 6
        → session_of (Some token) state ≡ None }
    ensures null { (state : SessionsState) → session_of None state ≡ None }
{}

/// What `due` answers and what `expire` does agree, up to the last age of a server.
pub fn sessions_expire_when_due()
    ensures before { (now : ℕ) (state : SessionsState) → now < due_of state.sessions
        → (expired now state).sessions ≡ state.sessions }
    ensures when { (now : ℕ) (state : SessionsState) → due_of state.sessions ≤ now → now < 2 ^ 64 - 1
        → length (expired now state).sessions < length state.sessions }
    ensures after { (now : ℕ) (state : SessionsState) → now < 2 ^ 64 - 1
        → now < due_of (expired now state).sessions }
{}

/// A session that is given a subscription owns it. Once it is closed the subscription has no owner, and the
/// ApplicationUri of the last one is known.
pub fn owners_leave()
    ensures owns { (id counter : ℕ) (session : Session) (state : SessionsState)
        → keeps id state.owned ≡ false
        → session_at counter state.sessions ≡ Some session → ownership_of id (owned id counter state).owned
        ≡ Some (record { id = id; owner = Some counter; uri = session.uri }) }
    ensures leaves { (id counter : ℕ) (ownership : Ownership) (state : SessionsState)
        → ownership_of id state.owned ≡ Some ownership → ownership.owner ≡ Some counter
        → ownership_of id (closed counter state).owned ≡ Some (record ownership { owner = None }) }
{}

/// A session that is made drives out none that is bound, and of the others the one of lowest counter.
pub fn oldest_unbound_leaves()
    ensures stays { (counter conn : ℕ) (uri : Option (List ℕ)) (timeout now : ℕ) (session : Session)
        (state : SessionsState) → session_at counter state.sessions ≡ Some session → is_unbound session ≡ false
        → session_at counter (created conn uri timeout now state).sessions ≡ Some session }
    ensures oldest { (counter conn : ℕ) (uri : Option (List ℕ)) (timeout now : ℕ) (session : Session)
        (state : SessionsState) → IsSound state → session_at counter state.sessions ≡ Some session
        → lives counter (created conn uri timeout now state).sessions ≡ false
        → IsOldestUnbound counter session state.sessions }
{}

/// A subscription goes from one session to another exactly where they are of one client, by their ApplicationUris, even
/// where the first one is no more; what is kept of it is then the same but for its owner.
pub fn subscriptions_stay_with_their_client()
    ensures taken { (id to : ℕ) (ownership : Ownership) (session : Session) (state : SessionsState)
        → ownership_of id state.owned ≡ Some ownership → session_at to state.sessions ≡ Some session
        → ownership.uri ≡ session.uri
        → (transfer_answer id to state ≡ Ok tt)
        × (ownership_of id (transferred id to state).owned ≡ Some (record ownership { owner = Some to })) }
    ensures refused { (id to : ℕ) (ownership : Ownership) (session : Session) (state : SessionsState)
        → ownership_of id state.owned ≡ Some ownership → session_at to state.sessions ≡ Some session
        → ownership.uri ≢ session.uri → transfer_answer id to state ≡ Err (Code bad_subscription_id_invalid) }
    ensures unknown { (id to : ℕ) (state : SessionsState) → keeps id state.owned ≡ false
        → transfer_answer id to state ≡ Err (Code bad_subscription_id_invalid) }
    ensures others { (id to other : ℕ) (state : SessionsState) → other ≢ id
        → ownership_of other (transferred id to state).owned ≡ ownership_of other state.owned }
{}

/// Of the Publishes that came the last 16 are queued, in the order in which they came.
pub fn last_publishes_wait()
    ensures { (publishes : List Parked) → with_publishes publishes [] ≡ last_publishes publishes }
{}
