ghost use Rattle.std.specs.Prelude.{◌≡◌, ◌≢◌, ◌<◌, ◌+◌, [], ◌∷◌, ◌++◌, false, true, not, None, length, position, filter, OnOk, OnErr, IfOk, IfErr, IfSome, IsSome, map};
ghost use Rattle.ua_base.specs.Status.{bad_too_many_sessions};
ghost use Rattle.sessions.specs.Session.{has_token, is_numbered, is_unbound, lasts_past, unbound_from};
ghost use Rattle.sessions.specs.Sound.{IsSound};
ghost use Rattle.sessions.specs.Table.{activate_answer, activated, are_bound, bound_answer, check_answer, closed, conn_of, created, disowned, driven_out_of, due_of, expired, is_full, keeps, lives, no_sessions, oldest_of, owned, owner_of, ownership_of, parked, place_to_leave, requested, session_at, transfer_answer, transferred, unbound, unparked, waits, with_room, without_id};

use crate::fault::SessionFault;
use crate::ownership::{Ownership, give_to, keep_owners_among, may_own, ownership_of};
use crate::session::{Parked, Session, session_at};
use std::alloc::Global;
use std::marker::Model;
use ua_base::OutOfMemory;
use ua_base::status::{BAD_SESSION_ID_INVALID, BAD_SUBSCRIPTION_ID_INVALID, BAD_TOO_MANY_SESSIONS};
use ua_values::{UaBytes, UaText};

/// The most sessions that exist at a time.
pub const MOST_SESSIONS: usize = 16;

/// The place of the session of this counter.
fn place_at(sessions: &[Session], counter: u32) -> Option<usize>
    ensures place { result ≡ position (is_numbered counter) sessions.now }
    ensures within { IfSome result (λ place. place < length sessions.now) }
{
    sessions
        .iter()
        .position(|session| session.counter == counter)
}

/// The place of the session of this token.
fn place_of(sessions: &[Session], boot: u16, token: &UaBytes) -> Option<usize>
    ensures place { result ≡ position (has_token boot token.now) sessions.now }
    ensures within { IfSome result (λ place. place < length sessions.now) }
{
    sessions
        .iter()
        .position(|session| session.has_token(boot, token))
}

/// The place of the oldest session that is bound to no connection.
fn place_unbound(sessions: &[Session]) -> Option<usize>
    ensures place { result ≡ position is_unbound sessions.now }
    ensures within { IfSome result (λ place. place < length sessions.now) }
{
    sessions.iter().position(|session| session.is_unbound())
}

/// Whether each session is bound.
fn are_bound(sessions: &[Session]) -> bool
    ensures { result ≡ are_bound sessions.now }
{
    sessions.iter().all(|session| !session.is_unbound())
}

/// The place of the session that leaves for a further one.
fn place_to_leave(sessions: &[Session]) -> Option<usize>
    ensures place { result ≡ place_to_leave sessions.now }
    ensures within { IfSome result (λ place. place < length sessions.now) }
{
    if sessions.len() < MOST_SESSIONS {
        None
    } else {
        place_unbound(sessions)
    }
}

/// Appends a session, and makes room for it.
fn give(sessions: &mut Vec<Session>, session: Session) -> Result<(), OutOfMemory>
    ensures ok { OnOk result (sessions.new.items ≡ with_room sessions.old.items ++ session ∷ []) }
    ensures unchanged { OnErr result (sessions.new.items ≡ sessions.old.items) }
{
    let leaves = place_to_leave(sessions);
    sessions.push(session)?;
    if let Some(place) = leaves {
        sessions.remove(place);
    }
    Ok(())
}

/// Unbinds all sessions of a connection.
fn unbind_all(sessions: &mut Vec<Session>, conn: u32)
    ensures { sessions.new.items ≡ map (unbound_from conn) sessions.old.items }
{
    for session in sessions.iter_mut() {
        session.unbind(conn);
    }
}

/// Drops the sessions that expired.
fn keep_lasting(sessions: &mut Vec<Session>, now: u64)
    ensures { sessions.new.items ≡ filter (lasts_past now) sessions.old.items }
{
    sessions.retain(|session| session.lasts_past(now));
}

/// Drops the session of this counter.
fn drop_session(sessions: &mut Vec<Session>, counter: u32)
    ensures { sessions.new.items ≡ filter (λ session. not (is_numbered counter session)) sessions.old.items }
{
    sessions.retain(|session| session.counter != counter);
}

/// Drops what is kept of this subscription.
fn drop_ownership(owned: &mut Vec<Ownership>, id: u32)
    ensures { owned.new.items ≡ without_id id owned.old.items }
{
    owned.retain(|ownership| ownership.id != id);
}

/// The earliest moment at which a session expires.
fn due_of(sessions: &[Session]) -> u64
    ensures { result ≡ due_of sessions.now }
{
    let mut due = u64::MAX;
    for session in sessions {
        due = due.min(session.last.saturating_add(u64::from(session.timeout)));
    }
    due
}

/// The sessions of a server, and the subscriptions that each of them owns. Each call sees to it that a session which
/// is no more owns nothing.
#[derive(Debug, Drop)]
pub struct Sessions {
    boot: u16,
    last_counter: u32,
    sessions: Vec<Session>,
    owned: Vec<Ownership>,
}

impl Model for Sessions {
    ghost use Rattle.sessions.specs.Sound.{IsSound};
    ghost use Rattle.sessions.specs.State.{SessionsState};

    ghost Value = { SessionsState };

    ghost view = { λ s. record {
      boot = s.boot;
      last_counter = s.last_counter;
      sessions = s.sessions.items;
      owned = s.owned.items;
    } };

    ghost invariant = { λ s. IsSound (record {
      boot = s.boot;
      last_counter = s.last_counter;
      sessions = s.sessions.items;
      owned = s.owned.items;
    }) };
}

impl Sessions {
    /// No session yet, on a server of this boot number. It takes no memory.
    pub fn new(alloc: Global, boot: u16) -> Sessions
        ensures { result ≡ no_sessions boot }
    {
        Sessions {
            boot,
            last_counter: 0,
            sessions: Vec::new(alloc),
            owned: Vec::new(alloc),
        }
    }

    /// A server that gave so many sessions before in this life, all of which are no more. It takes no memory.
    pub fn after(alloc: Global, boot: u16, last_counter: u32) -> Sessions
        ensures { result ≡ record (no_sessions boot) { last_counter = last_counter } }
    {
        Sessions {
            boot,
            last_counter,
            sessions: Vec::new(alloc),
            owned: Vec::new(alloc),
        }
    }

    /// What always holds of the sessions, for a caller to rely on: no two have one counter, at most 16 exist, at most
    /// 16 Publishes of each are queued and none of one that is bound to no connection, each owner exists, and no
    /// subscription is kept twice. It does nothing when it runs.
    pub fn sound(&self)
        ensures { IsSound self.now }
    {
        let _ = &self.sessions;
    }

    fn is_full(&self) -> bool
        ensures { result ≡ is_full self.now }
    {
        (self.sessions.len() >= MOST_SESSIONS && are_bound(&self.sessions))
            || self.last_counter == u32::MAX
    }

    /// Makes a session, bound to this connection (OPC 10000-4, 5.6.2), and answers its counter: the first has 1. The
    /// timeout and the server's age `now` are in milliseconds, the uri is the client's ApplicationUri. Where
    /// `MOST_SESSIONS` exist the oldest one that is bound to no connection is removed for it, and where none is,
    /// or no counter is left, the answer is `Bad_TooManySessions`.
    pub fn create(
        &mut self,
        alloc: Global,
        conn: u32,
        uri: UaText,
        timeout: u32,
        now: u64,
    ) -> Result<u32, SessionFault>
        ensures after { OnOk result (self.new ≡ created conn uri timeout now self.old) }
        ensures counter { IfOk result (λ counter. counter ≡ self.old.last_counter + 1) }
        ensures allowed { OnOk result (is_full self.old ≡ false) }
        ensures refused { IfErr result (λ fault. fault ≢ SessionFault.OutOfMemory
            → (fault ≡ SessionFault.Code bad_too_many_sessions) × (is_full self.old ≡ true)) }
        ensures unchanged { OnErr result (self.new ≡ self.old) }
    {
        if self.is_full() {
            return Err(SessionFault::Code(BAD_TOO_MANY_SESSIONS));
        }
        let counter = self.last_counter + 1;
        let session = Session::new(alloc, counter, conn, uri, timeout, now);
        give(&mut self.sessions, session)?;
        self.last_counter = counter;
        keep_owners_among(&mut self.owned, &self.sessions);
        Ok(counter)
    }

    /// Binds the session of this token to a connection, activates it (OPC 10000-4, 5.6.3) and answers its counter. What
    /// it had queued on another connection is dropped.
    pub fn activate(&mut self, token: &UaBytes, conn: u32, now: u64) -> Result<u32, SessionFault>
        ensures answer { result ≡ activate_answer token.now conn self.old }
        ensures after { self.new ≡ activated token.now conn now self.old }
    {
        match place_of(&self.sessions, self.boot, token) {
            Some(place) => self.sessions[place].activate(conn, now),
            None => Err(SessionFault::Code(BAD_SESSION_ID_INVALID)),
        }
    }

    /// The counter of the session of this token, as any service asks for it that wants the session activated, or the
    /// status code that refuses the request. A request on the session's own connection is its last one from then on,
    /// also where it is refused since the session is not activated.
    pub fn check(&mut self, token: &UaBytes, conn: u32, now: u64) -> Result<u32, u32>
        ensures answer { result ≡ check_answer token.now conn self.old }
        ensures after { self.new ≡ requested token.now conn now self.old }
    {
        match place_of(&self.sessions, self.boot, token) {
            Some(place) => self.sessions[place].check(conn, now),
            None => Err(BAD_SESSION_ID_INVALID),
        }
    }

    /// The same for a service that takes a session which is not activated, as CloseSession does.
    pub fn bound(&mut self, token: &UaBytes, conn: u32, now: u64) -> Result<u32, u32>
        ensures answer { result ≡ bound_answer token.now conn self.old }
        ensures after { self.new ≡ requested token.now conn now self.old }
    {
        match place_of(&self.sessions, self.boot, token) {
            Some(place) => self.sessions[place].bound(conn, now),
            None => Err(BAD_SESSION_ID_INVALID),
        }
    }

    /// Unbinds all sessions of a connection, as when it ended. Their queued Publishes are dropped.
    pub fn unbind(&mut self, conn: u32)
        ensures { self.new ≡ unbound conn self.old }
    {
        unbind_all(&mut self.sessions, conn);
    }

    /// Removes a session (OPC 10000-4, 5.6.4), if it exists. What it owned has no owner then. Its queued Publishes are
    /// dropped: one that is to be answered is taken out by `unpark` before.
    pub fn close(&mut self, session: u32)
        ensures { self.new ≡ closed session self.old }
    {
        drop_session(&mut self.sessions, session);
        keep_owners_among(&mut self.owned, &self.sessions);
    }

    /// Removes the sessions that had no request for their timeout (OPC 10000-4, 5.6.2.2), at this age of the server.
    /// A moment past the last age, `u64::MAX`, never comes.
    pub fn expire(&mut self, now: u64)
        ensures { self.new ≡ expired now self.old }
    {
        keep_lasting(&mut self.sessions, now);
        keep_owners_among(&mut self.owned, &self.sessions);
    }

    /// The earliest age at which a session expires. `u64::MAX` says that none does before, so that `expire` need not
    /// be called at an age below what `due` answers.
    pub fn due(&self) -> u64
        ensures { result ≡ due_of self.now.sessions }
    {
        due_of(&self.sessions)
    }

    /// Queues a Publish of a session (OPC 10000-4, 5.13.5). Where `MOST_QUEUED` were queued the oldest is answered.
    /// Where memory is refused the Publish is lost. The session is bound, as it is where `check` has just passed.
    pub fn park(&mut self, session: u32, publish: Parked) -> Result<Option<Parked>, OutOfMemory>
        requires { IsSome (conn_of (session_at session self.old.sessions)) }
        ensures after { OnOk result (self.new ≡ parked session publish self.old) }
        ensures out { IfOk result (λ out. out ≡ driven_out_of (session_at session self.old.sessions)) }
        ensures unchanged { OnErr result (self.new ≡ self.old) }
    {
        match place_at(&self.sessions, session) {
            Some(place) => self.sessions[place].park(publish),
            None => Ok(None),
        }
    }

    /// Takes out the oldest queued Publish of a session, if there is one.
    pub fn unpark(&mut self, session: u32) -> Option<Parked>
        ensures oldest { result ≡ oldest_of (session_at session self.old.sessions) }
        ensures after { self.new ≡ unparked session self.old }
    {
        match place_at(&self.sessions, session) {
            Some(place) => self.sessions[place].unpark(),
            None => None,
        }
    }

    /// The session owns a subscription of which nothing is kept. Its ApplicationUri is copied, so that it is known
    /// when the session is no more.
    pub fn own(&mut self, alloc: Global, id: u32, session: u32) -> Result<(), OutOfMemory>
        requires exists { lives session self.old.sessions ≡ true }
        requires fresh { keeps id self.old.owned ≡ false }
        ensures after { OnOk result (self.new ≡ owned id session self.old) }
        ensures unchanged { OnErr result (self.new ≡ self.old) }
    {
        if let Some(session) = session_at(&self.sessions, session) {
            let uri = session.uri.copy(alloc)?;
            let owner = Some(session.counter);
            self.owned.push(Ownership { id, owner, uri })?;
        }
        Ok(())
    }

    /// Keeps nothing of a subscription any more.
    pub fn disown(&mut self, id: u32)
        ensures { self.new ≡ disowned id self.old }
    {
        drop_ownership(&mut self.owned, id);
    }

    /// Gives a subscription to the session `to`, as TransferSubscriptions asks (OPC 10000-4, 5.13.7). It takes no
    /// memory: the ApplicationUri that is kept is that of `to`.
    ///
    /// # Errors
    /// `Code` with `Bad_SubscriptionIdInvalid` exactly where nothing is kept of the subscription, or where the session
    /// that owned it last has another ApplicationUri than `to`.
    pub fn transfer(&mut self, id: u32, to: u32) -> Result<(), SessionFault>
        requires { lives to self.old.sessions ≡ true }
        ensures answer { result ≡ transfer_answer id to self.old }
        ensures after { self.new ≡ transferred id to self.old }
    {
        let kept = ownership_of(&self.owned, id);
        if !may_own(kept, session_at(&self.sessions, to)) {
            return Err(SessionFault::Code(BAD_SUBSCRIPTION_ID_INVALID));
        }
        give_to(&mut self.owned, id, to);
        Ok(())
    }

    /// Whether anything is kept of a subscription: a session owned it, and it was not disowned since.
    pub fn keeps(&self, id: u32) -> bool
        ensures { result ≡ keeps id self.now.owned }
    {
        ownership_of(&self.owned, id).is_some()
    }

    /// The session that owns a subscription, if one exists.
    pub fn owner(&self, id: u32) -> Option<u32>
        ensures { result ≡ owner_of (ownership_of id self.now.owned) }
    {
        ownership_of(&self.owned, id)?.owner
    }

    /// Whether a session exists.
    pub fn lives(&self, session: u32) -> bool
        ensures { result ≡ lives session self.now.sessions }
    {
        session_at(&self.sessions, session).is_some()
    }

    /// Whether a Publish of a session is queued.
    pub fn waits(&self, session: u32) -> bool
        ensures { result ≡ waits (session_at session self.now.sessions) }
    {
        match session_at(&self.sessions, session) {
            Some(session) => session.waits(),
            None => false,
        }
    }

    /// The connection to which a session is bound, if it exists and is bound.
    pub fn conn(&self, session: u32) -> Option<u32>
        ensures { result ≡ conn_of (session_at session self.now.sessions) }
    {
        session_at(&self.sessions, session)?.conn
    }
}
