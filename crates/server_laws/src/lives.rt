//! A life as steps, and each subscription's part in it.
ghost use Rattle.std.specs.Prelude.{◌≡◌, ◌++◌, ◌∷◌, [], ℕ, List, reverse};
ghost use Rattle.set_model.specs.declared.source.Change.{Change};
ghost use Rattle.set_model.specs.Source.{last_of};
ghost use Rattle.server_rules.specs.declared.config.ServerConfig.{ServerConfig};
ghost use Rattle.server_rules.specs.State.{ServerState, new_server};
ghost use Rattle.server_rules.specs.Step.{Happening, after};
ghost use Rattle.server_rules.specs.Acts.{acts, history, state_after};
ghost use Rattle.server_laws.specs.Course.{Comes, IsCourse, MayAnswer, core_of, fed_in, leave_of, said_after, said_in};
ghost use Rattle.server_laws.specs.Facts.{IsWithin, facts_said};
ghost use Rattle.server_laws.specs.Lives.{Life, Stands, Unborn, life_after};
ghost use Rattle.server_laws.specs.Moves.{Answer, Answered};

/// A life is the fold of the steps over all that happened, which is told newest first, and its history is that of the
/// acts of each step: what came, and directly behind it all that was said then.
pub fn lives_are_steps()
    ensures state { (happening : Happening) (earlier : List Happening) (s : ServerState)
        → state_after (happening ∷ earlier) s ≡ (after happening (state_after earlier s)).state }
    ensures acts { (happening : Happening) (earlier : List Happening) (s : ServerState)
        → reverse (history (happening ∷ earlier) s)
        ≡ reverse (history earlier s) ++ acts happening (state_after earlier s) }
    ensures said { (happenings : List Happening) (s : ServerState)
        → said_in (reverse (history happenings s)) ≡ said_after happenings s }
{}

/// The current value of an item is its last change: of those with which the life began, and those that were fed since.
pub fn current_values_are_the_last()
    ensures { (item : ℕ) (happenings : List Happening) (s : ServerState)
        → last_of item (state_after happenings s).current ≡ last_of item (s.current ++ fed_in happenings) }
{}

/// Whatever happens comes to moves: a subscription is made under the next id, is called, fed, or ended. After any of
/// them each subscription is what the calls of its life made of it, and no other one has its id. Items are made only
/// where CreateMonitoredItems asks for it, and monitoring modes are set only where SetMonitoringMode asks for it, and of
/// that subscription alone; and a subscription goes to another session only where TransferSubscriptions names it. What
/// is said of the moves is within what they tell, in order: an answer may be too large, or for nobody.
pub fn subscriptions_are_calls()
    ensures step { (happening : Happening) (s : ServerState) → Comes (leave_of happening) s (after happening s) }
    ensures life { (config : ServerConfig) (current : List Change) (happenings : List Happening)
        → let s = new_server config current in
        (course : IsCourse happenings s)
        × ((id : ℕ) → Stands id (life_after id course.moves (core_of s) Unborn) (core_of (state_after happenings s))) }
{}

/// The response to SetMonitoringMode, and that to Read, are put while such a request is handled, and at no other time;
/// and an OpenSecureChannel response is put while an OPN is handled.
pub fn responses_answer_their_requests()
    ensures { (happening : Happening) (s : ServerState) (answer : Answer)
        → IsWithin (Answered answer ∷ []) (facts_said (after happening s).said)
        → MayAnswer (leave_of happening) answer }
{}
