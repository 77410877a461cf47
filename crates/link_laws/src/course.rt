//! What becomes of a link's subscription.

ghost use Rattle.std.specs.Prelude.{◌≡◌, ◌≤◌, ◌^◌, ℕ, List, Option, Some, [], None};
ghost use Rattle.link_rules.specs.declared.config.LinkConfig.{LinkConfig};
ghost use Rattle.link_rules.specs.declared.remembered.Monitored.{Monitored};
ghost use Rattle.link_rules.specs.declared.remembered.Remembered.{Remembered};
ghost use Rattle.link_rules.specs.State.{LinkState, new_link};
ghost use Rattle.link_rules.specs.Step.{Happening, after, after_all};
ghost use Rattle.link_laws.specs.Course.{AllStay, AreDoable, AreKnown, Deed, IsCourse, IsOnward, IsRunOf, IsSomething, IsSteady, data_heard_in, ids_heard_in, monitored_after, remembered_after, run_after, ids_of, told_after};

/// All that a link tells of its items' values, in its order, is what deeds tell that are done to the subscription that it
/// remembers, one after another: the values begin anew with a new subscription, a message that is taken is told whole, and
/// a jump is told where a message or a keep-alive is ahead of the next one. Nothing is taken where no subscription is
/// remembered. Each message that is taken or passed over was heard, once and in this order, and so was the id of each new
/// subscription.
pub fn subscriptions_have_courses()
    ensures first { (config : LinkConfig) → IsSteady (new_link config) }
    ensures stays { (h : Happening) (l : LinkState) → IsSteady l → IsSteady (after h l).link }
    ensures course { (happenings : List Happening) (l : LinkState) → IsSteady l
        → IsCourse l (data_heard_in happenings) (ids_heard_in happenings) (after_all happenings l) }
{}

/// Since the values began anew or a jump was told, the messages with data that were taken have numbers that follow one
/// another, and the next number follows the last of them. Where no subscription is remembered nothing is told until one
/// is made.
pub fn runs_follow()
    ensures follow { (deeds : List Deed) (o : Option Remembered) (run : List ℕ) → AreDoable deeds o → IsRunOf run o
        → IsRunOf (run_after deeds run) (remembered_after deeds o) }
    ensures nothing { (count : ℕ) (deeds : List Deed) (monitored : List Monitored) → AreDoable deeds None
        → ids_of deeds ≡ [] → told_after count deeds monitored ≡ [] }
{}

/// While the subscription stays and the numbers of its messages are small, its next number never falls, what is taken has
/// the next number before it or a later one, and each message with data that came is below the next number then; and the
/// items that were made stay the same.
pub fn numbers_go_onward()
    ensures numbers { (deeds : List Deed) (r : Remembered) → AllStay deeds → AreDoable deeds (Some r) → r.next ≤ 2 ^ 31
        → IsOnward r deeds }
    ensures items { (deeds : List Deed) (monitored : List Monitored) → AllStay deeds → IsSomething monitored
        → AreKnown deeds monitored → monitored_after deeds monitored ≡ monitored }
{}
