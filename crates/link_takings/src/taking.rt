//! What the data that a link takes come of.

ghost use Rattle.std.specs.Prelude.{List};
ghost use Rattle.link_rules.specs.State.{LinkState};
ghost use Rattle.link_rules.specs.Step.{Happening, after_all};
ghost use Rattle.link_laws.specs.Course.{IsSteady};
ghost use Rattle.link_takings.specs.From.{AreSteps, IsDone, IsStep, deeds_in};

/// Each event is deeds that are done to the subscription that the link remembers, and all that is told of its items'
/// values is what they tell. A message with data is taken or passed over only where it comes in a good Publish response
/// that names the subscription which the link remembered before the event, or in a good Republish response in the phase
/// in which one is awaited; the link isn't deaf then, and that subscription is still remembered just before. A new
/// subscription has the id of the CreateSubscription response that comes.
pub fn data_come_of_the_subscription()
    ensures { (h : Happening) (l : LinkState) → IsSteady l → IsStep h l }
{
    link_laws::subscriptions_have_courses();
}

/// The deeds of all events, one after another, are all that happens to the subscription and its items, and is told of it.
pub fn steps_make_courses()
    ensures steady { (happenings : List Happening) (l : LinkState) → IsSteady l → AreSteps happenings l }
    ensures course { (happenings : List Happening) (l : LinkState) (steps : AreSteps happenings l)
        → IsDone (deeds_in happenings l steps) l (after_all happenings l) }
{
    link_laws::subscriptions_have_courses();
    link_laws::items_are_made_once();
}
