//! Which subscription a link's requests name.

ghost use Rattle.link_rules.specs.State.{LinkState};
ghost use Rattle.link_rules.specs.Step.{Happening, after};
ghost use Rattle.link_takings.specs.Naming.{AllOfRemembered};

/// Each request for a subscription that a link puts in an event, be it one that makes items, sets their mode, asks for a
/// message again or transfers subscriptions, is for one alone: the one that the link remembers behind the event.
pub fn requests_name_what_is_remembered()
    ensures { (h : Happening) (l : LinkState) → AllOfRemembered (after h l).said (after h l).link.remembered }
{}
