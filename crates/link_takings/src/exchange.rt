//! What was asked for before data of a Republish response are taken.

ghost use Rattle.std.specs.Prelude.{◌≡◌, ℕ, List, Some};
ghost use Rattle.link_rules.specs.declared.config.LinkConfig.{LinkConfig};
ghost use Rattle.link_rules.specs.declared.phase.Phase.TheVariants as phase;
ghost use Rattle.link_rules.specs.declared.remembered.Remembered.{Remembered};
ghost use Rattle.link_rules.specs.State.{new_link};
ghost use Rattle.link_rules.specs.Step.{Happening, after_all};
ghost use Rattle.link_takings.specs.Exchange.{AsksAgain, exchange_all, no_exchange};

/// Where a Republish response is awaited, the last message that the link put on this connection is a Republish request of
/// the subscription that it remembers. So far one message more was put there than was taken, and none of them is a
/// Publish; so what is taken next answers that request.
pub fn republished_messages_were_asked_for()
    ensures { (config : LinkConfig) (happenings : List Happening) (wanted : List ℕ) (r : Remembered)
        → (after_all happenings (new_link config)).link.phase ≡ phase.Republishing wanted
        → (after_all happenings (new_link config)).link.remembered ≡ Some r
        → AsksAgain r.id (exchange_all happenings (new_link config) no_exchange) }
{}
