//! What feeds a client's log.

ghost use Rattle.std.specs.Prelude.{ℕ, List, reverse};
ghost use Rattle.set_model.specs.declared.source.Change.{Change};
ghost use Rattle.set_model.specs.Source.{IsSource};
ghost use Rattle.delivery_log.specs.Safe.{Safe};
ghost use Rattle.delivery_log.specs.WellFed.{WellFed};
ghost use Rattle.client_rules.specs.declared.config.ClientConfig.{ClientConfig};
ghost use Rattle.client_rules.specs.Step.{Moment};
ghost use Rattle.client_laws.specs.Life.{acts_of, client_after, history_of};
ghost use Rattle.client_links.specs.Links.{IsHotOrCold, told_of};
ghost use Rattle.client_links.specs.Feeding.{AreFollowing};

/// In a hot or a cold set, where each value that the client's links tell is a change of the source, and is linked to the
/// one that its server's link told before it of the same item since the item's values began and since messages were missing
/// last, the log is well fed. So what it delivers is safe: each item's data lines are its changes in order, and none is
/// missing between two of them without a gap line directly before the later one.
pub fn linked_values_feed_the_log()
    ensures fed { (config : ClientConfig) (moments : List Moment) (source : List Change)
        → IsHotOrCold config.mode
        → ((server : ℕ) → AreFollowing source config.items (reverse (told_of server (acts_of config moments))))
        → WellFed source (history_of config moments) }
    ensures safe { (config : ClientConfig) (moments : List Moment) (source : List Change)
        → IsHotOrCold config.mode
        → ((server : ℕ) → AreFollowing source config.items (reverse (told_of server (acts_of config moments))))
        → IsSource source → Safe source (client_after config moments).log.lines }
{
    delivery_log::well_fed_is_safe();
    client_laws::logs_are_of_their_acts();
}
