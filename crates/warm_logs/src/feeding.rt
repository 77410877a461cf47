//! What feeds the log of a warm set's client.
ghost use Rattle.std.specs.Prelude.{◌≡◌, ℕ, List, reverse};
ghost use Rattle.ua_base.specs.declared.modes.SetMode.TheVariants.{Warm};
ghost use Rattle.set_model.specs.declared.source.Change.{Change};
ghost use Rattle.set_model.specs.Source.{IsSource};
ghost use Rattle.delivery_log.specs.Safe.{Safe};
ghost use Rattle.delivery_log.specs.WellFed.{WellFed};
ghost use Rattle.client_rules.specs.declared.config.ClientConfig.{ClientConfig};
ghost use Rattle.client_rules.specs.Step.{Moment};
ghost use Rattle.client_laws.specs.Life.{acts_of, client_after, history_of};
ghost use Rattle.client_links.specs.Links.{told_of};
ghost use Rattle.warm_logs.specs.Reporting.{AreFollowingOn};

/// In a warm set, where each value that the client's links tell is a change of the source, and where each that comes while
/// its item reports is linked to the one that its server's link told before it of the same item, since the item began to
/// report and since messages were missing last, the log is well fed: a value that comes while its item is off, or is not yet
/// confirmed to report, owes nothing to the one before it, as its item is held then (OPC 10000-4, 6.6.2.4.5.3). So what the log delivers is safe.
pub fn values_while_reporting_feed_the_log()
    ensures fed { (config : ClientConfig) (moments : List Moment) (source : List Change) → config.mode ≡ Warm
        → ((server : ℕ) → AreFollowingOn source config.items (reverse (told_of server (acts_of config moments))))
        → WellFed source (history_of config moments) }
    ensures safe { (config : ClientConfig) (moments : List Moment) (source : List Change) → config.mode ≡ Warm
        → ((server : ℕ) → AreFollowingOn source config.items (reverse (told_of server (acts_of config moments))))
        → IsSource source → Safe source (client_after config moments).log.lines }
{
    delivery_log::well_fed_is_safe();
    client_laws::logs_are_of_their_acts();
    link_laws::subscriptions_have_courses();
    client_links::links_live_in_clients();
    client_links::others_tell_nothing();
}
