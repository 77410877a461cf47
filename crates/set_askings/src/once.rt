//! Items that are asked for.
ghost use Rattle.std.specs.Prelude.{ℕ, List, []};
ghost use Rattle.std.specs.List.{AllByRecursion};
ghost use Rattle.ua_base.specs.declared.modes.Mode.TheVariants.{Disabled};
ghost use Rattle.link_rules.specs.declared.config.LinkConfig.{LinkConfig};
ghost use Rattle.link_rules.specs.State.{new_link};
ghost use Rattle.link_rules.specs.Step.{Happening};
ghost use Rattle.link_laws.specs.Asked.{NeverWants};
ghost use Rattle.client_links.specs.Links.{passed_by};
ghost use Rattle.client_dials.specs.Spoken.{spoken_in};
ghost use Rattle.set_talks.specs.Meetings.{AllShared, Life};
ghost use Rattle.set_askings.specs.Once.{AllKept, IsAskedOnce, IsOrderly};

/// Take a link that is never wanted to have its items off, whose connections are those of its server's lives. In each of
/// these, in the subscription of each id, items were asked for once at the most: all of the link's, as it asks for them, with
/// their source times (OPC 10000-4, 5.12.2); and no SetMonitoringMode asked for Disabled.
pub fn items_are_asked_for_once()
    ensures { (config : LinkConfig) (happenings : List Happening) (lives : List Life) (id : ℕ)
        → NeverWants Disabled happenings
        → AllShared (spoken_in (passed_by happenings (new_link config)) []) lives
        → AllKept (spoken_in (passed_by happenings (new_link config)) [])
        → AllByRecursion IsOrderly lives → AllByRecursion (IsAskedOnce config id) lives }
{
    client_dials::items_are_asked_for_where_made();
    client_askings::what_is_heard_was_asked();
    link_laws::modes_are_wanted();
    server_laws::subscription_ids_are_given_once();
    server_laws::lives_are_steps();
    server_keeps::what_is_put_is_read_again();
}
