//! Levels that a client reads.
ghost use Rattle.std.specs.Prelude.{List, []};
ghost use Rattle.std.specs.List.{AllByRecursion};
ghost use Rattle.link_rules.specs.declared.config.LinkConfig.{LinkConfig};
ghost use Rattle.link_rules.specs.State.{new_link};
ghost use Rattle.link_rules.specs.Step.{Happening, after_all};
ghost use Rattle.client_links.specs.Awaited.{AllAwaited};
ghost use Rattle.client_links.specs.Links.{passed_by};
ghost use Rattle.client_dials.specs.Spoken.{spoken_in};
ghost use Rattle.set_talks.specs.Meetings.{AllShared, Life};
ghost use Rattle.set_askings.specs.Once.{AllKept, IsOrderly};
ghost use Rattle.set_levels.specs.Had.{HadLevel};

/// Take a link whose connections are those of its server's lives, in which what comes is awaited and what it says keeps the
/// limits of the wire. Each ServiceLevel that it tells is the one that a life of its server had when it heard the Read that
/// was answered so.
pub fn levels_read_were_had()
    ensures { (config : LinkConfig) (happenings : List Happening) (lives : List Life)
        → AllAwaited happenings (new_link config)
        → AllShared (spoken_in (passed_by happenings (new_link config)) []) lives
        → AllKept (spoken_in (passed_by happenings (new_link config)) [])
        → AllByRecursion IsOrderly lives → AllByRecursion (HadLevel lives) (after_all happenings (new_link config)).notices }
{
    client_dials::what_is_heard_comes_on_a_connection();
    client_askings::what_is_heard_was_asked();
    server_tellings::what_is_heard_was_said();
    level_readings::levels_are_read_first();
    level_readings::levels_are_those_of_the_server();
}
