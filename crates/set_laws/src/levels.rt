//! The levels that the client of a set reads.
ghost use Rattle.std.specs.Prelude.{◌≤◌, ◌+◌, ℕ, Bool, List};
ghost use Rattle.std.specs.List.{AllByRecursion};
ghost use Rattle.ua_base.specs.declared.modes.SetMode.{SetMode};
ghost use Rattle.scenario.specs.declared.line.Line.{Line};
ghost use Rattle.client_laws.specs.Life.{acts_of};
ghost use Rattle.client_links.specs.Links.{told_of};
ghost use Rattle.set_histories.specs.Below.{client_config};
ghost use Rattle.set_histories.specs.Histories.{lives_after, recorded_after};
ghost use Rattle.set_meetings.specs.Noted.{lives_noted};
ghost use Rattle.set_levels.specs.Had.{HadLevel};
ghost use Rattle.set_laws.specs.Limits.{AreWithin};

/// After any lines of a scenario of any redundant mode, within its limits: each ServiceLevel that the client's link to a server
/// tells is the one that a life of the server had when it heard the Read that was answered so (OPC 10000-4, 6.6.2.4.2).
pub fn levels_are_the_servers_own()
    ensures { (mode : SetMode) (servers items queue : ℕ) (oldest : Bool) (lines : List Line)
        → AreWithin servers items queue lines → (place : ℕ) → place + 1 ≤ servers
        → let moments = (recorded_after mode servers items queue oldest lines).client.node.moments in
        AllByRecursion (HadLevel (lives_noted mode servers items (place + 1) (lives_after mode servers items queue oldest lines place)))
        (told_of (place + 1) (acts_of (client_config mode servers items queue oldest) moments)) }
{
    client_links::links_live_in_clients();
    client_keeps::what_is_said_keeps_the_limits();
    client_dials::connections_are_few();
    set_histories::histories_meet();
    set_hearings::lives_hear_what_they_await();
    set_hearings::the_client_hears_what_it_awaits();
    set_feeds::lives_are_fed_from_the_source();
    set_fitting::what_happens_fits();
    set_fitting::lives_and_ticks_are_counted();
    set_meetings::connections_are_shared();
    set_levels::levels_read_were_had();
}
