//! The connections of a set.
ghost use Rattle.std.specs.Prelude.{◌≤◌, ◌<◌, ◌+◌, ◌-◌, ◌^◌, ℕ, Bool, List, [], length};
ghost use Rattle.ua_base.specs.declared.modes.SetMode.{SetMode};
ghost use Rattle.scenario.specs.declared.line.Line.{Line};
ghost use Rattle.client_laws.specs.Life.{acts_of};
ghost use Rattle.client_links.specs.Links.{passed_in};
ghost use Rattle.set_histories.specs.Below.{client_config};
ghost use Rattle.set_histories.specs.Histories.{lives_after, recorded_after};
ghost use Rattle.client_dials.specs.Spoken.{spoken_in};
ghost use Rattle.set_talks.specs.Meetings.{AllShared};
ghost use Rattle.set_meetings.specs.Noted.{lives_noted};

/// After any lines of a scenario, the connections of the client's link to a server are, one after another, those of the
/// server's lives, and on each of them, in each direction, what an end heard is heard of the messages that the other end put,
/// one after another: as long as the link has fewer connections than their numbers go.
pub fn connections_are_shared()
    ensures { (mode : SetMode) (servers items queue : ℕ) (oldest : Bool) (lines : List Line) (place : ℕ) → place + 1 ≤ servers
        → let config = client_config mode servers items queue oldest in
        let moments = (recorded_after mode servers items queue oldest lines).client.node.moments in
        length (spoken_in (passed_in (place + 1) (acts_of config moments)) []) < 2 ^ 32 - 1
        → AllShared (spoken_in (passed_in (place + 1) (acts_of config moments)) [])
        (lives_noted mode servers items (place + 1) (lives_after mode servers items queue oldest lines place)) }
{
    set_histories::histories_are_of_the_set();
    set_histories::histories_meet();
}
