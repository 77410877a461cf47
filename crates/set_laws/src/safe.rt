//! The logs of hot and cold sets.
ghost use Rattle.std.specs.Prelude.{ℕ, Bool, List};
ghost use Rattle.ua_base.specs.declared.modes.SetMode.{SetMode};
ghost use Rattle.scenario.specs.declared.line.Line.{Line};
ghost use Rattle.client_laws.specs.Life.{client_after, history_of};
ghost use Rattle.client_links.specs.Links.{IsHotOrCold};
ghost use Rattle.set_histories.specs.Below.{client_config};
ghost use Rattle.set_histories.specs.Histories.{recorded_after};
ghost use Rattle.set_laws.specs.Faithful.{IsFaithful};
ghost use Rattle.set_laws.specs.Limits.{AreWithin};

/// After any lines of a scenario, within its limits: whatever is cut, held, lost, stopped, restarted or ticked, what a hot or
/// a cold set's client is told is well fed from the set's one source. So its log is safe: each item's data lines are changes of the
/// source, each once, in source order; and wherever a change between two of them is missing, a gap line stands directly
/// before the later one.
pub fn hot_and_cold_logs_are_safe()
    ensures { (mode : SetMode) (servers items queue : ℕ) (oldest : Bool) (lines : List Line)
        → IsHotOrCold mode → AreWithin servers items queue lines
        → let set = recorded_after mode servers items queue oldest lines in
        let config = client_config mode servers items queue oldest in
        let moments = set.client.node.moments in
        IsFaithful set.source (history_of config moments) (client_after config moments).log.lines }
{
    client_links::links_live_in_clients();
    client_links::others_tell_nothing();
    client_links::linked_values_feed_the_log();
    client_keeps::what_is_said_keeps_the_limits();
    client_dials::connections_are_few();
    link_following::values_of_a_link_follow();
    set_histories::histories_meet();
    set_hearings::lives_hear_what_they_await();
    set_hearings::the_client_hears_what_it_awaits();
    set_feeds::lives_are_fed_from_the_source();
    set_feeds::known_changes_end_the_source();
    set_fitting::what_happens_fits();
    set_fitting::lives_and_ticks_are_counted();
    set_meetings::connections_are_shared();
    set_askings::items_are_asked_for_once();
    set_takings::data_come_of_the_book();
    whole_books::ids_tell_their_life();
    whole_books::lives_make_whole_books();
}
