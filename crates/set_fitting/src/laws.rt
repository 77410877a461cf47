//! The laws of what happens in a set.
ghost use Rattle.std.specs.Prelude.{◌≤◌, ◌<◌, ◌^◌, ◌+◌, ℕ, Bool, List, length};
ghost use Rattle.std.specs.List.{AllByRecursion};
ghost use Rattle.ua_base.specs.declared.modes.SetMode.{SetMode};
ghost use Rattle.set_model.specs.Source.{IsSource};
ghost use Rattle.scenario.specs.declared.line.Line.{Line};
ghost use Rattle.scenario.specs.Past.{boot_of};
ghost use Rattle.client_keeps.specs.Fitting as client_keeps;
ghost use Rattle.set_histories.specs.Below.{client_config, FitsLine};
ghost use Rattle.set_histories.specs.Histories.{lives_after, recorded_after};
ghost use Rattle.set_fitting.specs.Counted.{ticks_in_moments};
ghost use Rattle.set_fitting.specs.Fits.{AllFit};

/// After lines whose numbers are those that their types hold, of a set of at most eight servers and fewer than 256 items,
/// with queue sizes of 32 bits: each life of each server, those that are over too, began with a config and current values
/// that fit the wire, and all that happened to it fits, each message that came too; and so it is with the client.
pub fn what_happens_fits()
    ensures lives { (mode : SetMode) (servers items queue : ℕ) (oldest : Bool) (lines : List Line)
        → servers ≤ 8 → items < 2 ^ 8 → queue < 2 ^ 32 → AllByRecursion FitsLine lines
        → (place : ℕ) → place + 1 ≤ servers
        → AllFit mode servers items (place + 1) (lives_after mode servers items queue oldest lines place) }
    ensures client { (mode : SetMode) (servers items queue : ℕ) (oldest : Bool) (lines : List Line)
        → servers ≤ 8 → items < 2 ^ 8 → queue < 2 ^ 32 → AllByRecursion FitsLine lines
        → client_keeps.FitsConfig (client_config mode servers items queue oldest)
        × AllByRecursion client_keeps.FitsMoment (recorded_after mode servers items queue oldest lines).client.node.moments }
{
    server_keeps::what_is_put_keeps_the_limits();
    server_keeps::orders_are_lawful();
    link_keeps::replies_that_keep_fit();
}

/// A server has no more lives than one and one for each line that starts it, and time goes by for the client no more often
/// than there are lines. The source of a set is a source, and has 200,000 changes at most.
pub fn lives_and_ticks_are_counted()
    ensures lives { (mode : SetMode) (servers items queue : ℕ) (oldest : Bool) (lines : List Line) (place : ℕ) → place + 1 ≤ servers
        → length (lives_after mode servers items queue oldest lines place) ≤ boot_of (place + 1) lines }
    ensures ticks { (mode : SetMode) (servers items queue : ℕ) (oldest : Bool) (lines : List Line)
        → ticks_in_moments (recorded_after mode servers items queue oldest lines).client.node.moments ≤ length lines }
    ensures source { (mode : SetMode) (servers items queue : ℕ) (oldest : Bool) (lines : List Line)
        → length (recorded_after mode servers items queue oldest lines).source ≤ 200000 }
    ensures is_source { (mode : SetMode) (servers items queue : ℕ) (oldest : Bool) (lines : List Line)
        → IsSource (recorded_after mode servers items queue oldest lines).source }
{
    set_feeds::the_source_is_the_lines_changes();
    direct_world::laws::history_is_well_fed();
}
