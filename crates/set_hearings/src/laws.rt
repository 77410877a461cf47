//! The laws of what is heard in a set.
ghost use Rattle.std.specs.Prelude.{◌≤◌, ◌+◌, ℕ, Bool, List};
ghost use Rattle.ua_base.specs.declared.modes.SetMode.{SetMode};
ghost use Rattle.scenario.specs.declared.line.Line.{Line};
ghost use Rattle.client_rules.specs.Step.{new_client};
ghost use Rattle.client_links.specs.Awaited.{AreAwaited};
ghost use Rattle.set_histories.specs.Below.{client_config};
ghost use Rattle.set_histories.specs.Histories.{lives_after, recorded_after};
ghost use Rattle.set_hearings.specs.Attentive.{AllAttentive};

/// After any lines of a scenario, each life of each server, those that are over too, heard each of its messages on a
/// connection that it had accepted and that wasn't deaf then; and it heard on one connection after another: once one was
/// opened, nothing was heard on those before it.
pub fn lives_hear_what_they_await()
    ensures { (mode : SetMode) (servers items queue : ℕ) (oldest : Bool) (lines : List Line) (place : ℕ) → place + 1 ≤ servers
        → AllAttentive mode servers items (place + 1) (lives_after mode servers items queue oldest lines place) }
{}

/// Of each of its servers the client heard each message where the link had a connection, in use and not deaf; and a
/// connection was opened where the link dialled.
pub fn the_client_hears_what_it_awaits()
    ensures { (mode : SetMode) (servers items queue : ℕ) (oldest : Bool) (lines : List Line) (server : ℕ) → 1 ≤ server → server ≤ servers
        → AreAwaited server (recorded_after mode servers items queue oldest lines).client.node.moments
        (new_client (client_config mode servers items queue oldest)) }
{}
