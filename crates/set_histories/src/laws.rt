//! The laws of a set's histories.
ghost use Rattle.std.specs.Prelude.{ℕ, Bool, List};
ghost use Rattle.ua_base.specs.declared.modes.SetMode.{SetMode};
ghost use Rattle.scenario.specs.declared.line.Line.{Line};
ghost use Rattle.client_messages.specs.Messages as learning;
ghost use Rattle.set_fronts.specs.Below.{client_config, beginning};
ghost use Rattle.set_fronts.specs.Fronts.{AllFronts};
ghost use Rattle.set_histories.specs.Histories.{AreHistories};
ghost use Rattle.set_histories.specs.Recording.{recorded_client, recorded_life, recording};

/// After any lines of a scenario, each life of each server, those that are over too, is what the rules of a server make of
/// all that happened to it, and the client is what the rules of a client make of all its moments; it is the client of the
/// set over messages. On each connection of a life, what it heard is heard of the messages that came, one after another, and
/// what was put is a front of what it said there; and so it is on each connection of a link.
pub fn histories_are_of_the_set()
    ensures { (mode : SetMode) (servers items queue : ℕ) (oldest : Bool) (lines : List Line)
        → AreHistories mode servers items queue oldest lines }
{
    server_laws::connections_are_quiet_until_a_publish();
}

/// The connections that the client made to a server are, one after another, those that its lives accepted, and on each of
/// them, in each direction, what came to one end is a front of what the other end put; and the lives are numbered from 1 on.
pub fn histories_meet()
    ensures { (mode : SetMode) (servers items queue : ℕ) (oldest : Bool) (lines : List Line)
        → AllFronts recording (recorded_life (beginning mode servers items)) items lines servers
        (recorded_client (learning.new_talk (client_config mode servers items queue oldest))) }
{}
