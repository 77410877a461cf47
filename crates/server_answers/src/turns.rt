//! Answers in their turn.
ghost use Rattle.std.specs.Prelude.{◌≡◌, ◌+◌, ℕ, List, Some, slice_get, take};
ghost use Rattle.set_model.specs.declared.source.Change.{Change};
ghost use Rattle.ua_channel.specs.State.{WireState};
ghost use Rattle.server_rules.specs.declared.config.ServerConfig.{ServerConfig};
ghost use Rattle.server_rules.specs.State.{new_server};
ghost use Rattle.server_rules.specs.Step.{Happening};
ghost use Rattle.server_answers.specs.Turns.{AreHeard, AreNoPublish, IsAnswer, heard_on, puts_on};

/// As long as no Publish is heard on a connection, each message that a server puts there answers the one that was heard
/// there in the same turn: the first answers the first, the second the second, and nothing else is put there. A CLO is
/// answered by nothing, but nothing is heard behind it either.
pub fn answers_come_in_turn()
    ensures { (config : ServerConfig) (current : List Change) (happenings : List Happening) (conn place : ℕ) (wire : WireState)
        → let s = new_server config current in
        AreHeard happenings s → slice_get (puts_on conn happenings s) place ≡ Some wire
        → AreNoPublish (take (place + 1) (heard_on conn happenings)) → IsAnswer conn place wire happenings s }
{
    server_laws::requests_are_answered_at_once();
    server_laws::connections_are_quiet_until_a_publish();
    server_laws::openings_are_answered_at_once();
    server_laws::connections_are_those_opened();
    server_messages::what_comes_is_awaited_still();
}
