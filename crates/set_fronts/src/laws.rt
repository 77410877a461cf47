//! The laws of what is put and taken, from the beginning of a set on.
ghost use Rattle.std.specs.Prelude.{◌≤◌, ◌^◌, ◌-◌, ℕ, Bool, List, length};
ghost use Rattle.ua_base.specs.declared.modes.SetMode.{SetMode};
ghost use Rattle.ua_channel.specs.State.{WireState};
ghost use Rattle.scenario.specs.declared.line.Line.{Line};
ghost use Rattle.ua_server.specs.State as server;
ghost use Rattle.client_messages.specs.Messages as learning;
ghost use Rattle.ua_client.specs.State as client;
ghost use Rattle.set_world.specs.Bytes as bytes;
ghost use Rattle.set_world.specs.Texts.{client_config};
ghost use Rattle.set_messages.specs.Nodes as messages;
ghost use Rattle.set_fronts.specs.Noting.{NotedLife};
ghost use Rattle.set_fronts.specs.Fronts.{AllFronts, AreSame, AreNumbered, noted_after, plain_after};
ghost use Rattle.set_fronts.specs.Numbers.{AreFalling, boots_of};

/// A set whose nodes note what they take and put does, line by line, what the set does without these notes: of whole
/// messages, and of bytes.
pub fn notes_change_nothing()
    ensures messages { (mode : SetMode) (servers items queue : ℕ) (oldest : Bool) (lines : List Line)
        → AreSame
        (plain_after messages.nodes (messages.beginning mode servers items) items lines servers
        (learning.new_talk (client_config mode servers items queue oldest)))
        (noted_after messages.nodes (messages.beginning mode servers items) items lines servers
        (learning.new_talk (client_config mode servers items queue oldest))) }
    ensures bytes { (mode : SetMode) (servers items queue : ℕ) (oldest : Bool) (lines : List Line)
        → AreSame
        (plain_after bytes.nodes (bytes.beginning mode servers items) items lines servers
        (client.new_bytes (client_config mode servers items queue oldest)))
        (noted_after bytes.nodes (bytes.beginning mode servers items) items lines servers
        (client.new_bytes (client_config mode servers items queue oldest))) }
{}

/// After any lines of a scenario, for each server: the connections that the client made to it are, one after another, those
/// that its lives accepted, and on each of them, in each direction, what one end took is a front of what the other put, in
/// its order. So connections of a link come in the order of its dials and don't overlap. The one that stands is the newest
/// of the link and of the life that runs, and there what was put is what was taken, followed by what is in flight. The lives
/// of a server are numbered from 1 on, and so are the connections of each.
pub fn what_is_taken_was_put()
    ensures messages { (mode : SetMode) (servers items queue : ℕ) (oldest : Bool) (lines : List Line)
        → AllFronts messages.nodes (messages.beginning mode servers items) items lines servers
        (learning.new_talk (client_config mode servers items queue oldest)) }
    ensures bytes { (mode : SetMode) (servers items queue : ℕ) (oldest : Bool) (lines : List Line)
        → AllFronts bytes.nodes (bytes.beginning mode servers items) items lines servers
        (client.new_bytes (client_config mode servers items queue oldest)) }
{}

/// As long as the numbers go on, which is for 65,535 lives, no two lives of a server have one boot number: each has a higher
/// one than those before it.
pub fn lives_have_numbers_of_their_own()
    ensures messages { (lives : List (NotedLife messages.Server WireState)) → AreNumbered lives → length lives ≤ 2 ^ 16 - 1
        → AreFalling (boots_of lives) }
    ensures bytes { (lives : List (NotedLife server.BytesState ℕ)) → AreNumbered lives → length lives ≤ 2 ^ 16 - 1
        → AreFalling (boots_of lives) }
{}
