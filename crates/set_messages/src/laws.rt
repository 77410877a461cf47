//! Laws of a set over whole messages.
ghost use Rattle.std.specs.Prelude.{[], ◌≡◌, ◌≤◌, ◌<◌, ◌^◌, ℕ, Bool, List};
ghost use Rattle.std.specs.List.{AllByRecursion};
ghost use Rattle.ua_base.specs.declared.modes.SetMode.{SetMode};
ghost use Rattle.scenario.specs.declared.line.Line.{Line};
ghost use Rattle.set_rules.specs.World.{after_all};
ghost use Rattle.set_world.specs.Bytes.{beginning, nodes};
ghost use Rattle.set_world.specs.Flight.{flight_of};
ghost use Rattle.set_world.specs.State.{new_world};
ghost use Rattle.set_messages.specs.Fitting.{FitsLine};
ghost use Rattle.set_messages.specs.Showing.{AreBytesOf, SetIsShown, without_pieces};
ghost use Rattle.set_messages.specs.World.{messages_after};

/// A set over bytes does what one over whole messages does, whatever the lines of a scenario say: each server and the client
/// are the same after them, and so is the client's log; and what is in flight on each connection, in each direction, is the
/// bytes of the same messages, framed one after another; so it is with what `World::flight` answers. So no message is lost or changed but where a connection ends, none
/// comes twice, and in which pieces bytes come doesn't matter. Of the lines nothing is asked but that their numbers are
/// those that their types hold.
pub fn messages_show_bytes()
    ensures shown { (mode : SetMode) (servers items queue : ℕ) (oldest : Bool) (lines : List Line)
        → servers ≤ 8 → items < 2 ^ 8 → queue < 2 ^ 32 → AllByRecursion FitsLine lines
        → SetIsShown (after_all nodes (beginning mode servers items) items lines (new_world mode servers items queue oldest).set)
        (messages_after mode servers items queue oldest lines) }
    ensures wire { (mode : SetMode) (servers items queue : ℕ) (oldest : Bool) (lines : List Line)
        → servers ≤ 8 → items < 2 ^ 8 → queue < 2 ^ 32 → AllByRecursion FitsLine lines → (server : ℕ) (to_server : Bool)
        → AreBytesOf (flight_of [] server to_server (after_all nodes (beginning mode servers items) items lines
        (new_world mode servers items queue oldest).set))
        (flight_of [] server to_server (messages_after mode servers items queue oldest lines)) }
{
    server_messages::messages_show_bytes();
    server_messages::messages_show_what_comes();
    server_messages::what_comes_is_awaited_still();
}

/// The lines that say in which pieces bytes come change nothing: with and without them a set comes to the same.
pub fn pieces_change_nothing()
    ensures { (mode : SetMode) (servers items queue : ℕ) (oldest : Bool) (lines : List Line)
        → messages_after mode servers items queue oldest lines
        ≡ messages_after mode servers items queue oldest (without_pieces lines) }
{}
