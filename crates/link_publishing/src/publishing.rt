//! What a link does as soon as it can: it keeps two Publish requests at the server, and gives the items their mode (OPC
//! 10000-4, 5.12.4 and 5.13.5).

ghost use Rattle.std.specs.Prelude.{◌≡◌, OnOk};
ghost use Rattle.link_rules.specs.Publishing.{enters_ready, fills, has_room, is_mode, mode_due, new_ready, publishes, sets, sets_mode, tells_sent, unless_confirmed};
ghost use Rattle.link_rules.specs.Step.{wants};
ghost use Rattle.link_turn.specs.Turns.{done};

use link_rules::{Notice, Phase, Publishes, ReadyState, Remembered};
use link_turn::Turn;
use std::alloc::Global;
use ua_base::{Mode, OutOfMemory};

// ---- Publish requests

/// Whether fewer than two aren't answered.
fn has_room(publishes: Publishes) -> bool
    ensures { result ≡ has_room publishes }
{
    match publishes {
        Publishes::Zero | Publishes::One(_) => true,
        Publishes::Two(_, _) => false,
    }
}

/// One Publish request, where fewer than two aren't answered.
#[tactic(auto, using(link_turn::proofs::Doing::done_nothing_of), unfolding(link_rules::specs::Publishing::publishes))]
fn publishes(alloc: Global, turn: &mut Turn) -> Result<(), OutOfMemory>
    ensures { OnOk result (turn.new ≡ done (publishes turn.old.link) turn.old) }
{
    let Some(ready) = turn.link().ready() else {
        return Ok(());
    };
    let Some(remembered) = turn.link().remembered() else {
        return Ok(());
    };
    if has_room(ready.publishes) {
        turn.publish(alloc, ready, remembered)
    } else {
        Ok(())
    }
}

/// As many Publish requests as make two.
///
/// # Errors
///
/// Want of memory, here and in each call below. Nothing is said of what stands then.
#[tactic(auto, using(link_turn::proofs::Doing::done_then), unfolding(link_rules::specs::Publishing::fills))]
pub fn fills(alloc: Global, turn: &mut Turn) -> Result<(), OutOfMemory>
    ensures { OnOk result (turn.new ≡ done (fills turn.old.link) turn.old) }
{
    publishes(alloc, turn)?;
    publishes(alloc, turn)
}

// ---- the mode of the items

fn is_mode(mode: Mode, other: Option<Mode>) -> bool
    ensures { result ≡ is_mode mode other }
{
    match other {
        None => false,
        Some(other) => mode.number() == other.number(),
    }
}

/// A mode that is wanted, where it isn't confirmed.
fn unless_confirmed(wanted: Option<Mode>, confirmed: Option<Mode>) -> Option<Mode>
    ensures { result ≡ unless_confirmed wanted confirmed }
{
    match wanted {
        None => None,
        Some(mode) => {
            if is_mode(mode, confirmed) {
                None
            } else {
                Some(mode)
            }
        }
    }
}

/// The mode to be asked for: that which is wanted, where it isn't confirmed and no request for one is unanswered.
fn mode_due(ready: ReadyState) -> Option<Mode>
    ensures { result ≡ mode_due ready }
{
    match ready.setting {
        Some(_) => None,
        None => unless_confirmed(ready.wanted, ready.confirmed),
    }
}

/// Tells that a mode was asked for, where the link is still ready.
#[tactic(auto, using(link_turn::proofs::Doing::done_nothing_of), unfolding(link_rules::specs::Publishing::tells_sent))]
fn tells_sent(turn: &mut Turn, mode: Mode) -> Result<(), OutOfMemory>
    ensures { OnOk result (turn.new ≡ done (tells_sent mode turn.old.link) turn.old) }
{
    if turn.link().is_ready() {
        turn.tell(Notice::Sent { mode })
    } else {
        Ok(())
    }
}

/// Asks for a mode, and tells so.
#[tactic(auto, using(link_turn::proofs::Doing::done_then), unfolding(link_rules::specs::Publishing::sets))]
fn sets(
    alloc: Global,
    turn: &mut Turn,
    mode: Mode,
    ready: ReadyState,
    remembered: Remembered,
) -> Result<(), OutOfMemory>
    ensures { OnOk result (turn.new ≡ done (sets mode ready remembered turn.old.link) turn.old) }
{
    turn.ask_mode(alloc, remembered.id, mode, ready)?;
    tells_sent(turn, mode)
}

/// SetMonitoringMode, where another mode is wanted.
#[tactic(auto, using(link_turn::proofs::Doing::done_nothing_of), unfolding(link_rules::specs::Publishing::sets_mode))]
pub fn sets_mode(alloc: Global, turn: &mut Turn) -> Result<(), OutOfMemory>
    ensures { OnOk result (turn.new ≡ done (sets_mode turn.old.link) turn.old) }
{
    let Some(ready) = turn.link().ready() else {
        return Ok(());
    };
    let Some(mode) = mode_due(ready) else {
        return Ok(());
    };
    let Some(remembered) = turn.link().remembered() else {
        return Ok(());
    };
    sets(alloc, turn, mode, ready, remembered)
}

/// The client wants a mode of all items.
#[tactic(auto, using(link_turn::proofs::Doing::done_nothing_of), unfolding(link_rules::specs::Step::wants))]
pub fn wants(alloc: Global, turn: &mut Turn, mode: Mode) -> Result<(), OutOfMemory>
    ensures { OnOk result (turn.new ≡ done (wants mode turn.old.link) turn.old) }
{
    let Some(ready) = turn.link().ready() else {
        return Ok(());
    };
    turn.set_ready(ReadyState {
        wanted: Some(mode),
        ..ready
    });
    sets_mode(alloc, turn)
}

// ---- the phase that begins

/// What is known where the subscription begins to send.
fn new_ready(confirmed: Option<Mode>) -> ReadyState
    ensures { result ≡ new_ready confirmed }
{
    ReadyState {
        publishes: Publishes::Zero,
        setting: None,
        confirmed,
        wanted: None,
    }
}

/// The subscription will send: its items have this mode, if it is known, and no mode is wanted yet.
#[tactic(auto, using(link_turn::proofs::Doing::done_then), unfolding(link_rules::specs::Publishing::enters_ready))]
pub fn enters_ready(
    alloc: Global,
    turn: &mut Turn,
    confirmed: Option<Mode>,
) -> Result<(), OutOfMemory>
    ensures { OnOk result (turn.new ≡ done (enters_ready confirmed turn.old.link) turn.old) }
{
    turn.begin(Phase::Ready(new_ready(confirmed)));
    turn.tell(Notice::Ready)?;
    fills(alloc, turn)
}
