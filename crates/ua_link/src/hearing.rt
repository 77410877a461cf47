//! What a link makes of what is heard.

ghost use Rattle.std.specs.Prelude.{◌≡◌, OnOk};
ghost use Rattle.ua_structures.specs.Body.{body_at};
ghost use Rattle.ua_services.specs.Families.{replies};
ghost use Rattle.link_rules.specs.Closing as closing;
ghost use Rattle.link_rules.specs.Step as step;
ghost use Rattle.link_turn.specs.Turns.{done};

use link_ready::in_ready;
use link_rules::Phase;
use link_starting::{
    greeted, in_activating, in_adding, in_creating, in_opening, in_probing, in_republishing,
    in_subscribing, in_transferring,
};
use link_turn::Turn;
use std::alloc::Global;
use ua_base::OutOfMemory;
use ua_channel::Heard;
use ua_services::{Reply, read_reply};
use ua_structures::BodyFault;

/// Closes the link, since a reply isn't the one that is awaited.
fn refuse(alloc: Global, turn: &mut Turn, reply: Reply) -> Result<(), OutOfMemory>
    ensures { OnOk result (turn.new ≡ done (closing.broken turn.old.link) turn.old) }
{
    let broken = turn.break_off(alloc);
    drop(reply);
    broken
}

/// A reply in a MSG: the phase says which one is awaited, and another one closes the link.
fn replied_in(alloc: Global, turn: &mut Turn, reply: Reply) -> Result<(), OutOfMemory>
    ensures { OnOk result (turn.new ≡ done (step.replied_in turn.old.link.phase reply turn.old.link) turn.old) }
{
    match turn.link().phase() {
        Phase::Idle | Phase::Dialing { .. } | Phase::Hello | Phase::Opening => {
            refuse(alloc, turn, reply)
        }
        Phase::Creating => in_creating(alloc, turn, reply),
        Phase::Activating => in_activating(alloc, turn, reply),
        Phase::Probing => in_probing(alloc, turn, reply),
        Phase::Transferring => in_transferring(alloc, turn, reply),
        Phase::Republishing { .. } => in_republishing(alloc, turn, reply),
        Phase::Subscribing => in_subscribing(alloc, turn, reply),
        Phase::Adding => in_adding(alloc, turn, reply),
        Phase::Ready(ready) => {
            let ready = *ready;
            in_ready(alloc, turn, reply, ready)
        }
    }
}

/// The body of a MSG; one that is no reply's closes the link.
#[tactic(auto, unfolding(link_rules::specs::Step::replied))]
fn replied(alloc: Global, turn: &mut Turn, body: &[u8]) -> Result<(), OutOfMemory>
    ensures { OnOk result (turn.new ≡ done (step.replied body.now turn.old.link) turn.old) }
{
    match read_reply(alloc, body) {
        Ok(reply) => replied_in(alloc, turn, reply),
        Err(BodyFault::OutOfMemory) => Err(OutOfMemory),
        Err(_) => turn.break_off(alloc),
    }
}

/// The body of an OPN whose number follows.
fn opening_read(alloc: Global, turn: &mut Turn, body: &[u8]) -> Result<(), OutOfMemory>
    ensures { OnOk result (turn.new
        ≡ done (step.opening_by (body_at replies body.now) turn.old.link) turn.old) }
{
    match read_reply(alloc, body) {
        Ok(reply) => in_opening(alloc, turn, reply),
        Err(BodyFault::OutOfMemory) => Err(OutOfMemory),
        Err(_) => turn.break_off(alloc),
    }
}

/// The body of an OPN; a number that doesn't follow closes the link.
#[tactic(auto, unfolding(link_rules::specs::Step::opening_replied))]
fn opening_replied(
    alloc: Global,
    turn: &mut Turn,
    follows: bool,
    body: &[u8],
) -> Result<(), OutOfMemory>
    ensures { OnOk result (turn.new ≡ done (step.opening_replied follows body.now turn.old.link) turn.old) }
{
    if follows {
        opening_read(alloc, turn, body)
    } else {
        turn.break_off(alloc)
    }
}

/// What comes to a link that isn't deaf.
fn hears(alloc: Global, turn: &mut Turn, heard: &Heard) -> Result<(), OutOfMemory>
    ensures { OnOk result (turn.new ≡ done (step.hears heard.now turn.old.link) turn.old) }
{
    match heard {
        Heard::Greeting { body } => greeted(alloc, turn, body.bytes()),
        Heard::Opening { follows, body, .. } => {
            opening_replied(alloc, turn, *follows, body.bytes())
        }
        Heard::Message { body, .. } => replied(alloc, turn, body.bytes()),
        Heard::Close | Heard::Fault { .. } => turn.break_off(alloc),
    }
}

/// What comes to a deaf link has no effect.
#[tactic(auto, unfolding(link_rules::specs::Step::heard))]
pub(crate) fn heard(alloc: Global, turn: &mut Turn, heard: &Heard) -> Result<(), OutOfMemory>
    ensures { OnOk result (turn.new ≡ done (step.heard heard.now turn.old.link) turn.old) }
{
    if turn.link().ear().is_deaf() {
        Ok(())
    } else {
        hears(alloc, turn, heard)
    }
}
