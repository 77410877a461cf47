//! Replies to Read (OPC 10000-4, 5.10.2 and 6.6.2.4.2).

ghost use Rattle.std.specs.Prelude.{◌≡◌, OnOk};
ghost use Rattle.link_rules.specs.Ready.{leaves_low, level_replied, level_told, no_reading, one_level};
ghost use Rattle.link_turn.specs.Turns.{done, with_link};

use link_rules::{Conversation, Notice};
use link_turn::{Turn, is_answer_to, level_of};
use std::alloc::Global;
use ua_base::OutOfMemory;
use ua_session_msgs::ReadResponse;
use ua_variants::DataValue;

/// The ServiceLevel, where this one value is one.
fn one_level(values: &[DataValue]) -> Option<u8>
    ensures { result ≡ one_level values.now }
{
    match values {
        [value] => level_of(value),
        _ => None,
    }
}

/// A server of a low level is left, where the client leaves one.
#[tactic(auto, using(link_turn::proofs::Doing::done_nothing_of), unfolding(link_rules::specs::Ready::leaves_low))]
fn leaves_low(alloc: Global, turn: &mut Turn, level: u8) -> Result<(), OutOfMemory>
    ensures { OnOk result (turn.new ≡ done (leaves_low level turn.old.link) turn.old) }
{
    if turn.link().is_left(level) {
        turn.break_off(alloc)
    } else {
        Ok(())
    }
}

/// The Read is answered.
fn end_reading(turn: &mut Turn)
    ensures { turn.new ≡ with_link (no_reading turn.old.link) turn.old }
{
    turn.set_conversation(Conversation {
        reading: None,
        ..turn.link().conversation()
    });
}

/// Tells a level that was read.
#[tactic(auto, using(link_turn::proofs::Doing::done_then), unfolding(link_rules::specs::Ready::level_told))]
fn level_told(alloc: Global, turn: &mut Turn, level: Option<u8>) -> Result<(), OutOfMemory>
    ensures { OnOk result (turn.new ≡ done (level_told level turn.old.link) turn.old) }
{
    let Some(level) = level else {
        return turn.break_off(alloc);
    };
    end_reading(turn);
    turn.tell(Notice::Level { level })?;
    leaves_low(alloc, turn, level)
}

/// The reply to a Read of the ServiceLevel.
#[tactic(auto, unfolding(link_rules::specs::Ready::level_replied))]
pub(crate) fn level_replied(
    alloc: Global,
    turn: &mut Turn,
    response: &ReadResponse,
) -> Result<(), OutOfMemory>
    ensures { OnOk result (turn.new ≡ done (level_replied response.now turn.old.link) turn.old) }
{
    if is_answer_to(turn.link().conversation().reading, response.response_header) {
        level_told(alloc, turn, one_level(response.results.as_slice()))
    } else {
        turn.break_off(alloc)
    }
}
