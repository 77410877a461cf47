//! How a connection is made and its secure channel opened, and how the channel's token is renewed (OPC 10000-6, 7.1.2 and
//! 7.1.3; OPC 10000-4, 5.5.2).

ghost use Rattle.std.specs.Prelude.{◌≡◌, OnOk};
ghost use Rattle.link_turn.specs.Turns.{done, with_link};
ghost use Rattle.link_rules.specs.declared.phase.Phase.TheVariants as phase;
ghost use Rattle.link_rules.specs.Opening as rules;
ghost use Rattle.link_rules.specs.Opening.{acknowledged_by, channel_replied_in, heard_once, is_enough};

use link_rules::Phase;
use link_turn::{Turn, is_answer, is_answer_to};
use std::alloc::Global;
use ua_base::OutOfMemory;
use ua_chunks::{Greeting, read_ack};
use ua_services::Reply;
use ua_session_msgs::{OpenSecureChannelResponse, SessionReply};
use ua_values::{UaText, ValueFault};

/// The size of frames that each end takes (OPC 10000-6, 7.1.2.3).
const LEAST_FRAME: u32 = 8192;

// ---- the connection

/// Says a HEL on the connection that was wished for.
fn greet(alloc: Global, turn: &mut Turn, url: UaText) -> Result<(), OutOfMemory>
    ensures { OnOk result (turn.new ≡ done (rules.greets url (rules.connected url turn.old.link)) turn.old) }
{
    let named = url.copy(alloc)?;
    turn.connect(named);
    turn.greet(alloc, &url)
}

/// A connection to this endpoint was made (OPC 10000-6, 7.1.3). One that wasn't wished for is to be closed.
#[tactic(auto, unfolding(link_rules::specs::Opening::opened))]
pub fn opened(alloc: Global, turn: &mut Turn, url: UaText) -> Result<(), OutOfMemory>
    ensures { OnOk result (turn.new ≡ done (rules.opened url turn.old.link) turn.old) }
{
    match turn.link().phase() {
        Phase::Idle => {
            turn.set_closes(true);
            Ok(())
        }
        Phase::Dialing { .. } => greet(alloc, turn, url),
        _ => turn.break_off(alloc),
    }
}

/// No connection could be made.
#[tactic(auto, unfolding(link_rules::specs::Opening::refused))]
pub fn refused(alloc: Global, turn: &mut Turn) -> Result<(), OutOfMemory>
    ensures { OnOk result (turn.new ≡ done (rules.refused turn.old.link) turn.old) }
{
    match turn.link().phase() {
        Phase::Dialing { .. } => turn.drop_off(alloc),
        _ => Ok(()),
    }
}

/// The connection that stood ended.
fn ended(alloc: Global, turn: &mut Turn) -> Result<(), OutOfMemory>
    ensures { OnOk result (turn.new ≡ done (rules.closed_in turn.old.link.phase turn.old.link) turn.old) }
{
    match turn.link().phase() {
        Phase::Idle | Phase::Dialing { .. } => Ok(()),
        _ => turn.drop_off(alloc),
    }
}

/// The connection ended: that which was to be closed, or the one that stood.
#[tactic(auto, unfolding(link_rules::specs::Opening::closed))]
pub fn closed(alloc: Global, turn: &mut Turn) -> Result<(), OutOfMemory>
    ensures { OnOk result (turn.new ≡ done (rules.closed turn.old.link) turn.old) }
{
    if turn.link().closes() {
        turn.set_closes(false);
        Ok(())
    } else {
        ended(alloc, turn)
    }
}

// ---- its channel

/// Whether an ACK names buffers that are large enough.
fn is_enough(greeting: &Greeting) -> bool
    ensures { result ≡ is_enough greeting.now }
{
    LEAST_FRAME <= greeting.receive && LEAST_FRAME <= greeting.send
}

/// Takes the sizes that an ACK names, and asks for a channel.
#[tactic(auto, unfolding(link_rules::specs::Opening::acknowledged_by))]
fn acknowledged_by(alloc: Global, turn: &mut Turn, greeting: &Greeting) -> Result<(), OutOfMemory>
    ensures { OnOk result (turn.new ≡ done (acknowledged_by greeting.now turn.old.link) turn.old) }
{
    if is_enough(greeting) {
        turn.limit_to(*greeting)?;
        turn.open_channel(alloc)
    } else {
        turn.break_off(alloc)
    }
}

/// Takes what was read of an ACK.
#[tactic(auto, unfolding(link_rules::specs::Opening::greeted_by))]
fn greeted_by(alloc: Global, turn: &mut Turn, body: &[u8]) -> Result<(), OutOfMemory>
    ensures { OnOk result (turn.new ≡ done (rules.greeted_in phase.Hello body.now turn.old.link) turn.old) }
{
    match read_ack(body) {
        Ok(greeting) => acknowledged_by(alloc, turn, &greeting),
        Err(ValueFault::OutOfMemory) => Err(OutOfMemory),
        Err(_) => turn.break_off(alloc),
    }
}

/// An ACK came, with this body (OPC 10000-6, 7.1.2.4).
#[tactic(auto, unfolding(link_rules::specs::Opening::greeted))]
pub fn greeted(alloc: Global, turn: &mut Turn, body: &[u8]) -> Result<(), OutOfMemory>
    ensures { OnOk result (turn.new ≡ done (rules.greeted body.now turn.old.link) turn.old) }
{
    match turn.link().phase() {
        Phase::Hello => greeted_by(alloc, turn, body),
        _ => turn.break_off(alloc),
    }
}

// ---- the channel's tokens

/// A message came in a phase, which it doesn't change.
fn hear_once(turn: &mut Turn)
    ensures { turn.new ≡ with_link (heard_once turn.old.link) turn.old }
{
    if !turn.link().is_ready() {
        let age = turn.link().age();
        turn.set_since(age);
    }
}

/// The channel is open: a session is asked for.
#[tactic(auto, unfolding(link_rules::specs::Opening::channel_replied_in))]
fn first_token(
    alloc: Global,
    turn: &mut Turn,
    reply: &OpenSecureChannelResponse,
) -> Result<(), OutOfMemory>
    ensures { OnOk result (turn.new ≡ done (channel_replied_in phase.Opening reply.now turn.old.link) turn.old) }
{
    if is_answer(reply.response_header, turn.link()) {
        turn.renew(reply.security_token)?;
        turn.create_session(alloc)
    } else {
        turn.break_off(alloc)
    }
}

/// The channel has another token.
#[tactic(auto, unfolding(link_rules::specs::Opening::channel_replied_in))]
fn next_token(
    alloc: Global,
    turn: &mut Turn,
    reply: &OpenSecureChannelResponse,
) -> Result<(), OutOfMemory>
    ensures { OnOk result (turn.new ≡ done (channel_replied_in phase.Idle reply.now turn.old.link) turn.old) }
{
    if is_answer_to(turn.link().conversation().renewal, reply.response_header) {
        hear_once(turn);
        turn.renew(reply.security_token)
    } else {
        turn.break_off(alloc)
    }
}

/// The server issued a token.
#[tactic(auto, unfolding(link_rules::specs::Opening::channel_replied_in))]
fn channel_replied(
    alloc: Global,
    turn: &mut Turn,
    reply: &OpenSecureChannelResponse,
) -> Result<(), OutOfMemory>
    ensures { OnOk result
        (turn.new ≡ done (channel_replied_in turn.old.link.phase reply.now turn.old.link) turn.old) }
{
    match turn.link().phase() {
        Phase::Opening => first_token(alloc, turn, reply),
        _ => next_token(alloc, turn, reply),
    }
}

/// What an OPN brings.
#[tactic(auto, unfolding(link_rules::specs::Opening::in_opening))]
fn opening_replied(alloc: Global, turn: &mut Turn, reply: &Reply) -> Result<(), OutOfMemory>
    ensures { OnOk result (turn.new ≡ done (rules.in_opening reply.now turn.old.link) turn.old) }
{
    match reply {
        Reply::Session(SessionReply::OpenSecureChannel(reply)) => channel_replied(
            alloc, turn, reply,
        ),
        _ => turn.break_off(alloc),
    }
}

/// The reply in an OPN came: the first, or that of a renewal (OPC 10000-4, 5.5.2).
pub fn in_opening(alloc: Global, turn: &mut Turn, reply: Reply) -> Result<(), OutOfMemory>
    ensures { OnOk result (turn.new ≡ done (rules.in_opening reply turn.old.link) turn.old) }
{
    let answered = opening_replied(alloc, turn, &reply);
    drop(reply);
    answered
}
