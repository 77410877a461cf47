//! How a session begins, and what is asked of the server's redundancy before it is used (OPC 10000-4, 5.6.2, 5.6.3 and
//! 6.6.2.4).

ghost use Rattle.std.specs.Prelude.{◌≡◌, OnOk};
ghost use Rattle.ua_variants.specs.declared.variant.Variant.{out-Variant};
ghost use Rattle.ua_session_msgs.specs.declared.reply.SessionReply.TheVariants as session_reply;
ghost use Rattle.ua_services.specs.declared.reply.Reply.TheVariants as any_reply;
ghost use Rattle.link_turn.specs.Turns.{done};
ghost use Rattle.link_rules.specs.Starting as rules;
ghost use Rattle.link_rules.specs.Starting.{int_in, int_of, is_unused, judges, probed, probed_by, support_of, unsupported};

use crate::subscribing::begins;
use link_rules::Notice;
use link_turn::{Turn, is_answer, is_good_status, level_of};
use std::alloc::Global;
use ua_base::OutOfMemory;
use ua_services::Reply;
use ua_session_msgs::{ActivateSessionResponse, CreateSessionResponse, ReadResponse, SessionReply};
use ua_variants::{DataValue, Scalar, Variant};

/// Redundancy behind one address: its client sees one server (OPC 10000-5, 12.5).
const TRANSPARENT: i32 = 4;

/// Servers that mirror each other's sessions (OPC 10000-5, 12.5).
const HOT_AND_MIRRORED: i32 = 5;

// ---- the session

/// The server made a session: it is to be activated.
#[tactic(auto, unfolding(link_rules::specs::Starting::in_creating))]
fn created(alloc: Global, turn: &mut Turn, reply: &CreateSessionResponse) -> Result<(), OutOfMemory>
    ensures { OnOk result (turn.new
        ≡ done (rules.in_creating (any_reply.Session (session_reply.CreateSession reply.now)) turn.old.link) turn.old) }
{
    if is_answer(reply.response_header, turn.link()) {
        let token = reply.authentication_token.copy(alloc)?;
        turn.set_session(token);
        turn.activate(alloc)
    } else {
        turn.break_off(alloc)
    }
}

/// What comes in answer to CreateSession.
#[tactic(auto, unfolding(link_rules::specs::Starting::in_creating))]
fn creating_replied(alloc: Global, turn: &mut Turn, reply: &Reply) -> Result<(), OutOfMemory>
    ensures { OnOk result (turn.new ≡ done (rules.in_creating reply.now turn.old.link) turn.old) }
{
    match reply {
        Reply::Session(SessionReply::CreateSession(reply)) => created(alloc, turn, reply),
        _ => turn.break_off(alloc),
    }
}

/// A reply came in the phase Creating (OPC 10000-4, 5.6.2).
pub fn in_creating(alloc: Global, turn: &mut Turn, reply: Reply) -> Result<(), OutOfMemory>
    ensures { OnOk result (turn.new ≡ done (rules.in_creating reply turn.old.link) turn.old) }
{
    let answered = creating_replied(alloc, turn, &reply);
    drop(reply);
    answered
}

/// The session is active: the server's redundancy is asked for.
#[tactic(auto, unfolding(link_rules::specs::Starting::in_activating))]
fn activated(
    alloc: Global,
    turn: &mut Turn,
    reply: &ActivateSessionResponse,
) -> Result<(), OutOfMemory>
    ensures { OnOk result (turn.new ≡ done
        (rules.in_activating (any_reply.Session (session_reply.ActivateSession reply.now)) turn.old.link) turn.old) }
{
    if is_answer(reply.response_header, turn.link()) {
        turn.probe(alloc)
    } else {
        turn.break_off(alloc)
    }
}

/// What comes in answer to ActivateSession.
#[tactic(auto, unfolding(link_rules::specs::Starting::in_activating))]
fn activating_replied(alloc: Global, turn: &mut Turn, reply: &Reply) -> Result<(), OutOfMemory>
    ensures { OnOk result (turn.new ≡ done (rules.in_activating reply.now turn.old.link) turn.old) }
{
    match reply {
        Reply::Session(SessionReply::ActivateSession(reply)) => activated(alloc, turn, reply),
        _ => turn.break_off(alloc),
    }
}

/// A reply came in the phase Activating (OPC 10000-4, 5.6.3).
pub fn in_activating(alloc: Global, turn: &mut Turn, reply: Reply) -> Result<(), OutOfMemory>
    ensures { OnOk result (turn.new ≡ done (rules.in_activating reply turn.old.link) turn.old) }
{
    let answered = activating_replied(alloc, turn, &reply);
    drop(reply);
    answered
}

// ---- the redundancy

/// The number that a value is, if it is an Int32.
fn int_of(value: &Variant) -> Option<i32>
    ensures { result ≡ int_of (out-Variant value.now) }
{
    match value {
        Variant::Scalar(Scalar::Int32(number)) => Some(*number),
        _ => None,
    }
}

/// The number that a value is, if there is one, and it is an Int32.
fn int_in(value: &Option<Variant>) -> Option<i32>
    ensures { result ≡ int_in value.now }
{
    match value {
        Some(value) => int_of(value),
        None => None,
    }
}

/// The RedundancySupport that was read (OPC 10000-5, 12.5), if it is good.
fn support_of(value: &DataValue) -> Option<i32>
    ensures { result ≡ support_of value.now }
{
    if is_good_status(value.status) {
        int_in(&value.value)
    } else {
        None
    }
}

/// Whether it is a kind of redundancy in which a client has nothing to choose.
fn is_unused(support: i32) -> bool
    ensures { result ≡ is_unused support }
{
    support == TRANSPARENT || support == HOT_AND_MIRRORED
}

/// The server's redundancy is of a kind that isn't used: this link dials no more.
#[tactic(auto, unfolding(link_rules::specs::Starting::unsupported))]
fn leave_unsupported(alloc: Global, turn: &mut Turn) -> Result<(), OutOfMemory>
    ensures { OnOk result (turn.new ≡ done (unsupported turn.old.link) turn.old) }
{
    turn.set_unsupported();
    turn.tell(Notice::Unsupported)?;
    turn.break_off(alloc)
}

/// Uses the server, or leaves it, by its ServiceLevel and its RedundancySupport.
#[tactic(auto, unfolding(link_rules::specs::Starting::judges))]
fn judge(alloc: Global, turn: &mut Turn, level: u8, support: i32) -> Result<(), OutOfMemory>
    ensures { OnOk result (turn.new ≡ done (judges level support turn.old.link) turn.old) }
{
    if is_unused(support) {
        leave_unsupported(alloc, turn)
    } else if turn.link().is_left(level) {
        turn.break_off(alloc)
    } else {
        begins(alloc, turn)
    }
}

/// Tells the ServiceLevel, and judges.
#[tactic(auto, unfolding(link_rules::specs::Starting::probed_by))]
fn level_told(alloc: Global, turn: &mut Turn, level: u8, support: i32) -> Result<(), OutOfMemory>
    ensures { OnOk result (turn.new ≡ done (probed_by (Some level) (Some support) turn.old.link) turn.old) }
{
    turn.tell(Notice::Level { level })?;
    judge(alloc, turn, level, support)
}

/// Takes what two values say.
#[tactic(auto, unfolding(link_rules::specs::Starting::probed_by))]
fn probed_by(
    alloc: Global,
    turn: &mut Turn,
    level: Option<u8>,
    support: Option<i32>,
) -> Result<(), OutOfMemory>
    ensures { OnOk result (turn.new ≡ done (probed_by level support turn.old.link) turn.old) }
{
    match (level, support) {
        (Some(level), Some(support)) => level_told(alloc, turn, level, support),
        _ => turn.break_off(alloc),
    }
}

/// Takes the values that were read, of which there are two.
#[tactic(auto, unfolding(link_rules::specs::Starting::probed))]
fn probed(alloc: Global, turn: &mut Turn, values: &[DataValue]) -> Result<(), OutOfMemory>
    ensures { OnOk result (turn.new ≡ done (probed values.now turn.old.link) turn.old) }
{
    match values {
        [level, support] => probed_by(alloc, turn, level_of(level), support_of(support)),
        _ => turn.break_off(alloc),
    }
}

/// The first Read was answered.
#[tactic(auto, unfolding(link_rules::specs::Starting::in_probing))]
fn read(alloc: Global, turn: &mut Turn, reply: &ReadResponse) -> Result<(), OutOfMemory>
    ensures { OnOk result (turn.new
        ≡ done (rules.in_probing (any_reply.Session (session_reply.Read reply.now)) turn.old.link) turn.old) }
{
    if is_answer(reply.response_header, turn.link()) {
        probed(alloc, turn, reply.results.as_slice())
    } else {
        turn.break_off(alloc)
    }
}

/// What comes in answer to the first Read.
#[tactic(auto, unfolding(link_rules::specs::Starting::in_probing))]
fn probing_replied(alloc: Global, turn: &mut Turn, reply: &Reply) -> Result<(), OutOfMemory>
    ensures { OnOk result (turn.new ≡ done (rules.in_probing reply.now turn.old.link) turn.old) }
{
    match reply {
        Reply::Session(SessionReply::Read(reply)) => read(alloc, turn, reply),
        _ => turn.break_off(alloc),
    }
}

/// A reply came in the phase Probing (OPC 10000-4, 6.6.2.4.2).
pub fn in_probing(alloc: Global, turn: &mut Turn, reply: Reply) -> Result<(), OutOfMemory>
    ensures { OnOk result (turn.new ≡ done (rules.in_probing reply turn.old.link) turn.old) }
{
    let answered = probing_replied(alloc, turn, &reply);
    drop(reply);
    answered
}
