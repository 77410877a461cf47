//! Any reply to a link whose subscription sends messages.

ghost use Rattle.std.specs.Prelude.{◌≡◌, OnOk};
ghost use Rattle.link_rules.specs.Ready.{in_ready};
ghost use Rattle.link_turn.specs.Turns.{done};

use crate::levels::level_replied;
use crate::modes::mode_replied;
use crate::replies::{publish_refused, publish_replied};
use link_rules::ReadyState;
use link_turn::Turn;
use std::alloc::Global;
use ua_base::OutOfMemory;
use ua_services::Reply;
use ua_session_msgs::SessionReply;
use ua_sub_msgs::SubReply;

/// What a reply brings, by its kind.
#[tactic(auto, unfolding(link_rules::specs::Ready::in_ready, link_rules::specs::Ready::mode_replied))]
fn replied(
    alloc: Global,
    turn: &mut Turn,
    reply: &Reply,
    ready: ReadyState,
) -> Result<(), OutOfMemory>
    ensures { OnOk result (turn.new ≡ done (in_ready reply.now ready turn.old.link) turn.old) }
{
    match reply {
        Reply::Session(SessionReply::ServiceFault(header)) => {
            publish_refused(alloc, turn, *header, ready)
        }
        Reply::Session(SessionReply::Read(response)) => level_replied(alloc, turn, response),
        Reply::Subscription(SubReply::Publish(response)) => {
            publish_replied(alloc, turn, response, ready)
        }
        Reply::Subscription(SubReply::SetMonitoringMode(response)) => {
            mode_replied(alloc, turn, response.response_header, ready)
        }
        _ => turn.break_off(alloc),
    }
}

/// A reply to a link that is ready: one that isn't to Publish, Read or SetMonitoringMode closes it.
///
/// # Errors
///
/// Want of memory. Nothing is said of what stands then.
pub fn in_ready(
    alloc: Global,
    turn: &mut Turn,
    reply: Reply,
    ready: ReadyState,
) -> Result<(), OutOfMemory>
    ensures { OnOk result (turn.new ≡ done (in_ready reply ready turn.old.link) turn.old) }
{
    let answered = replied(alloc, turn, &reply, ready);
    drop(reply);
    answered
}
