//! Replies to Publish (OPC 10000-4, 5.13.5).

ghost use Rattle.std.specs.Prelude.{◌≡◌, OnOk};
ghost use Rattle.link_rules.specs.Said.{and_then};
ghost use Rattle.link_rules.specs.Messages as messages;
ghost use Rattle.link_rules.specs.Publishing as publishing;
ghost use Rattle.link_rules.specs.Ready.{answered, brings, heard_of_it, message_brings, publish_refused, publish_replied, publish_replied_by, restarts};
ghost use Rattle.link_turn.specs.Turns.{done, with_link};

use link_publishing::{content_of, data_taken, fills, kept_alive};
use link_rules::{Content, Notice, Publishes, ReadyState, Remembered};
use link_turn::{Turn, is_good};
use std::alloc::Global;
use ua_base::OutOfMemory;
use ua_base::status::{BAD_NO_SUBSCRIPTION, BAD_TOO_MANY_PUBLISH_REQUESTS};
use ua_structures::{ResponseHeader, UaArray};
use ua_sub_msgs::{MonitoredItemNotification, NotificationMessage, PublishResponse};

/// What isn't answered but for the request of this handle, where it is one of these.
fn answered(handle: u32, publishes: Publishes) -> Option<Publishes>
    ensures { result ≡ answered handle publishes }
{
    match publishes {
        Publishes::Zero => None,
        Publishes::One(first) => {
            if first == handle {
                Some(Publishes::Zero)
            } else {
                None
            }
        }
        Publishes::Two(first, second) => {
            if first == handle {
                Some(Publishes::One(second))
            } else if second == handle {
                Some(Publishes::One(first))
            } else {
                None
            }
        }
    }
}

/// The subscription is gone, and another one is made.
#[tactic(auto, using(link_turn::proofs::Doing::done_then), unfolding(link_rules::specs::Ready::restarts))]
fn restarts(alloc: Global, turn: &mut Turn) -> Result<(), OutOfMemory>
    ensures { OnOk result (turn.new ≡ done (restarts turn.old.link) turn.old) }
{
    turn.tell(Notice::Lost)?;
    turn.subscribe(alloc)
}

// ---- a message

/// A message without notifications is followed by one more Publish.
#[tactic(auto, using(link_turn::proofs::Doing::done_then))]
fn alive_brings(
    alloc: Global,
    turn: &mut Turn,
    number: u32,
    remembered: Remembered,
) -> Result<(), OutOfMemory>
    ensures { OnOk result (turn.new
        ≡ done (and_then publishing.fills (messages.kept_alive number remembered turn.old.link)) turn.old) }
{
    kept_alive(turn, number, remembered)?;
    fills(alloc, turn)
}

/// Values are followed by one more Publish.
#[tactic(auto, using(link_turn::proofs::Doing::done_then))]
fn values_bring(
    alloc: Global,
    turn: &mut Turn,
    number: u32,
    values: UaArray<MonitoredItemNotification>,
    remembered: Remembered,
) -> Result<(), OutOfMemory>
    ensures { OnOk result (turn.new
        ≡ done (and_then publishing.fills (messages.data_taken number values remembered turn.old.link)) turn.old) }
{
    data_taken(turn, number, values, remembered)?;
    fills(alloc, turn)
}

/// What a message comes to is followed by one more Publish, where the link is still ready.
#[tactic(auto, unfolding(link_rules::specs::Ready::brings))]
fn brings(
    alloc: Global,
    turn: &mut Turn,
    content: Content,
    number: u32,
    remembered: Remembered,
) -> Result<(), OutOfMemory>
    ensures { OnOk result (turn.new ≡ done (brings content number remembered turn.old.link) turn.old) }
{
    match content {
        Content::Alive => alive_brings(alloc, turn, number, remembered),
        Content::Ended => restarts(alloc, turn),
        Content::Values(values) => values_bring(alloc, turn, number, values, remembered),
        Content::Unread => turn.break_off(alloc),
    }
}

fn message_brings(
    alloc: Global,
    turn: &mut Turn,
    message: &NotificationMessage,
    remembered: Remembered,
) -> Result<(), OutOfMemory>
    ensures { OnOk result (turn.new ≡ done (message_brings message.now remembered turn.old.link) turn.old) }
{
    match content_of(alloc, message.notification_data.as_slice()) {
        Ok(content) => brings(alloc, turn, content, message.sequence_number, remembered),
        Err(OutOfMemory) => Err(OutOfMemory),
    }
}

/// The link has heard of its subscription.
fn hear_of_it(turn: &mut Turn, left: Publishes, ready: ReadyState)
    ensures { turn.new ≡ with_link (heard_of_it left ready turn.old.link) turn.old }
{
    turn.set_ready(ReadyState {
        publishes: left,
        ..ready
    });
    turn.set_since(turn.link().age());
}

/// A message of the subscription.
#[tactic(auto, unfolding(link_rules::specs::Ready::publish_replied, link_rules::specs::Ready::publish_replied_by))]
pub(crate) fn publish_replied(
    alloc: Global,
    turn: &mut Turn,
    response: &PublishResponse,
    ready: ReadyState,
) -> Result<(), OutOfMemory>
    ensures { OnOk result (turn.new ≡ done (publish_replied response.now ready turn.old.link) turn.old) }
{
    let header = response.response_header;
    let Some(left) = answered(header.request_handle, ready.publishes) else {
        return turn.break_off(alloc);
    };
    let Some(remembered) = turn.link().remembered() else {
        return turn.break_off(alloc);
    };
    if is_good(header.service_result) && response.subscription_id == remembered.id {
        hear_of_it(turn, left, ready);
        message_brings(alloc, turn, &response.notification_message, remembered)
    } else {
        turn.break_off(alloc)
    }
}

// ---- a refusal

/// A ServiceFault: the server takes no more Publish requests, and one fewer waits there; or it has no subscription.
#[tactic(auto, using(link_turn::proofs::Doing::done_nothing_of), unfolding(link_rules::specs::Ready::publish_refused))]
pub(crate) fn publish_refused(
    alloc: Global,
    turn: &mut Turn,
    header: ResponseHeader,
    ready: ReadyState,
) -> Result<(), OutOfMemory>
    ensures { OnOk result (turn.new ≡ done (publish_refused header ready turn.old.link) turn.old) }
{
    let Some(left) = answered(header.request_handle, ready.publishes) else {
        return turn.break_off(alloc);
    };
    if header.service_result == BAD_TOO_MANY_PUBLISH_REQUESTS {
        turn.set_ready(ReadyState {
            publishes: left,
            ..ready
        });
        Ok(())
    } else if header.service_result == BAD_NO_SUBSCRIPTION {
        restarts(alloc, turn)
    } else {
        turn.break_off(alloc)
    }
}
