//! How a link comes to a subscription that sends: it takes over the one that it remembers, with the messages that it
//! missed, or makes one with its items (OPC 10000-4, 5.12.2, 5.13.2, 5.13.6 and 5.13.7).

ghost use Rattle.std.specs.Prelude.{◌≡◌, ◌++◌, ◌∷◌, [], option_map, IfOk, OnOk, Some, None};
ghost use Rattle.ua_session_msgs.specs.declared.reply.SessionReply.TheVariants as session_reply;
ghost use Rattle.ua_sub_msgs.specs.declared.reply.SubReply.TheVariants as sub_reply;
ghost use Rattle.ua_services.specs.declared.reply.Reply.TheVariants as any_reply;
ghost use Rattle.link_turn.specs.Turns.{done};
ghost use Rattle.link_rules.specs.Messages.{content_of};
ghost use Rattle.link_rules.specs.Numbers as numbers;
ghost use Rattle.link_rules.specs.Said.{tells};
ghost use Rattle.link_rules.specs.Subscribing as rules;
ghost use Rattle.link_rules.specs.Subscribing.{asks_again, available_in, available_of, brings_again, goes_on, message_again, monitored_of, streams, subscribed, transferred, transfers_by, with_item};

use link_publishing::{content_of, data_taken, enters_ready, kept_alive};
use link_rules::{Content, Monitored, Notice, Phase, Remembered};
use link_turn::{Turn, is_answer, is_fault, is_good, is_new};
use std::alloc::Global;
use ua_base::OutOfMemory;
use ua_base::status::BAD_MESSAGE_NOT_AVAILABLE;
use ua_services::Reply;
use ua_session_msgs::SessionReply;
use ua_structures::{ResponseHeader, UaArray};
use ua_sub_msgs::{
    CreateMonitoredItemsResponse, CreateSubscriptionResponse, MonitoredItemCreateResult,
    NotificationMessage, RepublishResponse, SubReply, TransferResult,
    TransferSubscriptionsResponse,
};

// ---- the subscription that is remembered

/// The server may be used.
#[tactic(auto, unfolding(link_rules::specs::Subscribing::begins))]
pub(crate) fn begins(alloc: Global, turn: &mut Turn) -> Result<(), OutOfMemory>
    ensures { OnOk result (turn.new ≡ done (rules.begins turn.old.link) turn.old) }
{
    match turn.link().remembered() {
        Some(remembered) => turn.transfer(alloc, remembered.id),
        None => turn.subscribe(alloc),
    }
}

/// Asks for the first of the messages that are wanted; where none is, the link is ready.
#[tactic(auto, unfolding(link_rules::specs::Subscribing::asks_again))]
fn ask_again(
    alloc: Global,
    turn: &mut Turn,
    wanted: &[u32],
    remembered: Remembered,
) -> Result<(), OutOfMemory>
    ensures { OnOk result (turn.new ≡ done (asks_again wanted.now remembered turn.old.link) turn.old) }
{
    match wanted {
        [] => enters_ready(alloc, turn, None),
        [number, more @ ..] => {
            let more = UaArray::new(Vec::from_slice(alloc, more)?);
            turn.republish(alloc, remembered.id, *number, more)
        }
    }
}

/// Takes a number in that is wanted.
fn want(next: u32, number: u32, wanted: &mut Vec<u32>) -> Result<(), OutOfMemory>
    ensures { OnOk result (wanted.new.items ≡ wanted.old.items ++ numbers.wanted_of next (number ∷ [])) }
{
    if is_new(next, number) {
        wanted.push(number)?;
    }
    Ok(())
}

/// Those of the kept messages that are to be asked for again, in the order in which they were sent (OPC 10000-4, 5.13.6).
fn wanted_of(alloc: Global, next: u32, available: &[u32]) -> Result<Vec<u32>, OutOfMemory>
    ensures { IfOk result (λ wanted. wanted.items ≡ numbers.wanted_of next available.now) }
{
    let mut wanted = Vec::new(alloc);
    for number in available {
        want(next, *number, &mut wanted)?;
    }
    Ok(wanted)
}

/// The subscription is the client's again: the messages that it missed are asked for.
fn resume(alloc: Global, turn: &mut Turn, available: &[u32]) -> Result<(), OutOfMemory>
    ensures { OnOk result
        (turn.new ≡ done (transfers_by (Some available.now) turn.old.link.remembered turn.old.link) turn.old) }
{
    match turn.link().remembered() {
        Some(remembered) => {
            let wanted = wanted_of(alloc, remembered.next, available)?;
            ask_again(alloc, turn, &wanted, remembered)
        }
        None => turn.subscribe(alloc),
    }
}

/// Takes what became of the one subscription; where it isn't the client's again, another one is made.
fn resume_by(alloc: Global, turn: &mut Turn, results: &[TransferResult]) -> Result<(), OutOfMemory>
    ensures { OnOk result (turn.new
        ≡ done (transfers_by (available_in results.now) turn.old.link.remembered turn.old.link) turn.old) }
{
    match results {
        [told] => if is_good(told.status_code) {
            resume(alloc, turn, told.available_sequence_numbers.as_slice())
        } else {
            turn.subscribe(alloc)
        },
        _ => turn.subscribe(alloc),
    }
}

/// TransferSubscriptions was answered.
#[tactic(auto, unfolding(link_rules::specs::Subscribing::transferred))]
fn transferred(
    alloc: Global,
    turn: &mut Turn,
    reply: &TransferSubscriptionsResponse,
) -> Result<(), OutOfMemory>
    ensures { OnOk result (turn.new
        ≡ done (transferred (available_of reply.now) reply.now.response_header turn.old.link) turn.old) }
{
    if reply.response_header.request_handle != turn.link().conversation().last {
        turn.break_off(alloc)
    } else if is_good(reply.response_header.service_result) {
        resume_by(alloc, turn, reply.results.as_slice())
    } else {
        turn.subscribe(alloc)
    }
}

/// TransferSubscriptions was refused as a whole.
#[tactic(auto, unfolding(link_rules::specs::Subscribing::transferred))]
fn transfer_refused(
    alloc: Global,
    turn: &mut Turn,
    header: &ResponseHeader,
) -> Result<(), OutOfMemory>
    ensures { OnOk result (turn.new ≡ done (transferred None header.now turn.old.link) turn.old) }
{
    if header.request_handle == turn.link().conversation().last {
        turn.subscribe(alloc)
    } else {
        turn.break_off(alloc)
    }
}

/// What comes in answer to TransferSubscriptions.
#[tactic(auto, unfolding(link_rules::specs::Subscribing::in_transferring))]
fn transferring_replied(alloc: Global, turn: &mut Turn, reply: &Reply) -> Result<(), OutOfMemory>
    ensures { OnOk result (turn.new ≡ done (rules.in_transferring reply.now turn.old.link) turn.old) }
{
    match reply {
        Reply::Session(SessionReply::ServiceFault(header)) => transfer_refused(alloc, turn, header),
        Reply::Subscription(SubReply::TransferSubscriptions(reply)) => {
            transferred(alloc, turn, reply)
        }
        _ => turn.break_off(alloc),
    }
}

/// A reply came in the phase Transferring (OPC 10000-4, 5.13.7).
pub fn in_transferring(alloc: Global, turn: &mut Turn, reply: Reply) -> Result<(), OutOfMemory>
    ensures { OnOk result (turn.new ≡ done (rules.in_transferring reply turn.old.link) turn.old) }
{
    let answered = transferring_replied(alloc, turn, &reply);
    drop(reply);
    answered
}

// ---- the messages that were missed

/// The numbers that are still to be asked for, where messages are asked for again.
fn wanted_in(alloc: Global, phase: &Phase) -> Result<Option<Vec<u32>>, OutOfMemory>
    ensures { IfOk result (λ wanted. option_map (λ numbers. numbers.items) wanted ≡ rules.wanted_in phase.now) }
{
    match phase {
        Phase::Republishing { wanted } => Ok(Some(Vec::from_slice(alloc, wanted.as_slice())?)),
        _ => Ok(None),
    }
}

/// The next message, where the link wasn't closed by this one.
#[tactic(auto, unfolding(link_rules::specs::Subscribing::goes_on))]
fn go_on(alloc: Global, turn: &mut Turn) -> Result<(), OutOfMemory>
    ensures { OnOk result (turn.new ≡ done (goes_on turn.old.link) turn.old) }
{
    let wanted = wanted_in(alloc, turn.link().phase())?;
    match (wanted, turn.link().remembered()) {
        (Some(wanted), Some(remembered)) => ask_again(alloc, turn, &wanted, remembered),
        _ => Ok(()),
    }
}

/// What a missed message brings.
#[tactic(auto, unfolding(link_rules::specs::Subscribing::brings_again))]
fn bring_again(
    alloc: Global,
    turn: &mut Turn,
    content: Content,
    number: u32,
    remembered: Remembered,
) -> Result<(), OutOfMemory>
    ensures { OnOk result (turn.new ≡ done (brings_again content number remembered turn.old.link) turn.old) }
{
    match content {
        Content::Alive => kept_alive(turn, number, remembered),
        Content::Ended => Ok(()),
        Content::Values(values) => data_taken(turn, number, values, remembered),
        Content::Unread => turn.break_off(alloc),
    }
}

/// Reads a missed message, and takes what it brings.
fn read_again(
    alloc: Global,
    turn: &mut Turn,
    message: &NotificationMessage,
    remembered: Remembered,
) -> Result<(), OutOfMemory>
    ensures { OnOk result (turn.new ≡ done
        (brings_again (content_of message.now.notification_data) message.now.sequence_number remembered turn.old.link)
        turn.old) }
{
    let content = content_of(alloc, message.notification_data.as_slice())?;
    bring_again(alloc, turn, content, message.sequence_number, remembered)
}

/// Takes a missed message, and asks for the next one.
#[tactic(auto, unfolding(link_rules::specs::Subscribing::message_again))]
fn take_again(
    alloc: Global,
    turn: &mut Turn,
    message: &NotificationMessage,
) -> Result<(), OutOfMemory>
    ensures { OnOk result
        (turn.new ≡ done (message_again message.now turn.old.link.remembered turn.old.link) turn.old) }
{
    match turn.link().remembered() {
        Some(remembered) => {
            read_again(alloc, turn, message, remembered)?;
            go_on(alloc, turn)
        }
        None => turn.break_off(alloc),
    }
}

/// Republish was answered.
#[tactic(auto, unfolding(link_rules::specs::Subscribing::in_republishing))]
fn republished(alloc: Global, turn: &mut Turn, reply: &RepublishResponse) -> Result<(), OutOfMemory>
    ensures { OnOk result (turn.new ≡ done
        (rules.in_republishing (any_reply.Subscription (sub_reply.Republish reply.now)) turn.old.link) turn.old) }
{
    if is_answer(reply.response_header, turn.link()) {
        take_again(alloc, turn, &reply.notification_message)
    } else {
        turn.break_off(alloc)
    }
}

/// A message isn't kept any more; other codes close the link.
#[tactic(auto, unfolding(link_rules::specs::Subscribing::in_republishing))]
fn republish_refused(
    alloc: Global,
    turn: &mut Turn,
    header: &ResponseHeader,
) -> Result<(), OutOfMemory>
    ensures { OnOk result (turn.new ≡ done
        (rules.in_republishing (any_reply.Session (session_reply.ServiceFault header.now)) turn.old.link) turn.old) }
{
    let last = turn.link().conversation().last;
    if is_fault(last, BAD_MESSAGE_NOT_AVAILABLE, *header) {
        go_on(alloc, turn)
    } else {
        turn.break_off(alloc)
    }
}

/// What comes in answer to Republish.
#[tactic(auto, unfolding(link_rules::specs::Subscribing::in_republishing))]
fn republishing_replied(alloc: Global, turn: &mut Turn, reply: &Reply) -> Result<(), OutOfMemory>
    ensures { OnOk result (turn.new ≡ done (rules.in_republishing reply.now turn.old.link) turn.old) }
{
    match reply {
        Reply::Session(SessionReply::ServiceFault(header)) => {
            republish_refused(alloc, turn, header)
        }
        Reply::Subscription(SubReply::Republish(reply)) => republished(alloc, turn, reply),
        _ => turn.break_off(alloc),
    }
}

/// A reply came in the phase Republishing (OPC 10000-4, 5.13.6).
pub fn in_republishing(alloc: Global, turn: &mut Turn, reply: Reply) -> Result<(), OutOfMemory>
    ensures { OnOk result (turn.new ≡ done (rules.in_republishing reply turn.old.link) turn.old) }
{
    let answered = republishing_replied(alloc, turn, &reply);
    drop(reply);
    answered
}

// ---- a new subscription

/// Tells that the values of so many items begin anew.
fn tell_streams(turn: &mut Turn, count: u8) -> Result<(), OutOfMemory>
    ensures { OnOk result (turn.new ≡ done (tells (streams count) turn.old.link) turn.old) }
{
    for item in 0..count {
        turn.tell(Notice::Stream { item: item + 1 })?;
    }
    Ok(())
}

/// A subscription was made: its items are to be made.
#[tactic(auto, unfolding(link_rules::specs::Subscribing::subscribed))]
fn subscribed(alloc: Global, turn: &mut Turn, id: u32) -> Result<(), OutOfMemory>
    ensures { OnOk result (turn.new ≡ done (subscribed id turn.old.link) turn.old) }
{
    turn.make(alloc, id);
    let items = turn.link().config().items;
    tell_streams(turn, items)?;
    turn.add_items(alloc, id)
}

/// CreateSubscription was answered.
#[tactic(auto, unfolding(link_rules::specs::Subscribing::in_subscribing))]
fn sub_created(
    alloc: Global,
    turn: &mut Turn,
    reply: &CreateSubscriptionResponse,
) -> Result<(), OutOfMemory>
    ensures { OnOk result (turn.new ≡ done
        (rules.in_subscribing (any_reply.Subscription (sub_reply.CreateSubscription reply.now)) turn.old.link)
        turn.old) }
{
    if is_answer(reply.response_header, turn.link()) {
        subscribed(alloc, turn, reply.subscription_id)
    } else {
        turn.break_off(alloc)
    }
}

/// What comes in answer to CreateSubscription.
#[tactic(auto, unfolding(link_rules::specs::Subscribing::in_subscribing))]
fn subscribing_replied(alloc: Global, turn: &mut Turn, reply: &Reply) -> Result<(), OutOfMemory>
    ensures { OnOk result (turn.new ≡ done (rules.in_subscribing reply.now turn.old.link) turn.old) }
{
    match reply {
        Reply::Subscription(SubReply::CreateSubscription(reply)) => sub_created(alloc, turn, reply),
        _ => turn.break_off(alloc),
    }
}

/// A reply came in the phase Subscribing (OPC 10000-4, 5.13.2).
pub fn in_subscribing(alloc: Global, turn: &mut Turn, reply: Reply) -> Result<(), OutOfMemory>
    ensures { OnOk result (turn.new ≡ done (rules.in_subscribing reply turn.old.link) turn.old) }
{
    let answered = subscribing_replied(alloc, turn, &reply);
    drop(reply);
    answered
}

// ---- its items

/// Takes an item in, where it was made.
fn add_item(
    item: u8,
    one: &MonitoredItemCreateResult,
    monitored: &mut Vec<Monitored>,
) -> Result<(), OutOfMemory>
    ensures { OnOk result (monitored.new.items ≡ with_item item one.now monitored.old.items) }
{
    if is_good(one.status_code) {
        monitored.push(Monitored {
            item,
            id: one.monitored_item_id,
        })?;
    }
    Ok(())
}

/// The items that were made, of so many; results stand in the order of the request.
fn monitored_of(
    alloc: Global,
    items: u8,
    results: &[MonitoredItemCreateResult],
) -> Result<Vec<Monitored>, OutOfMemory>
    ensures { IfOk result (λ monitored. monitored.items ≡ monitored_of items results.now) }
{
    let mut monitored = Vec::new(alloc);
    let mut item: u16 = 1;
    for one in results {
        if u16::from(items) < item {
            return Ok(monitored);
        }
        add_item(item as u8, one, &mut monitored)?;
        item += 1;
    }
    Ok(monitored)
}

/// The subscription has these items: one is enough.
#[tactic(auto, unfolding(link_rules::specs::Subscribing::added))]
fn added(alloc: Global, turn: &mut Turn, monitored: Vec<Monitored>) -> Result<(), OutOfMemory>
    ensures { OnOk result (turn.new ≡ done (rules.added monitored.items turn.old.link) turn.old) }
{
    if monitored.is_empty() {
        turn.break_off(alloc)
    } else {
        turn.set_monitored(monitored);
        let rest = turn.link().config().rest;
        enters_ready(alloc, turn, Some(rest))
    }
}

/// CreateMonitoredItems was answered.
#[tactic(auto, unfolding(link_rules::specs::Subscribing::in_adding))]
fn items_created(
    alloc: Global,
    turn: &mut Turn,
    reply: &CreateMonitoredItemsResponse,
) -> Result<(), OutOfMemory>
    ensures { OnOk result (turn.new ≡ done
        (rules.in_adding (any_reply.Subscription (sub_reply.CreateMonitoredItems reply.now)) turn.old.link) turn.old) }
{
    if is_answer(reply.response_header, turn.link()) {
        let items = turn.link().config().items;
        let monitored = monitored_of(alloc, items, reply.results.as_slice())?;
        added(alloc, turn, monitored)
    } else {
        turn.break_off(alloc)
    }
}

/// What comes in answer to CreateMonitoredItems.
#[tactic(auto, unfolding(link_rules::specs::Subscribing::in_adding))]
fn adding_replied(alloc: Global, turn: &mut Turn, reply: &Reply) -> Result<(), OutOfMemory>
    ensures { OnOk result (turn.new ≡ done (rules.in_adding reply.now turn.old.link) turn.old) }
{
    match reply {
        Reply::Subscription(SubReply::CreateMonitoredItems(reply)) => {
            items_created(alloc, turn, reply)
        }
        _ => turn.break_off(alloc),
    }
}

/// A reply came in the phase Adding (OPC 10000-4, 5.12.2).
pub fn in_adding(alloc: Global, turn: &mut Turn, reply: Reply) -> Result<(), OutOfMemory>
    ensures { OnOk result (turn.new ≡ done (rules.in_adding reply turn.old.link) turn.old) }
{
    let answered = adding_replied(alloc, turn, &reply);
    drop(reply);
    answered
}
