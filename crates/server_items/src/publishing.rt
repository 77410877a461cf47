ghost use Rattle.std.specs.Prelude.{◌≡◌, ◌++◌, IfOk, OnOk};
ghost use Rattle.server_rules.specs.Said.{orders_of};
ghost use Rattle.server_rules.specs.Operations.{after_each, answered, answers};
ghost use Rattle.server_rules.specs.Subscriptions.{enable_all, publishing_reply, republish, republish_checked, republish_one, set_publishing, sub_known, with_publishing};

use crate::checks::{operations, own_sub};
use crate::replies::coded_results;
use server_rules::Asker;
use server_subs::ServerData;
use std::alloc::Global;
use ua_base::OutOfMemory;
use ua_base::status::{BAD_MESSAGE_NOT_AVAILABLE, BAD_SUBSCRIPTION_ID_INVALID, GOOD};
use ua_channel::Order;
use ua_services::Reply;
use ua_sub_msgs::{
    NotificationMessage, RepublishRequest, RepublishResponse, SetPublishingModeRequest, SubReply,
};

/// Lets a subscription publish or stops it, where it is the session's, and answers a code.
#[tactic(auto, unfolding(server_rules::specs::Subscriptions::sub_known, server_rules::specs::Subscriptions::with_publishing))]
fn enable_one(server: &mut ServerData, session: u32, enabled: bool, id: u32) -> u32
    ensures code { result ≡ sub_known session id server.old }
    ensures state { server.new ≡ with_publishing session enabled id server.old }
{
    if own_sub(server, session, id).is_some() {
        server.set_enabled(id, enabled);
        GOOD
    } else {
        BAD_SUBSCRIPTION_ID_INVALID
    }
}

/// Lets subscriptions publish or stops them, one by one, and answers a code for each.
fn enable_each(
    alloc: Global,
    server: &mut ServerData,
    session: u32,
    enabled: bool,
    ids: &[u32],
) -> Result<Vec<u32>, OutOfMemory>
    ensures codes { IfOk result (λ codes. codes.items
        ≡ answers (sub_known session) (with_publishing session enabled) ids.now server.old) }
    ensures state { OnOk result (server.new ≡ after_each (with_publishing session enabled) ids.now server.old) }
{
    let mut codes = Vec::new(alloc);
    for id in ids {
        codes.push(enable_one(server, session, enabled, *id))?;
    }
    Ok(codes)
}

/// Answers with a code for each subscription.
fn answer_enabled(
    alloc: Global,
    server: &mut ServerData,
    asker: Asker,
    codes: Vec<u32>,
    to: &mut Vec<(u32, Order)>,
) -> Result<(), OutOfMemory>
    ensures state { OnOk result (server.new ≡ (answered asker (publishing_reply codes.items) server.old).state) }
    ensures orders { OnOk result
        (to.new.items ≡ to.old.items ++ orders_of (answered asker (publishing_reply codes.items) server.old).said) }
{
    let header = server.good_header(asker.handle);
    let reply = Reply::Subscription(SubReply::SetPublishingMode(coded_results(header, codes)));
    server.reply(alloc, asker, &reply, to)
}

/// Lets these subscriptions publish or stops them, and answers.
fn enable_all(
    alloc: Global,
    server: &mut ServerData,
    asker: Asker,
    session: u32,
    enabled: bool,
    ids: &[u32],
    to: &mut Vec<(u32, Order)>,
) -> Result<(), OutOfMemory>
    ensures state { OnOk result (server.new ≡ (enable_all asker session enabled ids.now tt server.old).state) }
    ensures orders { OnOk result
        (to.new.items ≡ to.old.items ++ orders_of (enable_all asker session enabled ids.now tt server.old).said) }
{
    let codes = enable_each(alloc, server, session, enabled, ids)?;
    answer_enabled(alloc, server, asker, codes, to)
}

/// Lets subscriptions publish, or stops them (OPC 10000-4, 5.13.4). The request as a whole is refused, in this order, by
/// `Bad_NothingToDo` and `Bad_TooManyOperations`; a subscription that isn't the session's is answered by
/// `Bad_SubscriptionIdInvalid`.
#[tactic(auto, unfolding(server_rules::specs::Subscriptions::set_publishing))]
pub fn set_publishing(
    alloc: Global,
    server: &mut ServerData,
    asker: Asker,
    session: u32,
    request: &SetPublishingModeRequest,
    to: &mut Vec<(u32, Order)>,
) -> Result<(), OutOfMemory>
    ensures state { OnOk result (server.new ≡ (set_publishing asker session request.now server.old).state) }
    ensures orders { OnOk result
        (to.new.items ≡ to.old.items ++ orders_of (set_publishing asker session request.now server.old).said) }
{
    match operations(request.subscription_ids.len()) {
        Ok(()) => enable_all(
            alloc,
            server,
            asker,
            session,
            request.publishing_enabled,
            request.subscription_ids.as_slice(),
            to,
        ),
        Err(code) => server.fault(alloc, asker, code, to),
    }
}

/// A copy of the message that is asked for, or the status code that refuses the request.
fn republish_checked(
    alloc: Global,
    server: &ServerData,
    session: u32,
    request: &RepublishRequest,
) -> Result<Result<NotificationMessage, u32>, OutOfMemory>
    ensures { IfOk result (λ found. found ≡ republish_checked session request.now server.now) }
{
    match own_sub(server, session, request.subscription_id) {
        Some(sub) => match sub.get(request.retransmit_sequence_number) {
            Some(message) => Ok(Ok(message.copy(alloc)?)),
            None => Ok(Err(BAD_MESSAGE_NOT_AVAILABLE)),
        },
        None => Ok(Err(BAD_SUBSCRIPTION_ID_INVALID)),
    }
}

/// Answers with a message that is kept.
fn republish_one(
    alloc: Global,
    server: &mut ServerData,
    asker: Asker,
    message: NotificationMessage,
    to: &mut Vec<(u32, Order)>,
) -> Result<(), OutOfMemory>
    ensures state { OnOk result (server.new ≡ (republish_one asker message server.old).state) }
    ensures orders { OnOk result
        (to.new.items ≡ to.old.items ++ orders_of (republish_one asker message server.old).said) }
{
    let reply = Reply::Subscription(SubReply::Republish(RepublishResponse {
        response_header: server.good_header(asker.handle),
        notification_message: message,
    }));
    server.reply(alloc, asker, &reply, to)
}

/// Sends a message again that is kept (OPC 10000-4, 5.13.6). The request is refused by `Bad_SubscriptionIdInvalid` where
/// the subscription isn't the session's, and else by `Bad_MessageNotAvailable` where no message of this number is kept.
#[tactic(auto, unfolding(server_rules::specs::Subscriptions::republish))]
pub fn republish(
    alloc: Global,
    server: &mut ServerData,
    asker: Asker,
    session: u32,
    request: &RepublishRequest,
    to: &mut Vec<(u32, Order)>,
) -> Result<(), OutOfMemory>
    ensures state { OnOk result (server.new ≡ (republish asker session request.now server.old).state) }
    ensures orders { OnOk result
        (to.new.items ≡ to.old.items ++ orders_of (republish asker session request.now server.old).said) }
{
    match republish_checked(alloc, server, session, request)? {
        Ok(message) => republish_one(alloc, server, asker, message, to),
        Err(code) => server.fault(alloc, asker, code, to),
    }
}
