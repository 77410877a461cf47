ghost use Rattle.std.specs.Prelude.{◌≡◌, ◌++◌, option_copied, IfOk, OnOk};
ghost use Rattle.server_rules.specs.Said.{each, orders_of};
ghost use Rattle.server_rules.specs.Operations.{answered, answers, leaves};
ghost use Rattle.server_rules.specs.Subscriptions.{delete_all, delete_one, delete_subs, deleted_reply, sub_known, transfer_all, transfer_one, transfer_reply, transfer_result, transfer_subs, transfer_told};

use crate::checks::{operations, own_sub};
use crate::replies::coded_results;
use server_rules::Asker;
use server_subs::ServerData;
use std::alloc::Global;
use subscription::Subscription;
use ua_base::OutOfMemory;
use ua_base::status::{BAD_SUBSCRIPTION_ID_INVALID, GOOD};
use ua_channel::Order;
use ua_services::Reply;
use ua_structures::{UaArray, UnusedDiagnostics};
use ua_sub_msgs::{
    DeleteSubscriptionsRequest, SubReply, TransferResult, TransferSubscriptionsRequest,
    TransferSubscriptionsResponse,
};

/// What is told of a subscription that goes to a session, where there is one.
fn transfer_told(alloc: Global, sub: Option<&Subscription>) -> Result<TransferResult, OutOfMemory>
    ensures { IfOk result (λ told. told ≡ transfer_told (option_copied sub.entry)) }
{
    match sub {
        Some(sub) => {
            let mut numbers = Vec::new(alloc);
            sub.numbers(&mut numbers)?;
            Ok(TransferResult {
                status_code: GOOD,
                available_sequence_numbers: UaArray::new(numbers),
            })
        }
        None => Ok(TransferResult {
            status_code: BAD_SUBSCRIPTION_ID_INVALID,
            available_sequence_numbers: UaArray::empty(alloc),
        }),
    }
}

/// Gives a subscription to the session, and says what became of it.
#[tactic(auto, unfolding(server_rules::specs::Subscriptions::transfer_result, server_rules::specs::Subscriptions::transfer_one))]
fn transfer_one(
    alloc: Global,
    server: &mut ServerData,
    session: u32,
    id: u32,
    to: &mut Vec<(u32, Order)>,
) -> Result<TransferResult, OutOfMemory>
    ensures told { IfOk result (λ told. told ≡ transfer_result session id server.old) }
    ensures state { OnOk result (server.new ≡ (transfer_one session id server.old).state) }
    ensures orders { OnOk result
        (to.new.items ≡ to.old.items ++ orders_of (transfer_one session id server.old).said) }
{
    let told = transfer_told(alloc, server.sub(id))?;
    if server.transfer(alloc, id, session, to)? {
        Ok(told)
    } else {
        transfer_told(alloc, None)
    }
}

/// Gives subscriptions to the session, one by one, and says what became of each.
fn transfer_each(
    alloc: Global,
    server: &mut ServerData,
    session: u32,
    ids: &[u32],
    to: &mut Vec<(u32, Order)>,
) -> Result<Vec<TransferResult>, OutOfMemory>
    ensures told { IfOk result (λ told. told.items
        ≡ answers (transfer_result session) (leaves (transfer_one session)) ids.now server.old) }
    ensures state { OnOk result
        (server.new ≡ (each (transfer_one session) ids.now server.old).state) }
    ensures orders { OnOk result (to.new.items
        ≡ to.old.items ++ orders_of (each (transfer_one session) ids.now server.old).said) }
{
    let mut told = Vec::new(alloc);
    for id in ids {
        told.push(transfer_one(alloc, server, session, *id, to)?)?;
    }
    Ok(told)
}

/// Answers with what became of the subscriptions.
fn answer_transferred(
    alloc: Global,
    server: &mut ServerData,
    asker: Asker,
    told: Vec<TransferResult>,
    to: &mut Vec<(u32, Order)>,
) -> Result<(), OutOfMemory>
    ensures state { OnOk result (server.new ≡ (answered asker (transfer_reply told.items) server.old).state) }
    ensures orders { OnOk result
        (to.new.items ≡ to.old.items ++ orders_of (answered asker (transfer_reply told.items) server.old).said) }
{
    let reply = Reply::Subscription(SubReply::TransferSubscriptions(
        TransferSubscriptionsResponse {
            response_header: server.good_header(asker.handle),
            results: UaArray::new(told),
            diagnostic_infos: UnusedDiagnostics,
        },
    ));
    server.reply(alloc, asker, &reply, to)
}

/// Gives these subscriptions to the session, and answers.
fn transfer_all(
    alloc: Global,
    server: &mut ServerData,
    asker: Asker,
    session: u32,
    ids: &[u32],
    to: &mut Vec<(u32, Order)>,
) -> Result<(), OutOfMemory>
    ensures state { OnOk result (server.new ≡ (transfer_all asker session ids.now tt server.old).state) }
    ensures orders { OnOk result
        (to.new.items ≡ to.old.items ++ orders_of (transfer_all asker session ids.now tt server.old).said) }
{
    let told = transfer_each(alloc, server, session, ids, to)?;
    answer_transferred(alloc, server, asker, told, to)
}

/// Gives subscriptions to the session (OPC 10000-4, 5.13.7), with their items and the messages that they keep, whose
/// numbers it answers. What former owners are told stands before the reply. That initial values be sent has no effect.
/// The request as a whole is refused, in this order, by `Bad_NothingToDo` and `Bad_TooManyOperations`; a subscription
/// that isn't there, or that another client's session owned last, is answered by `Bad_SubscriptionIdInvalid`.
#[tactic(auto, unfolding(server_rules::specs::Subscriptions::transfer_subs))]
pub fn transfer_subs(
    alloc: Global,
    server: &mut ServerData,
    asker: Asker,
    session: u32,
    request: &TransferSubscriptionsRequest,
    to: &mut Vec<(u32, Order)>,
) -> Result<(), OutOfMemory>
    ensures state { OnOk result (server.new ≡ (transfer_subs asker session request.now server.old).state) }
    ensures orders { OnOk result
        (to.new.items ≡ to.old.items ++ orders_of (transfer_subs asker session request.now server.old).said) }
{
    match operations(request.subscription_ids.len()) {
        Ok(()) => transfer_all(
            alloc,
            server,
            asker,
            session,
            request.subscription_ids.as_slice(),
            to,
        ),
        Err(code) => server.fault(alloc, asker, code, to),
    }
}

/// Deletes a subscription, where it is the session's, and answers a code.
#[tactic(auto, unfolding(server_rules::specs::Subscriptions::sub_known, server_rules::specs::Subscriptions::delete_one))]
fn delete_one(
    alloc: Global,
    server: &mut ServerData,
    session: u32,
    id: u32,
    to: &mut Vec<(u32, Order)>,
) -> Result<u32, OutOfMemory>
    ensures code { IfOk result (λ code. code ≡ sub_known session id server.old) }
    ensures state { OnOk result (server.new ≡ (delete_one session id server.old).state) }
    ensures orders { OnOk result
        (to.new.items ≡ to.old.items ++ orders_of (delete_one session id server.old).said) }
{
    if own_sub(server, session, id).is_some() {
        server.delete(alloc, id, to)?;
        Ok(GOOD)
    } else {
        Ok(BAD_SUBSCRIPTION_ID_INVALID)
    }
}

/// Deletes subscriptions, one by one, and answers a code for each.
fn delete_each(
    alloc: Global,
    server: &mut ServerData,
    session: u32,
    ids: &[u32],
    to: &mut Vec<(u32, Order)>,
) -> Result<Vec<u32>, OutOfMemory>
    ensures codes { IfOk result (λ codes. codes.items
        ≡ answers (sub_known session) (leaves (delete_one session)) ids.now server.old) }
    ensures state { OnOk result (server.new ≡ (each (delete_one session) ids.now server.old).state) }
    ensures orders { OnOk result
        (to.new.items ≡ to.old.items ++ orders_of (each (delete_one session) ids.now server.old).said) }
{
    let mut codes = Vec::new(alloc);
    for id in ids {
        codes.push(delete_one(alloc, server, session, *id, to)?)?;
    }
    Ok(codes)
}

/// Answers with a code for each subscription.
fn answer_deleted(
    alloc: Global,
    server: &mut ServerData,
    asker: Asker,
    codes: Vec<u32>,
    to: &mut Vec<(u32, Order)>,
) -> Result<(), OutOfMemory>
    ensures state { OnOk result (server.new ≡ (answered asker (deleted_reply codes.items) server.old).state) }
    ensures orders { OnOk result
        (to.new.items ≡ to.old.items ++ orders_of (answered asker (deleted_reply codes.items) server.old).said) }
{
    let header = server.good_header(asker.handle);
    let reply = Reply::Subscription(SubReply::DeleteSubscriptions(coded_results(header, codes)));
    server.reply(alloc, asker, &reply, to)
}

/// Deletes these subscriptions, and answers.
fn delete_all(
    alloc: Global,
    server: &mut ServerData,
    asker: Asker,
    session: u32,
    ids: &[u32],
    to: &mut Vec<(u32, Order)>,
) -> Result<(), OutOfMemory>
    ensures state { OnOk result (server.new ≡ (delete_all asker session ids.now tt server.old).state) }
    ensures orders { OnOk result
        (to.new.items ≡ to.old.items ++ orders_of (delete_all asker session ids.now tt server.old).said) }
{
    let codes = delete_each(alloc, server, session, ids, to)?;
    answer_deleted(alloc, server, asker, codes, to)
}

/// Deletes subscriptions (OPC 10000-4, 5.13.8). Where none is left of the session, and no notice, its queued Publishes
/// are answered before the reply. The request as a whole is refused, in this order, by `Bad_NothingToDo` and
/// `Bad_TooManyOperations`; a subscription that isn't the session's is answered by `Bad_SubscriptionIdInvalid`.
#[tactic(auto, unfolding(server_rules::specs::Subscriptions::delete_subs))]
pub fn delete_subs(
    alloc: Global,
    server: &mut ServerData,
    asker: Asker,
    session: u32,
    request: &DeleteSubscriptionsRequest,
    to: &mut Vec<(u32, Order)>,
) -> Result<(), OutOfMemory>
    ensures state { OnOk result (server.new ≡ (delete_subs asker session request.now server.old).state) }
    ensures orders { OnOk result
        (to.new.items ≡ to.old.items ++ orders_of (delete_subs asker session request.now server.old).said) }
{
    match operations(request.subscription_ids.len()) {
        Ok(()) => delete_all(
            alloc,
            server,
            asker,
            session,
            request.subscription_ids.as_slice(),
            to,
        ),
        Err(code) => server.fault(alloc, asker, code, to),
    }
}
