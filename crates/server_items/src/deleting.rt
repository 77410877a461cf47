ghost use Rattle.std.specs.Prelude.{◌≡◌, ◌++◌, IfOk, OnOk};
ghost use Rattle.server_rules.specs.Said.{orders_of};
ghost use Rattle.server_rules.specs.Operations.{after_each, answered, answers};
ghost use Rattle.server_rules.specs.Items.{delete_all, delete_checked, delete_items, delete_reply, item_known, without_item_of};

use crate::checks::{is_own, operations};
use crate::replies::{coded_results, item_code};
use server_rules::Asker;
use server_subs::ServerData;
use std::alloc::Global;
use ua_base::OutOfMemory;
use ua_channel::Order;
use ua_services::Reply;
use ua_sub_msgs::{DeleteMonitoredItemsRequest, SubReply};

/// Ends an item, and answers a code.
#[tactic(auto, unfolding(server_rules::specs::Items::item_known, server_rules::specs::Items::without_item_of))]
fn delete_one(server: &mut ServerData, sub: u32, id: u32) -> u32
    ensures code { result ≡ item_known sub id server.old }
    ensures state { server.new ≡ without_item_of sub id server.old }
{
    item_code(server.remove_item(sub, id))
}

/// Ends items, one by one, and answers a code for each.
fn delete_each(
    alloc: Global,
    server: &mut ServerData,
    sub: u32,
    ids: &[u32],
) -> Result<Vec<u32>, OutOfMemory>
    ensures codes { IfOk result (λ codes. codes.items
        ≡ answers (item_known sub) (without_item_of sub) ids.now server.old) }
    ensures state { OnOk result (server.new ≡ after_each (without_item_of sub) ids.now server.old) }
{
    let mut codes = Vec::new(alloc);
    for id in ids {
        codes.push(delete_one(server, sub, *id))?;
    }
    Ok(codes)
}

/// Nothing refuses the request, or else this status code does.
fn delete_checked(
    server: &ServerData,
    session: u32,
    request: &DeleteMonitoredItemsRequest,
) -> Result<(), u32>
    ensures { result ≡ delete_checked session request.now server.now }
{
    operations(request.monitored_item_ids.len())?;
    is_own(server, session, request.subscription_id)
}

/// Answers with a code for each item.
fn answer_deleted(
    alloc: Global,
    server: &mut ServerData,
    asker: Asker,
    codes: Vec<u32>,
    to: &mut Vec<(u32, Order)>,
) -> Result<(), OutOfMemory>
    ensures state { OnOk result (server.new ≡ (answered asker (delete_reply codes.items) server.old).state) }
    ensures orders { OnOk result
        (to.new.items ≡ to.old.items ++ orders_of (answered asker (delete_reply codes.items) server.old).said) }
{
    let header = server.good_header(asker.handle);
    let reply = Reply::Subscription(SubReply::DeleteMonitoredItems(coded_results(header, codes)));
    server.reply(alloc, asker, &reply, to)
}

/// Ends these items, and answers.
fn delete_all(
    alloc: Global,
    server: &mut ServerData,
    asker: Asker,
    sub: u32,
    ids: &[u32],
    to: &mut Vec<(u32, Order)>,
) -> Result<(), OutOfMemory>
    ensures state { OnOk result (server.new ≡ (delete_all asker sub ids.now tt server.old).state) }
    ensures orders { OnOk result
        (to.new.items ≡ to.old.items ++ orders_of (delete_all asker sub ids.now tt server.old).said) }
{
    let codes = delete_each(alloc, server, sub, ids)?;
    answer_deleted(alloc, server, asker, codes, to)
}

/// Ends monitored items (OPC 10000-4, 5.12.6). The request as a whole is refused, in this order, by `Bad_NothingToDo`,
/// `Bad_TooManyOperations` and `Bad_SubscriptionIdInvalid`; an item that isn't there is answered by
/// `Bad_MonitoredItemIdInvalid`.
#[tactic(auto, unfolding(server_rules::specs::Items::delete_items))]
pub fn delete_items(
    alloc: Global,
    server: &mut ServerData,
    asker: Asker,
    session: u32,
    request: &DeleteMonitoredItemsRequest,
    to: &mut Vec<(u32, Order)>,
) -> Result<(), OutOfMemory>
    ensures state { OnOk result (server.new ≡ (delete_items asker session request.now server.old).state) }
    ensures orders { OnOk result
        (to.new.items ≡ to.old.items ++ orders_of (delete_items asker session request.now server.old).said) }
{
    match delete_checked(server, session, request) {
        Ok(()) => delete_all(
            alloc,
            server,
            asker,
            request.subscription_id,
            request.monitored_item_ids.as_slice(),
            to,
        ),
        Err(code) => server.fault(alloc, asker, code, to),
    }
}
