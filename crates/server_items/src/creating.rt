ghost use Rattle.std.specs.Prelude.{◌≡◌, ◌≤◌, ◌++◌, IfOk, IfSome, OnOk};
ghost use Rattle.server_rules.specs.State.{sub_at};
ghost use Rattle.server_rules.specs.Said.{orders_of};
ghost use Rattle.server_rules.specs.Operations.{after_each, answered, answers};
ghost use Rattle.server_rules.specs.Items.{create_all, create_checked, create_items, create_reply, item_result, made_result, with_item, with_made};
ghost use Rattle.server_subs.specs.Access.{HasRoom};

use crate::checks::{is_own, operations};
use crate::judging::item_judged;
use crate::named::timestamps_named;
use server_rules::Asker;
use server_subs::ServerData;
use std::alloc::Global;
use subscription::ItemSpec;
use ua_base::status::{BAD_TIMESTAMPS_TO_RETURN_INVALID, GOOD};
use ua_base::{OutOfMemory, Timestamps};
use ua_channel::Order;
use ua_services::Reply;
use ua_structures::{UaArray, UnusedDiagnostics, no_object};
use ua_sub_msgs::{
    CreateMonitoredItemsRequest, CreateMonitoredItemsResponse, MonitoredItemCreateRequest,
    MonitoredItemCreateResult, SubReply,
};

/// What became of an item.
fn made_result(made: Result<(u32, ItemSpec), u32>) -> MonitoredItemCreateResult
    ensures { result ≡ made_result made }
{
    match made {
        Ok((id, spec)) => MonitoredItemCreateResult {
            status_code: GOOD,
            monitored_item_id: id,
            revised_sampling_interval: 0,
            revised_queue_size: spec.queue,
            filter_result: no_object(),
        },
        Err(code) => MonitoredItemCreateResult {
            status_code: code,
            monitored_item_id: 0,
            revised_sampling_interval: 0,
            revised_queue_size: 0,
            filter_result: no_object(),
        },
    }
}

/// Makes an item that was judged so.
fn make(
    alloc: Global,
    server: &mut ServerData,
    sub: u32,
    made: Result<(u32, ItemSpec), u32>,
) -> Result<(), OutOfMemory>
    requires least { IfOk made (λ one. 1 ≤ one.1.queue) }
    requires most { IfOk made (λ one. one.1.queue ≤ 1000) }
    requires room { IfOk made (λ one. IfSome (sub_at sub server.old.subs) HasRoom) }
    ensures { OnOk result (server.new ≡ with_made sub made server.old) }
{
    match made {
        Ok((_, spec)) => {
            let current = server.current_of(spec.node);
            server.add_item(alloc, sub, spec, current)
        }
        Err(_) => Ok(()),
    }
}

/// Makes an item, or refuses it, and says what became of it.
#[tactic(auto, unfolding(server_rules::specs::Items::item_result, server_rules::specs::Items::with_item))]
fn create_one(
    alloc: Global,
    server: &mut ServerData,
    sub: u32,
    stamps: Timestamps,
    asked: &MonitoredItemCreateRequest,
) -> Result<MonitoredItemCreateResult, OutOfMemory>
    ensures told { IfOk result (λ told. told ≡ item_result sub stamps asked.now server.old) }
    ensures state { OnOk result (server.new ≡ with_item sub stamps asked.now server.old) }
{
    let made = item_judged(alloc, server, sub, stamps, asked)?;
    make(alloc, server, sub, made)?;
    Ok(made_result(made))
}

/// Makes items, one by one, and says what became of each.
fn create_each(
    alloc: Global,
    server: &mut ServerData,
    sub: u32,
    stamps: Timestamps,
    asked: &[MonitoredItemCreateRequest],
) -> Result<Vec<MonitoredItemCreateResult>, OutOfMemory>
    ensures told { IfOk result (λ told. told.items
        ≡ answers (item_result sub stamps) (with_item sub stamps) asked.now server.old) }
    ensures state { OnOk result (server.new ≡ after_each (with_item sub stamps) asked.now server.old) }
{
    let mut told = Vec::new(alloc);
    for one in asked {
        told.push(create_one(alloc, server, sub, stamps, one)?)?;
    }
    Ok(told)
}

/// The choice of times, or the status code that refuses the request.
fn create_checked(
    server: &ServerData,
    session: u32,
    request: &CreateMonitoredItemsRequest,
) -> Result<Timestamps, u32>
    ensures { result ≡ create_checked session request.now server.now }
{
    operations(request.items_to_create.len())?;
    is_own(server, session, request.subscription_id)?;
    timestamps_named(request.timestamps_to_return).ok_or(BAD_TIMESTAMPS_TO_RETURN_INVALID)
}

/// Answers with what became of the items.
fn answer(
    alloc: Global,
    server: &mut ServerData,
    asker: Asker,
    told: Vec<MonitoredItemCreateResult>,
    to: &mut Vec<(u32, Order)>,
) -> Result<(), OutOfMemory>
    ensures state { OnOk result (server.new ≡ (answered asker (create_reply told.items) server.old).state) }
    ensures orders { OnOk result
        (to.new.items ≡ to.old.items ++ orders_of (answered asker (create_reply told.items) server.old).said) }
{
    let reply = Reply::Subscription(SubReply::CreateMonitoredItems(CreateMonitoredItemsResponse {
        response_header: server.good_header(asker.handle),
        results: UaArray::new(told),
        diagnostic_infos: UnusedDiagnostics,
    }));
    server.reply(alloc, asker, &reply, to)
}

/// Makes these items, and answers.
fn create_all(
    alloc: Global,
    server: &mut ServerData,
    asker: Asker,
    sub: u32,
    asked: &[MonitoredItemCreateRequest],
    stamps: Timestamps,
    to: &mut Vec<(u32, Order)>,
) -> Result<(), OutOfMemory>
    ensures state { OnOk result (server.new ≡ (create_all asker sub asked.now stamps server.old).state) }
    ensures orders { OnOk result
        (to.new.items ≡ to.old.items ++ orders_of (create_all asker sub asked.now stamps server.old).said) }
{
    let told = create_each(alloc, server, sub, stamps, asked)?;
    answer(alloc, server, asker, told, to)
}

/// Makes monitored items of a subscription (OPC 10000-4, 5.12.2). The request as a whole is refused, in this order, by
/// `Bad_NothingToDo`, `Bad_TooManyOperations`, `Bad_SubscriptionIdInvalid` and `Bad_TimestampsToReturnInvalid`; an item by
/// the first that holds of `Bad_NodeIdUnknown` for another node than an item's, `Bad_AttributeIdInvalid`,
/// `Bad_IndexRangeInvalid`, `Bad_DataEncodingInvalid`, `Bad_MonitoringModeInvalid`,
/// `Bad_MonitoredItemFilterUnsupported`, and `Bad_TooManyMonitoredItems` where the subscription has 1024.
#[tactic(auto, unfolding(server_rules::specs::Items::create_items))]
pub fn create_items(
    alloc: Global,
    server: &mut ServerData,
    asker: Asker,
    session: u32,
    request: &CreateMonitoredItemsRequest,
    to: &mut Vec<(u32, Order)>,
) -> Result<(), OutOfMemory>
    ensures state { OnOk result (server.new ≡ (create_items asker session request.now server.old).state) }
    ensures orders { OnOk result
        (to.new.items ≡ to.old.items ++ orders_of (create_items asker session request.now server.old).said) }
{
    match create_checked(server, session, request) {
        Ok(stamps) => create_all(
            alloc,
            server,
            asker,
            request.subscription_id,
            request.items_to_create.as_slice(),
            stamps,
            to,
        ),
        Err(code) => server.fault(alloc, asker, code, to),
    }
}
