//! Which monitored items may be made, and with what.

ghost use Rattle.std.specs.Prelude.{◌≡◌, ◌≤◌, option_copied, IfOk, IfSome};
ghost use Rattle.server_rules.specs.State.{sub_at};
ghost use Rattle.server_rules.specs.Items.{item_judged, item_number, judged, judged_by, value_fault, with_room};
ghost use Rattle.server_subs.specs.Access.{HasRoom};

use crate::checks::passes;
use crate::filters::filter_fault;
use crate::form::form_fault;
use crate::named::mode_named;
use redundancy_nodes::VALUE;
use server_rules::revised_queue;
use server_subs::ServerData;
use std::alloc::Global;
use subscription::{ItemSpec, MOST_ITEMS, Subscription};
use ua_base::status::{
    BAD_ATTRIBUTE_ID_INVALID, BAD_MONITORING_MODE_INVALID, BAD_NODE_ID_UNKNOWN,
    BAD_SUBSCRIPTION_ID_INVALID, BAD_TOO_MANY_MONITORED_ITEMS,
};
use ua_base::{OutOfMemory, Timestamps};
use ua_structures::ReadValueId;
use ua_sub_msgs::MonitoredItemCreateRequest;
use ua_values::NodeId;

/// The number of the item that a node is, among so many items.
fn item_number(items: u8, id: &NodeId) -> Option<u8>
    ensures { result ≡ item_number items id.now }
{
    match id {
        NodeId::Numeric { namespace, id } => {
            if *namespace == 2 && 1 <= *id && *id <= u32::from(items) {
                Some(*id as u8)
            } else {
                None
            }
        }
        _ => None,
    }
}

/// The status code that refuses another attribute than Value, or another form of the value than its own.
fn value_fault(asked: &ReadValueId) -> Option<u32>
    ensures { result ≡ value_fault asked.now }
{
    if asked.attribute_id == VALUE {
        form_fault(asked)
    } else {
        Some(BAD_ATTRIBUTE_ID_INVALID)
    }
}

/// What an item is to be made with, where its filter is judged so, or the code that refuses it.
fn judged_by(
    filter: Option<u32>,
    items: u8,
    stamps: Timestamps,
    asked: &MonitoredItemCreateRequest,
) -> Result<ItemSpec, u32>
    ensures judged { result ≡ judged_by filter items stamps asked.now }
    ensures least { IfOk result (λ spec. 1 ≤ spec.queue) }
    ensures most { IfOk result (λ spec. spec.queue ≤ 1000) }
{
    let node = item_number(items, &asked.item_to_monitor.node_id).ok_or(BAD_NODE_ID_UNKNOWN)?;
    passes(value_fault(&asked.item_to_monitor))?;
    let mode = mode_named(asked.monitoring_mode).ok_or(BAD_MONITORING_MODE_INVALID)?;
    passes(filter)?;
    Ok(ItemSpec {
        node,
        handle: asked.requested_parameters.client_handle,
        mode,
        queue: revised_queue(asked.requested_parameters.queue_size),
        oldest: asked.requested_parameters.discard_oldest,
        stamps,
    })
}

/// What an item is to be made with, among so many items of the server, or the code that refuses it.
#[tactic(auto, unfolding(server_rules::specs::Items::judged))]
fn judged(
    alloc: Global,
    items: u8,
    stamps: Timestamps,
    asked: &MonitoredItemCreateRequest,
) -> Result<Result<ItemSpec, u32>, OutOfMemory>
    ensures judged { IfOk result (λ found. found ≡ judged items stamps asked.now) }
    ensures least { IfOk result (λ found. IfOk found (λ spec. 1 ≤ spec.queue)) }
    ensures most { IfOk result (λ found. IfOk found (λ spec. spec.queue ≤ 1000)) }
{
    let filter = filter_fault(alloc, &asked.requested_parameters.filter)?;
    Ok(judged_by(filter, items, stamps, asked))
}

/// The id of an item that is to be made so, where its subscription has room for it.
fn with_room(sub: Option<&Subscription>, spec: ItemSpec) -> Result<(u32, ItemSpec), u32>
    ensures made { result ≡ with_room (option_copied sub.entry) spec }
    ensures spec { IfOk result (λ made. made.1 ≡ spec) }
    ensures room { IfOk result (λ made. IfSome (option_copied sub.entry) HasRoom) }
{
    match sub {
        Some(sub) => {
            let given = sub.given();
            if MOST_ITEMS <= sub.len() || given == u32::MAX {
                Err(BAD_TOO_MANY_MONITORED_ITEMS)
            } else {
                Ok((given + 1, spec))
            }
        }
        None => Err(BAD_SUBSCRIPTION_ID_INVALID),
    }
}

/// The id of an item that is asked for and what it is to be made with, or the code that refuses it.
pub(crate) fn item_judged(
    alloc: Global,
    server: &ServerData,
    sub: u32,
    stamps: Timestamps,
    asked: &MonitoredItemCreateRequest,
) -> Result<Result<(u32, ItemSpec), u32>, OutOfMemory>
    ensures judged { IfOk result (λ found. found ≡ item_judged sub stamps asked.now server.now) }
    ensures least { IfOk result (λ found. IfOk found (λ made. 1 ≤ made.1.queue)) }
    ensures most { IfOk result (λ found. IfOk found (λ made. made.1.queue ≤ 1000)) }
    ensures room { IfOk result (λ found. IfOk found (λ made. IfSome (sub_at sub server.now.subs) HasRoom)) }
{
    match judged(alloc, server.config().items, stamps, asked)? {
        Ok(spec) => Ok(with_room(server.sub(sub), spec)),
        Err(code) => Ok(Err(code)),
    }
}
