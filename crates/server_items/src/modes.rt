ghost use Rattle.std.specs.Prelude.{◌≡◌, ◌++◌, IfOk, OnOk};
ghost use Rattle.server_rules.specs.State.{sub_at};
ghost use Rattle.server_rules.specs.Said.{orders_of};
ghost use Rattle.server_rules.specs.Operations.{after_each, answered, answers};
ghost use Rattle.server_rules.specs.Items.{current_of, item_known, item_node, modes_checked, modes_reply, set_all, set_modes, with_mode_set};

use crate::checks::{is_own, operations};
use crate::named::mode_named;
use crate::replies::{coded_results, item_code};
use server_rules::Asker;
use server_subs::ServerData;
use set_model::Change;
use std::alloc::Global;
use ua_base::status::BAD_MONITORING_MODE_INVALID;
use ua_base::{Mode, OutOfMemory};
use ua_channel::Order;
use ua_services::Reply;
use ua_sub_msgs::{SetMonitoringModeRequest, SubReply};

/// The current value of the node of an item.
fn current_of_item(server: &ServerData, sub: u32, id: u32) -> Option<Change>
    ensures { result ≡ current_of (item_node id (sub_at sub server.now.subs)) server.now.current }
{
    match server.sub(sub) {
        Some(found) => match found.node(id) {
            Some(node) => server.current_of(node),
            None => None,
        },
        None => None,
    }
}

/// Gives an item a mode, and answers a code.
#[tactic(auto, unfolding(server_rules::specs::Items::item_known, server_rules::specs::Items::with_mode_set))]
fn set_one(server: &mut ServerData, sub: u32, mode: Mode, id: u32) -> Result<u32, OutOfMemory>
    ensures code { IfOk result (λ code. code ≡ item_known sub id server.old) }
    ensures state { OnOk result (server.new ≡ with_mode_set sub mode id server.old) }
{
    let current = current_of_item(server, sub, id);
    let there = server.set_item_mode(sub, id, mode, current)?;
    Ok(item_code(there))
}

/// Gives items a mode, one by one, and answers a code for each.
fn set_each(
    alloc: Global,
    server: &mut ServerData,
    sub: u32,
    mode: Mode,
    ids: &[u32],
) -> Result<Vec<u32>, OutOfMemory>
    ensures codes { IfOk result (λ codes. codes.items
        ≡ answers (item_known sub) (with_mode_set sub mode) ids.now server.old) }
    ensures state { OnOk result (server.new ≡ after_each (with_mode_set sub mode) ids.now server.old) }
{
    let mut codes = Vec::new(alloc);
    for id in ids {
        codes.push(set_one(server, sub, mode, *id)?)?;
    }
    Ok(codes)
}

/// The mode, or the status code that refuses the request.
fn modes_checked(
    server: &ServerData,
    session: u32,
    request: &SetMonitoringModeRequest,
) -> Result<Mode, u32>
    ensures { result ≡ modes_checked session request.now server.now }
{
    operations(request.monitored_item_ids.len())?;
    is_own(server, session, request.subscription_id)?;
    mode_named(request.monitoring_mode).ok_or(BAD_MONITORING_MODE_INVALID)
}

/// Answers with a code for each item.
fn answer_modes(
    alloc: Global,
    server: &mut ServerData,
    asker: Asker,
    codes: Vec<u32>,
    to: &mut Vec<(u32, Order)>,
) -> Result<(), OutOfMemory>
    ensures state { OnOk result (server.new ≡ (answered asker (modes_reply codes.items) server.old).state) }
    ensures orders { OnOk result
        (to.new.items ≡ to.old.items ++ orders_of (answered asker (modes_reply codes.items) server.old).said) }
{
    let header = server.good_header(asker.handle);
    let reply = Reply::Subscription(SubReply::SetMonitoringMode(coded_results(header, codes)));
    server.reply(alloc, asker, &reply, to)
}

/// Gives these items a mode, and answers.
fn set_all(
    alloc: Global,
    server: &mut ServerData,
    asker: Asker,
    sub: u32,
    ids: &[u32],
    mode: Mode,
    to: &mut Vec<(u32, Order)>,
) -> Result<(), OutOfMemory>
    ensures state { OnOk result (server.new ≡ (set_all asker sub ids.now mode server.old).state) }
    ensures orders { OnOk result
        (to.new.items ≡ to.old.items ++ orders_of (set_all asker sub ids.now mode server.old).said) }
{
    let codes = set_each(alloc, server, sub, mode, ids)?;
    answer_modes(alloc, server, asker, codes, to)
}

/// Sets the mode of monitored items (OPC 10000-4, 5.12.4). The request as a whole is refused, in this order, by
/// `Bad_NothingToDo`, `Bad_TooManyOperations`, `Bad_SubscriptionIdInvalid` and `Bad_MonitoringModeInvalid`; an item that
/// isn't there is answered by `Bad_MonitoredItemIdInvalid`.
#[tactic(auto, unfolding(server_rules::specs::Items::set_modes))]
pub fn set_modes(
    alloc: Global,
    server: &mut ServerData,
    asker: Asker,
    session: u32,
    request: &SetMonitoringModeRequest,
    to: &mut Vec<(u32, Order)>,
) -> Result<(), OutOfMemory>
    ensures state { OnOk result (server.new ≡ (set_modes asker session request.now server.old).state) }
    ensures orders { OnOk result
        (to.new.items ≡ to.old.items ++ orders_of (set_modes asker session request.now server.old).said) }
{
    match modes_checked(server, session, request) {
        Ok(mode) => set_all(
            alloc,
            server,
            asker,
            request.subscription_id,
            request.monitored_item_ids.as_slice(),
            mode,
            to,
        ),
        Err(code) => server.fault(alloc, asker, code, to),
    }
}
