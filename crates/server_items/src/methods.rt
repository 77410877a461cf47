ghost use Rattle.std.specs.Prelude.{◌≡◌, ◌++◌, map, option_copied, OnOk, IfOk};
ghost use Rattle.ua_variants.specs.declared.variant.Variant.{out-Variant};
ghost use Rattle.server_rules.specs.Said.{orders_of};
ghost use Rattle.server_rules.specs.Operations.{answered};
ghost use Rattle.server_rules.specs.Reading.{argument_of, call, call_all, call_reply, called, is_server_id, items_told, method_result, subscription_asked, told_of_sub, uint32_in, uint32s};

use crate::checks::{operations, own_sub};
use server_rules::Asker;
use server_subs::ServerData;
use sqlite_items::Items;
use std::alloc::Global;
use subscription::Subscription;
use ua_base::OutOfMemory;
use ua_base::status::{
    BAD_ARGUMENTS_MISSING, BAD_INVALID_ARGUMENT, BAD_METHOD_INVALID, BAD_NODE_ID_UNKNOWN,
    BAD_SUBSCRIPTION_ID_INVALID, GOOD,
};
use ua_channel::Order;
use ua_services::Reply;
use ua_session_msgs::{
    CallMethodRequest, CallMethodResult, CallRequest, CallResponse, SessionReply,
};
use ua_structures::{UaArray, UnusedDiagnostics};
use ua_values::NodeId;
use ua_variants::{Array, Scalar, Variant};

/// The object Server (OPC 10000-5, 8.3.2).
const SERVER: u32 = 2253;

/// Its method GetMonitoredItems (OPC 10000-5, 9.1).
const GET_MONITORED_ITEMS: u32 = 11492;

/// Whether it is the id of this number in the standard's namespace.
fn is_server_id(number: u32, id: &NodeId) -> bool
    ensures { result ≡ is_server_id number id.now }
{
    match id {
        NodeId::Numeric { namespace, id } => *namespace == 0 && *id == number,
        _ => false,
    }
}

/// The number that a value is, if it is a UInt32.
fn uint32_of(value: &Variant) -> Option<u32>
    ensures { result ≡ uint32_in (out-Variant value.now) }
{
    match value {
        Variant::Scalar(Scalar::UInt32(number)) => Some(*number),
        _ => None,
    }
}

/// The one argument, or the code that answers.
fn argument_of(arguments: &[Variant]) -> Result<u32, u32>
    ensures { result ≡ argument_of arguments.now }
{
    match arguments {
        [] => Err(BAD_ARGUMENTS_MISSING),
        [one] => uint32_of(one).ok_or(BAD_INVALID_ARGUMENT),
        _ => Err(BAD_INVALID_ARGUMENT),
    }
}

/// The id of the subscription whose items are asked for, or the code that answers.
fn subscription_asked(call: &CallMethodRequest) -> Result<u32, u32>
    ensures { result ≡ subscription_asked call.now }
{
    if !is_server_id(SERVER, &call.object_id) {
        return Err(BAD_NODE_ID_UNKNOWN);
    }
    if !is_server_id(GET_MONITORED_ITEMS, &call.method_id) {
        return Err(BAD_METHOD_INVALID);
    }
    argument_of(call.input_arguments.as_slice())
}

/// What a method gave.
fn method_result(alloc: Global, code: u32, outputs: Vec<Variant>) -> CallMethodResult
    ensures { result ≡ method_result code outputs.items }
{
    CallMethodResult {
        status_code: code,
        input_argument_results: UaArray::empty(alloc),
        input_argument_diagnostic_infos: UnusedDiagnostics,
        output_arguments: UaArray::new(outputs),
    }
}

/// An array of numbers.
fn uint32s(numbers: Vec<u32>) -> Variant
    ensures { result ≡ uint32s numbers.items }
{
    Variant::Array(Array::UInt32(Items::from_vec(numbers)), None)
}

/// The ids and the handles of a subscription's items.
fn items_told(alloc: Global, sub: &Subscription) -> Result<Vec<Variant>, OutOfMemory>
    ensures { IfOk result (λ told. told.items ≡ items_told sub.now.items) }
{
    let mut ids = Vec::new(alloc);
    let mut handles = Vec::new(alloc);
    sub.items(&mut ids, &mut handles)?;
    let mut told = Vec::new(alloc);
    told.reserve(2)?;
    told.push_reserved(uint32s(ids));
    told.push_reserved(uint32s(handles));
    Ok(told)
}

/// What the method gives for a subscription, if it is there.
fn told_of_sub(alloc: Global, sub: Option<&Subscription>) -> Result<CallMethodResult, OutOfMemory>
    ensures { IfOk result (λ told. told ≡ told_of_sub (option_copied sub.entry)) }
{
    match sub {
        Some(sub) => Ok(method_result(alloc, GOOD, items_told(alloc, sub)?)),
        None => Ok(method_result(alloc, BAD_SUBSCRIPTION_ID_INVALID, Vec::new(alloc))),
    }
}

/// What one call gives.
#[tactic(auto, unfolding(server_rules::specs::Reading::called))]
fn called(
    alloc: Global,
    server: &ServerData,
    session: u32,
    one: &CallMethodRequest,
) -> Result<CallMethodResult, OutOfMemory>
    ensures { IfOk result (λ given. given ≡ called session server.now one.now) }
{
    match subscription_asked(one) {
        Ok(id) => told_of_sub(alloc, own_sub(server, session, id)),
        Err(code) => Ok(method_result(alloc, code, Vec::new(alloc))),
    }
}

/// What calls give, one by one.
fn called_each(
    alloc: Global,
    server: &ServerData,
    session: u32,
    calls: &[CallMethodRequest],
) -> Result<Vec<CallMethodResult>, OutOfMemory>
    ensures { IfOk result (λ given. given.items ≡ map (called session server.now) calls.now) }
{
    let mut given = Vec::new(alloc);
    for one in calls {
        given.push(called(alloc, server, session, one)?)?;
    }
    Ok(given)
}

/// Answers with what the calls gave.
fn answer(
    alloc: Global,
    server: &mut ServerData,
    asker: Asker,
    given: Vec<CallMethodResult>,
    to: &mut Vec<(u32, Order)>,
) -> Result<(), OutOfMemory>
    ensures state { OnOk result (server.new ≡ (answered asker (call_reply given.items) server.old).state) }
    ensures orders { OnOk result
        (to.new.items ≡ to.old.items ++ orders_of (answered asker (call_reply given.items) server.old).said) }
{
    let reply = Reply::Session(SessionReply::Call(CallResponse {
        response_header: server.good_header(asker.handle),
        results: UaArray::new(given),
        diagnostic_infos: UnusedDiagnostics,
    }));
    server.reply(alloc, asker, &reply, to)
}

/// Makes these calls, and answers.
fn call_all(
    alloc: Global,
    server: &mut ServerData,
    asker: Asker,
    session: u32,
    calls: &[CallMethodRequest],
    to: &mut Vec<(u32, Order)>,
) -> Result<(), OutOfMemory>
    ensures state { OnOk result (server.new ≡ (call_all asker session calls.now tt server.old).state) }
    ensures orders { OnOk result
        (to.new.items ≡ to.old.items ++ orders_of (call_all asker session calls.now tt server.old).said) }
{
    let given = called_each(alloc, server, session, calls)?;
    answer(alloc, server, asker, given, to)
}

/// Calls methods, of which there is one: GetMonitoredItems of the object Server, which gives the ids of a
/// subscription's items and the client's handles, by rising ids (OPC 10000-4, 5.11.2; OPC 10000-5, 9.1). A call is
/// answered by the first that holds of `Bad_NodeIdUnknown` for another object, `Bad_MethodInvalid`,
/// `Bad_ArgumentsMissing`, `Bad_InvalidArgument` and `Bad_SubscriptionIdInvalid` for one that isn't the session's.
#[tactic(auto, unfolding(server_rules::specs::Reading::call))]
pub fn call(
    alloc: Global,
    server: &mut ServerData,
    asker: Asker,
    session: u32,
    request: &CallRequest,
    to: &mut Vec<(u32, Order)>,
) -> Result<(), OutOfMemory>
    ensures state { OnOk result (server.new ≡ (call asker session request.now server.old).state) }
    ensures orders { OnOk result
        (to.new.items ≡ to.old.items ++ orders_of (call asker session request.now server.old).said) }
{
    match operations(request.methods_to_call.len()) {
        Ok(()) => call_all(
            alloc,
            server,
            asker,
            session,
            request.methods_to_call.as_slice(),
            to,
        ),
        Err(code) => server.fault(alloc, asker, code, to),
    }
}
