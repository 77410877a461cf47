ghost use Rattle.std.specs.Prelude.{◌≡◌, ◌++◌, OnOk};
ghost use Rattle.server_rules.specs.Said.{orders_of};
ghost use Rattle.server_rules.specs.Operations.{answered};
ghost use Rattle.server_rules.specs.Reading.{read, read_all, read_checked, read_reply};

use crate::checks::operations;
use crate::named::timestamps_named;
use crate::nodes::nodes_of;
use crate::values::values_read;
use server_rules::Asker;
use server_subs::ServerData;
use std::alloc::Global;
use ua_base::status::BAD_TIMESTAMPS_TO_RETURN_INVALID;
use ua_base::{OutOfMemory, Timestamps};
use ua_channel::Order;
use ua_services::Reply;
use ua_session_msgs::{ReadRequest, ReadResponse, SessionReply};
use ua_structures::{ReadValueId, UaArray, UnusedDiagnostics};
use ua_variants::DataValue;

/// The choice of times, or the status code that refuses the request.
fn read_checked(request: &ReadRequest) -> Result<Timestamps, u32>
    ensures { result ≡ read_checked request.now }
{
    operations(request.nodes_to_read.len())?;
    timestamps_named(request.timestamps_to_return).ok_or(BAD_TIMESTAMPS_TO_RETURN_INVALID)
}

/// Answers with these values.
fn answer(
    alloc: Global,
    server: &mut ServerData,
    asker: Asker,
    values: Vec<DataValue>,
    to: &mut Vec<(u32, Order)>,
) -> Result<(), OutOfMemory>
    ensures state { OnOk result (server.new ≡ (answered asker (read_reply values.items) server.old).state) }
    ensures orders { OnOk result
        (to.new.items ≡ to.old.items ++ orders_of (answered asker (read_reply values.items) server.old).said) }
{
    let reply = Reply::Session(SessionReply::Read(ReadResponse {
        response_header: server.good_header(asker.handle),
        results: UaArray::new(values),
        diagnostic_infos: UnusedDiagnostics,
    }));
    server.reply(alloc, asker, &reply, to)
}

/// Reads these nodes, and answers.
fn read_all(
    alloc: Global,
    server: &mut ServerData,
    asker: Asker,
    asked: &[ReadValueId],
    stamps: Timestamps,
    to: &mut Vec<(u32, Order)>,
) -> Result<(), OutOfMemory>
    ensures state { OnOk result (server.new ≡ (read_all asker asked.now stamps server.old).state) }
    ensures orders { OnOk result
        (to.new.items ≡ to.old.items ++ orders_of (read_all asker asked.now stamps server.old).said) }
{
    let values = values_read(alloc, &nodes_of(alloc, server)?, stamps, asked)?;
    answer(alloc, server, asker, values, to)
}

/// Reads attributes of nodes, of which only Value is read (OPC 10000-4, 5.10.2). The request as a whole is refused,
/// in this order, by `Bad_NothingToDo`, `Bad_TooManyOperations` and `Bad_TimestampsToReturnInvalid`; a node is answered
/// by its value, or by the first that holds of `Bad_NodeIdUnknown`, `Bad_AttributeIdInvalid`, `Bad_IndexRangeInvalid` and
/// `Bad_DataEncodingInvalid`. A value of the standard's namespace has no source time, and where there is no value there is
/// no time.
#[tactic(auto, unfolding(server_rules::specs::Reading::read))]
pub fn read(
    alloc: Global,
    server: &mut ServerData,
    asker: Asker,
    request: &ReadRequest,
    to: &mut Vec<(u32, Order)>,
) -> Result<(), OutOfMemory>
    ensures state { OnOk result (server.new ≡ (read asker request.now server.old).state) }
    ensures orders { OnOk result (to.new.items ≡ to.old.items ++ orders_of (read asker request.now server.old).said) }
{
    match read_checked(request) {
        Ok(stamps) => read_all(
            alloc,
            server,
            asker,
            request.nodes_to_read.as_slice(),
            stamps,
            to,
        ),
        Err(code) => server.fault(alloc, asker, code, to),
    }
}
