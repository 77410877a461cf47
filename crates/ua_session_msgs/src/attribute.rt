//! Reading attributes.

use std::alloc::Global;
use ua_base::OutOfMemory;
use ua_structures::{
    ReadValueId, RequestHeader, ResponseHeader, UaArray, UnusedDiagnostics, put_fields, read_fields,
};
use ua_values::{Cursor, Element, ValueFault};
use ua_variants::DataValue;

/// Asks for attributes of nodes (OPC 10000-4, 5.10.2).
#[derive(Debug, Drop)]
pub struct ReadRequest {
    pub request_header: RequestHeader,
    /// The bits of a Double, in milliseconds.
    pub max_age: u64,
    /// 0 source, 1 server, 2 both, 3 neither.
    pub timestamps_to_return: i32,
    pub nodes_to_read: UaArray<ReadValueId>,
}

#[tactic(auto, unfolding(crate::specs::Structures::a_read_request))]
impl Element for ReadRequest {
    ghost use Rattle.ua_session_msgs.specs.Structures.{a_read_request};

    ghost at = { a_read_request.at };

    ghost written = { a_read_request.written };

    fn read(alloc: Global, from: &mut Cursor<'_>) -> Result<ReadRequest, ValueFault> {
        read_fields!(alloc, from => request_header, max_age, timestamps_to_return, nodes_to_read)
    }

    fn put(&self, to: &mut Vec<u8>) -> Result<(), OutOfMemory> {
        put_fields!(self, to => request_header, max_age, timestamps_to_return, nodes_to_read)
    }
}

/// The values, in the order of the request (OPC 10000-4, 5.10.2).
#[derive(Debug, Drop)]
pub struct ReadResponse {
    pub response_header: ResponseHeader,
    pub results: UaArray<DataValue>,
    pub diagnostic_infos: UnusedDiagnostics,
}

#[tactic(auto, unfolding(crate::specs::Structures::a_read_response))]
impl Element for ReadResponse {
    ghost use Rattle.ua_session_msgs.specs.Structures.{a_read_response};

    ghost at = { a_read_response.at };

    ghost written = { a_read_response.written };

    fn read(alloc: Global, from: &mut Cursor<'_>) -> Result<ReadResponse, ValueFault> {
        read_fields!(alloc, from => response_header, results, diagnostic_infos)
    }

    fn put(&self, to: &mut Vec<u8>) -> Result<(), OutOfMemory> {
        put_fields!(self, to => response_header, results, diagnostic_infos)
    }
}
