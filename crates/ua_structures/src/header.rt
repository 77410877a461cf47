ghost use Rattle.std.specs.Prelude.{◌≡◌};
ghost use Rattle.ua_structures.specs.Structures.{request_header, response_header};

use crate::fields::{put_fields, read_fields};
use crate::unused::{UnusedOfRequest, UnusedOfResponse};
use std::alloc::Global;
use ua_base::OutOfMemory;
use ua_values::{Cursor, Element, NodeId, ValueFault};

/// What every request begins with (OPC 10000-4, 7.28).
#[derive(Debug, Drop)]
pub struct RequestHeader {
    /// The secret id of the session, or null where there is none yet.
    pub authentication_token: NodeId,
    /// The client's time, in 100 nanoseconds since 1601-01-01 UTC.
    pub timestamp: i64,
    /// The client's number for the request, which its reply has too.
    pub request_handle: u32,
    pub rest: UnusedOfRequest,
}

impl RequestHeader {
    /// The header of a request with this token, time (100 nanoseconds since 1601-01-01 UTC) and number. All else of it is 0, null or
    /// empty: it asks for no diagnostics and names no timeout. It takes no memory.
    pub fn new(authentication_token: NodeId, timestamp: i64, request_handle: u32) -> RequestHeader
        ensures { result ≡ request_header authentication_token timestamp request_handle }
    {
        RequestHeader {
            authentication_token,
            timestamp,
            request_handle,
            rest: UnusedOfRequest,
        }
    }
}

#[tactic(auto, unfolding(crate::specs::Structures::a_request_header))]
impl Element for RequestHeader {
    ghost use Rattle.ua_structures.specs.Structures.{a_request_header};

    ghost at = { a_request_header.at };

    ghost written = { a_request_header.written };

    fn read(alloc: Global, from: &mut Cursor<'_>) -> Result<RequestHeader, ValueFault> {
        read_fields!(alloc, from => authentication_token, timestamp, request_handle, rest)
    }

    fn put(&self, to: &mut Vec<u8>) -> Result<(), OutOfMemory> {
        put_fields!(self, to => authentication_token, timestamp, request_handle, rest)
    }
}

/// What every reply begins with (OPC 10000-4, 7.29).
#[derive(Clone, Copy, Debug, PartialEq, Eq)]
pub struct ResponseHeader {
    /// The server's time, in 100 nanoseconds since 1601-01-01 UTC.
    pub timestamp: i64,
    /// The number that the request had.
    pub request_handle: u32,
    /// The StatusCode of the whole service.
    pub service_result: u32,
    pub rest: UnusedOfResponse,
}

impl ResponseHeader {
    /// The header of a reply at this time (100 nanoseconds since 1601-01-01 UTC) to the request of this number, with the StatusCode of
    /// the whole service. All else of it is 0, null or empty.
    pub fn new(timestamp: i64, request_handle: u32, service_result: u32) -> ResponseHeader
        ensures { result ≡ response_header timestamp request_handle service_result }
    {
        ResponseHeader {
            timestamp,
            request_handle,
            service_result,
            rest: UnusedOfResponse,
        }
    }
}

#[tactic(auto, unfolding(crate::specs::Structures::a_response_header))]
impl Element for ResponseHeader {
    ghost use Rattle.ua_structures.specs.Structures.{a_response_header};

    ghost at = { a_response_header.at };

    ghost written = { a_response_header.written };

    fn read(alloc: Global, from: &mut Cursor<'_>) -> Result<ResponseHeader, ValueFault> {
        read_fields!(alloc, from => timestamp, request_handle, service_result, rest)
    }

    fn put(&self, to: &mut Vec<u8>) -> Result<(), OutOfMemory> {
        put_fields!(self, to => timestamp, request_handle, service_result, rest)
    }
}
