//! Calling methods.

use std::alloc::Global;
use ua_base::OutOfMemory;
use ua_structures::{
    RequestHeader, ResponseHeader, UaArray, UnusedDiagnostics, put_fields, read_fields,
};
use ua_values::{Cursor, Element, NodeId, ValueFault};
use ua_variants::Variant;

/// One method to call (OPC 10000-4, 5.11.2).
#[derive(Debug, Drop)]
pub struct CallMethodRequest {
    pub object_id: NodeId,
    pub method_id: NodeId,
    pub input_arguments: UaArray<Variant>,
}

#[tactic(auto, unfolding(crate::specs::Structures::a_call_method_request))]
impl Element for CallMethodRequest {
    ghost use Rattle.ua_session_msgs.specs.Structures.{a_call_method_request};

    ghost at = { a_call_method_request.at };

    ghost written = { a_call_method_request.written };

    fn read(alloc: Global, from: &mut Cursor<'_>) -> Result<CallMethodRequest, ValueFault> {
        read_fields!(alloc, from => object_id, method_id, input_arguments)
    }

    fn put(&self, to: &mut Vec<u8>) -> Result<(), OutOfMemory> {
        put_fields!(self, to => object_id, method_id, input_arguments)
    }
}

/// What one method gave (OPC 10000-4, 5.11.2).
#[derive(Debug, Drop)]
pub struct CallMethodResult {
    pub status_code: u32,
    /// A StatusCode for each argument.
    pub input_argument_results: UaArray<u32>,
    pub input_argument_diagnostic_infos: UnusedDiagnostics,
    pub output_arguments: UaArray<Variant>,
}

#[tactic(auto, unfolding(crate::specs::Structures::a_call_method_result))]
impl Element for CallMethodResult {
    ghost use Rattle.ua_session_msgs.specs.Structures.{a_call_method_result};

    ghost at = { a_call_method_result.at };

    ghost written = { a_call_method_result.written };

    fn read(alloc: Global, from: &mut Cursor<'_>) -> Result<CallMethodResult, ValueFault> {
        read_fields!(alloc, from => status_code, input_argument_results,
            input_argument_diagnostic_infos, output_arguments)
    }

    fn put(&self, to: &mut Vec<u8>) -> Result<(), OutOfMemory> {
        put_fields!(self, to => status_code, input_argument_results,
            input_argument_diagnostic_infos, output_arguments)
    }
}

/// Calls methods (OPC 10000-4, 5.11.2).
#[derive(Debug, Drop)]
pub struct CallRequest {
    pub request_header: RequestHeader,
    pub methods_to_call: UaArray<CallMethodRequest>,
}

#[tactic(auto, unfolding(crate::specs::Structures::a_call_request))]
impl Element for CallRequest {
    ghost use Rattle.ua_session_msgs.specs.Structures.{a_call_request};

    ghost at = { a_call_request.at };

    ghost written = { a_call_request.written };

    fn read(alloc: Global, from: &mut Cursor<'_>) -> Result<CallRequest, ValueFault> {
        read_fields!(alloc, from => request_header, methods_to_call)
    }

    fn put(&self, to: &mut Vec<u8>) -> Result<(), OutOfMemory> {
        put_fields!(self, to => request_header, methods_to_call)
    }
}

/// What they gave, in the order of the request (OPC 10000-4, 5.11.2).
#[derive(Debug, Drop)]
pub struct CallResponse {
    pub response_header: ResponseHeader,
    pub results: UaArray<CallMethodResult>,
    pub diagnostic_infos: UnusedDiagnostics,
}

#[tactic(auto, unfolding(crate::specs::Structures::a_call_response))]
impl Element for CallResponse {
    ghost use Rattle.ua_session_msgs.specs.Structures.{a_call_response};

    ghost at = { a_call_response.at };

    ghost written = { a_call_response.written };

    fn read(alloc: Global, from: &mut Cursor<'_>) -> Result<CallResponse, ValueFault> {
        read_fields!(alloc, from => response_header, results, diagnostic_infos)
    }

    fn put(&self, to: &mut Vec<u8>) -> Result<(), OutOfMemory> {
        put_fields!(self, to => response_header, results, diagnostic_infos)
    }
}
