//! The reply that several services have.

use std::alloc::Global;
use ua_base::OutOfMemory;
use ua_structures::{ResponseHeader, UaArray, UnusedDiagnostics, put_fields, read_fields};
use ua_values::{Cursor, Element, ValueFault};

/// What became of each item or subscription of a request: the reply to SetMonitoringMode, DeleteMonitoredItems, SetPublishingMode and
/// DeleteSubscriptions (OPC 10000-4, 5.12.4, 5.12.6, 5.13.4 and 5.13.8).
#[derive(Debug, Drop)]
pub struct ResultsResponse {
    pub response_header: ResponseHeader,
    /// A StatusCode for each, in the order of the request.
    pub results: UaArray<u32>,
    pub diagnostic_infos: UnusedDiagnostics,
}

#[tactic(auto, unfolding(crate::specs::Structures::a_results_response))]
impl Element for ResultsResponse {
    ghost use Rattle.ua_sub_msgs.specs.Structures.{a_results_response};

    ghost at = { a_results_response.at };

    ghost written = { a_results_response.written };

    fn read(alloc: Global, from: &mut Cursor<'_>) -> Result<ResultsResponse, ValueFault> {
        read_fields!(alloc, from => response_header, results, diagnostic_infos)
    }

    fn put(&self, to: &mut Vec<u8>) -> Result<(), OutOfMemory> {
        put_fields!(self, to => response_header, results, diagnostic_infos)
    }
}
