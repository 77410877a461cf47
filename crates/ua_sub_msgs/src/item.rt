//! Monitored items.

use std::alloc::Global;
use ua_base::OutOfMemory;
use ua_structures::{
    ReadValueId, RequestHeader, ResponseHeader, UaArray, UnusedDiagnostics, put_fields, read_fields,
};
use ua_values::{Cursor, Element, ExtensionObject, ValueFault};

/// How an item is monitored (OPC 10000-4, 7.16).
#[derive(Debug, Drop)]
pub struct MonitoringParameters {
    /// The client's number for the item, which each of its notifications carries.
    pub client_handle: u32,
    /// The bits of a Double, in milliseconds.
    pub sampling_interval: u64,
    pub filter: ExtensionObject,
    /// How many values may wait.
    pub queue_size: u32,
    /// Whether the oldest value makes room where the queue is full; else the newest does.
    pub discard_oldest: bool,
}

#[tactic(auto, unfolding(crate::specs::Structures::a_monitoring_parameters))]
impl Element for MonitoringParameters {
    ghost use Rattle.ua_sub_msgs.specs.Structures.{a_monitoring_parameters};

    ghost at = { a_monitoring_parameters.at };

    ghost written = { a_monitoring_parameters.written };

    fn read(alloc: Global, from: &mut Cursor<'_>) -> Result<MonitoringParameters, ValueFault> {
        read_fields!(alloc, from => client_handle, sampling_interval, filter, queue_size,
            discard_oldest)
    }

    fn put(&self, to: &mut Vec<u8>) -> Result<(), OutOfMemory> {
        put_fields!(self, to => client_handle, sampling_interval, filter, queue_size,
            discard_oldest)
    }
}

/// One item to monitor (OPC 10000-4, 5.12.2).
#[derive(Debug, Drop)]
pub struct MonitoredItemCreateRequest {
    pub item_to_monitor: ReadValueId,
    /// 0 disabled, 1 sampling, 2 reporting.
    pub monitoring_mode: i32,
    pub requested_parameters: MonitoringParameters,
}

#[tactic(auto, unfolding(crate::specs::Structures::a_monitored_item_create_request))]
impl Element for MonitoredItemCreateRequest {
    ghost use Rattle.ua_sub_msgs.specs.Structures.{a_monitored_item_create_request};

    ghost at = { a_monitored_item_create_request.at };

    ghost written = { a_monitored_item_create_request.written };

    fn read(
        alloc: Global,
        from: &mut Cursor<'_>,
    ) -> Result<MonitoredItemCreateRequest, ValueFault> {
        read_fields!(alloc, from => item_to_monitor, monitoring_mode, requested_parameters)
    }

    fn put(&self, to: &mut Vec<u8>) -> Result<(), OutOfMemory> {
        put_fields!(self, to => item_to_monitor, monitoring_mode, requested_parameters)
    }
}

/// What became of it (OPC 10000-4, 5.12.2).
#[derive(Debug, Drop)]
pub struct MonitoredItemCreateResult {
    pub status_code: u32,
    pub monitored_item_id: u32,
    /// The bits of a Double, in milliseconds.
    pub revised_sampling_interval: u64,
    pub revised_queue_size: u32,
    pub filter_result: ExtensionObject,
}

#[tactic(auto, unfolding(crate::specs::Structures::a_monitored_item_create_result))]
impl Element for MonitoredItemCreateResult {
    ghost use Rattle.ua_sub_msgs.specs.Structures.{a_monitored_item_create_result};

    ghost at = { a_monitored_item_create_result.at };

    ghost written = { a_monitored_item_create_result.written };

    fn read(alloc: Global, from: &mut Cursor<'_>) -> Result<MonitoredItemCreateResult, ValueFault> {
        read_fields!(alloc, from => status_code, monitored_item_id, revised_sampling_interval,
            revised_queue_size, filter_result)
    }

    fn put(&self, to: &mut Vec<u8>) -> Result<(), OutOfMemory> {
        put_fields!(self, to => status_code, monitored_item_id, revised_sampling_interval,
            revised_queue_size, filter_result)
    }
}

/// Asks for items of a subscription (OPC 10000-4, 5.12.2).
#[derive(Debug, Drop)]
pub struct CreateMonitoredItemsRequest {
    pub request_header: RequestHeader,
    pub subscription_id: u32,
    /// 0 source, 1 server, 2 both, 3 neither.
    pub timestamps_to_return: i32,
    pub items_to_create: UaArray<MonitoredItemCreateRequest>,
}

#[tactic(auto, unfolding(crate::specs::Structures::a_create_monitored_items_request))]
impl Element for CreateMonitoredItemsRequest {
    ghost use Rattle.ua_sub_msgs.specs.Structures.{a_create_monitored_items_request};

    ghost at = { a_create_monitored_items_request.at };

    ghost written = { a_create_monitored_items_request.written };

    fn read(
        alloc: Global,
        from: &mut Cursor<'_>,
    ) -> Result<CreateMonitoredItemsRequest, ValueFault> {
        read_fields!(alloc, from => request_header, subscription_id, timestamps_to_return,
            items_to_create)
    }

    fn put(&self, to: &mut Vec<u8>) -> Result<(), OutOfMemory> {
        put_fields!(self, to => request_header, subscription_id, timestamps_to_return,
            items_to_create)
    }
}

/// What became of them, in the order of the request (OPC 10000-4, 5.12.2).
#[derive(Debug, Drop)]
pub struct CreateMonitoredItemsResponse {
    pub response_header: ResponseHeader,
    pub results: UaArray<MonitoredItemCreateResult>,
    pub diagnostic_infos: UnusedDiagnostics,
}

#[tactic(auto, unfolding(crate::specs::Structures::a_create_monitored_items_response))]
impl Element for CreateMonitoredItemsResponse {
    ghost use Rattle.ua_sub_msgs.specs.Structures.{a_create_monitored_items_response};

    ghost at = { a_create_monitored_items_response.at };

    ghost written = { a_create_monitored_items_response.written };

    fn read(
        alloc: Global,
        from: &mut Cursor<'_>,
    ) -> Result<CreateMonitoredItemsResponse, ValueFault> {
        read_fields!(alloc, from => response_header, results, diagnostic_infos)
    }

    fn put(&self, to: &mut Vec<u8>) -> Result<(), OutOfMemory> {
        put_fields!(self, to => response_header, results, diagnostic_infos)
    }
}

/// Sets the mode of items (OPC 10000-4, 5.12.4).
#[derive(Debug, Drop)]
pub struct SetMonitoringModeRequest {
    pub request_header: RequestHeader,
    pub subscription_id: u32,
    /// 0 disabled, 1 sampling, 2 reporting.
    pub monitoring_mode: i32,
    pub monitored_item_ids: UaArray<u32>,
}

#[tactic(auto, unfolding(crate::specs::Structures::a_set_monitoring_mode_request))]
impl Element for SetMonitoringModeRequest {
    ghost use Rattle.ua_sub_msgs.specs.Structures.{a_set_monitoring_mode_request};

    ghost at = { a_set_monitoring_mode_request.at };

    ghost written = { a_set_monitoring_mode_request.written };

    fn read(alloc: Global, from: &mut Cursor<'_>) -> Result<SetMonitoringModeRequest, ValueFault> {
        read_fields!(alloc, from => request_header, subscription_id, monitoring_mode,
            monitored_item_ids)
    }

    fn put(&self, to: &mut Vec<u8>) -> Result<(), OutOfMemory> {
        put_fields!(self, to => request_header, subscription_id, monitoring_mode,
            monitored_item_ids)
    }
}

/// Ends items of a subscription (OPC 10000-4, 5.12.6).
#[derive(Debug, Drop)]
pub struct DeleteMonitoredItemsRequest {
    pub request_header: RequestHeader,
    pub subscription_id: u32,
    pub monitored_item_ids: UaArray<u32>,
}

#[tactic(auto, unfolding(crate::specs::Structures::a_delete_monitored_items_request))]
impl Element for DeleteMonitoredItemsRequest {
    ghost use Rattle.ua_sub_msgs.specs.Structures.{a_delete_monitored_items_request};

    ghost at = { a_delete_monitored_items_request.at };

    ghost written = { a_delete_monitored_items_request.written };

    fn read(
        alloc: Global,
        from: &mut Cursor<'_>,
    ) -> Result<DeleteMonitoredItemsRequest, ValueFault> {
        read_fields!(alloc, from => request_header, subscription_id, monitored_item_ids)
    }

    fn put(&self, to: &mut Vec<u8>) -> Result<(), OutOfMemory> {
        put_fields!(self, to => request_header, subscription_id, monitored_item_ids)
    }
}
