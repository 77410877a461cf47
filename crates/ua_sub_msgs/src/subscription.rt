//! Subscriptions.

use std::alloc::Global;
use ua_base::OutOfMemory;
use ua_structures::{
    RequestHeader, ResponseHeader, UaArray, UnusedDiagnostics, put_fields, read_fields,
};
use ua_values::{Cursor, Element, ValueFault};

/// Asks for a subscription (OPC 10000-4, 5.13.2).
#[derive(Debug, Drop)]
pub struct CreateSubscriptionRequest {
    pub request_header: RequestHeader,
    /// The bits of a Double, in milliseconds.
    pub requested_publishing_interval: u64,
    /// In publishing intervals.
    pub requested_lifetime_count: u32,
    /// In publishing intervals.
    pub requested_max_keep_alive_count: u32,
    /// 0 says that there is no limit.
    pub max_notifications_per_publish: u32,
    pub publishing_enabled: bool,
    pub priority: u8,
}

#[tactic(auto, unfolding(crate::specs::Structures::a_create_subscription_request))]
impl Element for CreateSubscriptionRequest {
    ghost use Rattle.ua_sub_msgs.specs.Structures.{a_create_subscription_request};

    ghost at = { a_create_subscription_request.at };

    ghost written = { a_create_subscription_request.written };

    fn read(alloc: Global, from: &mut Cursor<'_>) -> Result<CreateSubscriptionRequest, ValueFault> {
        read_fields!(alloc, from => request_header, requested_publishing_interval,
            requested_lifetime_count, requested_max_keep_alive_count, max_notifications_per_publish,
            publishing_enabled, priority)
    }

    fn put(&self, to: &mut Vec<u8>) -> Result<(), OutOfMemory> {
        put_fields!(self, to => request_header, requested_publishing_interval,
            requested_lifetime_count, requested_max_keep_alive_count, max_notifications_per_publish,
            publishing_enabled, priority)
    }
}

/// The subscription (OPC 10000-4, 5.13.2).
#[derive(Clone, Copy, Debug, PartialEq, Eq)]
pub struct CreateSubscriptionResponse {
    pub response_header: ResponseHeader,
    pub subscription_id: u32,
    /// The bits of a Double, in milliseconds.
    pub revised_publishing_interval: u64,
    /// In publishing intervals.
    pub revised_lifetime_count: u32,
    /// In publishing intervals.
    pub revised_max_keep_alive_count: u32,
}

#[tactic(auto, unfolding(crate::specs::Structures::a_create_subscription_response))]
impl Element for CreateSubscriptionResponse {
    ghost use Rattle.ua_sub_msgs.specs.Structures.{a_create_subscription_response};

    ghost at = { a_create_subscription_response.at };

    ghost written = { a_create_subscription_response.written };

    fn read(
        alloc: Global,
        from: &mut Cursor<'_>,
    ) -> Result<CreateSubscriptionResponse, ValueFault> {
        read_fields!(alloc, from => response_header, subscription_id, revised_publishing_interval,
            revised_lifetime_count, revised_max_keep_alive_count)
    }

    fn put(&self, to: &mut Vec<u8>) -> Result<(), OutOfMemory> {
        put_fields!(self, to => response_header, subscription_id, revised_publishing_interval,
            revised_lifetime_count, revised_max_keep_alive_count)
    }
}

/// Changes a subscription (OPC 10000-4, 5.13.3).
#[derive(Debug, Drop)]
pub struct ModifySubscriptionRequest {
    pub request_header: RequestHeader,
    pub subscription_id: u32,
    /// The bits of a Double, in milliseconds.
    pub requested_publishing_interval: u64,
    /// In publishing intervals.
    pub requested_lifetime_count: u32,
    /// In publishing intervals.
    pub requested_max_keep_alive_count: u32,
    /// 0 says that there is no limit.
    pub max_notifications_per_publish: u32,
    pub priority: u8,
}

#[tactic(auto, unfolding(crate::specs::Structures::a_modify_subscription_request))]
impl Element for ModifySubscriptionRequest {
    ghost use Rattle.ua_sub_msgs.specs.Structures.{a_modify_subscription_request};

    ghost at = { a_modify_subscription_request.at };

    ghost written = { a_modify_subscription_request.written };

    fn read(alloc: Global, from: &mut Cursor<'_>) -> Result<ModifySubscriptionRequest, ValueFault> {
        read_fields!(alloc, from => request_header, subscription_id, requested_publishing_interval,
            requested_lifetime_count, requested_max_keep_alive_count, max_notifications_per_publish,
            priority)
    }

    fn put(&self, to: &mut Vec<u8>) -> Result<(), OutOfMemory> {
        put_fields!(self, to => request_header, subscription_id, requested_publishing_interval,
            requested_lifetime_count, requested_max_keep_alive_count, max_notifications_per_publish,
            priority)
    }
}

/// The subscription as it is now (OPC 10000-4, 5.13.3).
#[derive(Clone, Copy, Debug, PartialEq, Eq)]
pub struct ModifySubscriptionResponse {
    pub response_header: ResponseHeader,
    /// The bits of a Double, in milliseconds.
    pub revised_publishing_interval: u64,
    /// In publishing intervals.
    pub revised_lifetime_count: u32,
    /// In publishing intervals.
    pub revised_max_keep_alive_count: u32,
}

#[tactic(auto, unfolding(crate::specs::Structures::a_modify_subscription_response))]
impl Element for ModifySubscriptionResponse {
    ghost use Rattle.ua_sub_msgs.specs.Structures.{a_modify_subscription_response};

    ghost at = { a_modify_subscription_response.at };

    ghost written = { a_modify_subscription_response.written };

    fn read(
        alloc: Global,
        from: &mut Cursor<'_>,
    ) -> Result<ModifySubscriptionResponse, ValueFault> {
        read_fields!(alloc, from => response_header, revised_publishing_interval,
            revised_lifetime_count, revised_max_keep_alive_count)
    }

    fn put(&self, to: &mut Vec<u8>) -> Result<(), OutOfMemory> {
        put_fields!(self, to => response_header,
            revised_publishing_interval, revised_lifetime_count, revised_max_keep_alive_count)
    }
}

/// Lets subscriptions publish, or stops them (OPC 10000-4, 5.13.4).
#[derive(Debug, Drop)]
pub struct SetPublishingModeRequest {
    pub request_header: RequestHeader,
    pub publishing_enabled: bool,
    pub subscription_ids: UaArray<u32>,
}

#[tactic(auto, unfolding(crate::specs::Structures::a_set_publishing_mode_request))]
impl Element for SetPublishingModeRequest {
    ghost use Rattle.ua_sub_msgs.specs.Structures.{a_set_publishing_mode_request};

    ghost at = { a_set_publishing_mode_request.at };

    ghost written = { a_set_publishing_mode_request.written };

    fn read(alloc: Global, from: &mut Cursor<'_>) -> Result<SetPublishingModeRequest, ValueFault> {
        read_fields!(alloc, from => request_header, publishing_enabled, subscription_ids)
    }

    fn put(&self, to: &mut Vec<u8>) -> Result<(), OutOfMemory> {
        put_fields!(self, to => request_header, publishing_enabled, subscription_ids)
    }
}

/// Takes subscriptions over into this session (OPC 10000-4, 5.13.7).
#[derive(Debug, Drop)]
pub struct TransferSubscriptionsRequest {
    pub request_header: RequestHeader,
    pub subscription_ids: UaArray<u32>,
    /// Whether each item that reports sends its value again.
    pub send_initial_values: bool,
}

#[tactic(auto, unfolding(crate::specs::Structures::a_transfer_subscriptions_request))]
impl Element for TransferSubscriptionsRequest {
    ghost use Rattle.ua_sub_msgs.specs.Structures.{a_transfer_subscriptions_request};

    ghost at = { a_transfer_subscriptions_request.at };

    ghost written = { a_transfer_subscriptions_request.written };

    fn read(
        alloc: Global,
        from: &mut Cursor<'_>,
    ) -> Result<TransferSubscriptionsRequest, ValueFault> {
        read_fields!(alloc, from => request_header, subscription_ids, send_initial_values)
    }

    fn put(&self, to: &mut Vec<u8>) -> Result<(), OutOfMemory> {
        put_fields!(self, to => request_header, subscription_ids, send_initial_values)
    }
}

/// What became of one subscription (OPC 10000-4, 5.13.7).
#[derive(Debug, Drop)]
pub struct TransferResult {
    pub status_code: u32,
    /// The messages that are kept.
    pub available_sequence_numbers: UaArray<u32>,
}

#[tactic(auto, unfolding(crate::specs::Structures::a_transfer_result))]
impl Element for TransferResult {
    ghost use Rattle.ua_sub_msgs.specs.Structures.{a_transfer_result};

    ghost at = { a_transfer_result.at };

    ghost written = { a_transfer_result.written };

    fn read(alloc: Global, from: &mut Cursor<'_>) -> Result<TransferResult, ValueFault> {
        read_fields!(alloc, from => status_code, available_sequence_numbers)
    }

    fn put(&self, to: &mut Vec<u8>) -> Result<(), OutOfMemory> {
        put_fields!(self, to => status_code, available_sequence_numbers)
    }
}

/// What became of them, in the order of the request (OPC 10000-4, 5.13.7).
#[derive(Debug, Drop)]
pub struct TransferSubscriptionsResponse {
    pub response_header: ResponseHeader,
    pub results: UaArray<TransferResult>,
    pub diagnostic_infos: UnusedDiagnostics,
}

#[tactic(auto, unfolding(crate::specs::Structures::a_transfer_subscriptions_response))]
impl Element for TransferSubscriptionsResponse {
    ghost use Rattle.ua_sub_msgs.specs.Structures.{a_transfer_subscriptions_response};

    ghost at = { a_transfer_subscriptions_response.at };

    ghost written = { a_transfer_subscriptions_response.written };

    fn read(
        alloc: Global,
        from: &mut Cursor<'_>,
    ) -> Result<TransferSubscriptionsResponse, ValueFault> {
        read_fields!(alloc, from => response_header, results, diagnostic_infos)
    }

    fn put(&self, to: &mut Vec<u8>) -> Result<(), OutOfMemory> {
        put_fields!(self, to => response_header, results, diagnostic_infos)
    }
}

/// Ends subscriptions (OPC 10000-4, 5.13.8).
#[derive(Debug, Drop)]
pub struct DeleteSubscriptionsRequest {
    pub request_header: RequestHeader,
    pub subscription_ids: UaArray<u32>,
}

#[tactic(auto, unfolding(crate::specs::Structures::a_delete_subscriptions_request))]
impl Element for DeleteSubscriptionsRequest {
    ghost use Rattle.ua_sub_msgs.specs.Structures.{a_delete_subscriptions_request};

    ghost at = { a_delete_subscriptions_request.at };

    ghost written = { a_delete_subscriptions_request.written };

    fn read(
        alloc: Global,
        from: &mut Cursor<'_>,
    ) -> Result<DeleteSubscriptionsRequest, ValueFault> {
        read_fields!(alloc, from => request_header, subscription_ids)
    }

    fn put(&self, to: &mut Vec<u8>) -> Result<(), OutOfMemory> {
        put_fields!(self, to => request_header, subscription_ids)
    }
}
