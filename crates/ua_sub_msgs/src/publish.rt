//! Publish and Republish.

use crate::notification::NotificationMessage;
use std::alloc::Global;
use ua_base::OutOfMemory;
use ua_structures::{
    RequestHeader, ResponseHeader, UaArray, UnusedDiagnostics, put_fields, read_fields,
};
use ua_values::{Cursor, Element, ValueFault};

/// A message that need be kept no longer (OPC 10000-4, 5.13.5).
#[derive(Clone, Copy, Debug, PartialEq, Eq)]
pub struct SubscriptionAcknowledgement {
    pub subscription_id: u32,
    pub sequence_number: u32,
}

#[tactic(auto, unfolding(crate::specs::Structures::a_subscription_acknowledgement))]
impl Element for SubscriptionAcknowledgement {
    ghost use Rattle.ua_sub_msgs.specs.Structures.{a_subscription_acknowledgement};

    ghost at = { a_subscription_acknowledgement.at };

    ghost written = { a_subscription_acknowledgement.written };

    fn read(
        alloc: Global,
        from: &mut Cursor<'_>,
    ) -> Result<SubscriptionAcknowledgement, ValueFault> {
        read_fields!(alloc, from => subscription_id, sequence_number)
    }

    fn put(&self, to: &mut Vec<u8>) -> Result<(), OutOfMemory> {
        put_fields!(self, to => subscription_id, sequence_number)
    }
}

/// Lets a subscription of the session answer once (OPC 10000-4, 5.13.5).
#[derive(Debug, Drop)]
pub struct PublishRequest {
    pub request_header: RequestHeader,
    pub subscription_acknowledgements: UaArray<SubscriptionAcknowledgement>,
}

#[tactic(auto, unfolding(crate::specs::Structures::a_publish_request))]
impl Element for PublishRequest {
    ghost use Rattle.ua_sub_msgs.specs.Structures.{a_publish_request};

    ghost at = { a_publish_request.at };

    ghost written = { a_publish_request.written };

    fn read(alloc: Global, from: &mut Cursor<'_>) -> Result<PublishRequest, ValueFault> {
        read_fields!(alloc, from => request_header, subscription_acknowledgements)
    }

    fn put(&self, to: &mut Vec<u8>) -> Result<(), OutOfMemory> {
        put_fields!(self, to => request_header, subscription_acknowledgements)
    }
}

/// One message of a subscription (OPC 10000-4, 5.13.5).
#[derive(Debug, Drop)]
pub struct PublishResponse {
    pub response_header: ResponseHeader,
    pub subscription_id: u32,
    /// The messages that are kept.
    pub available_sequence_numbers: UaArray<u32>,
    /// Whether more wait already.
    pub more_notifications: bool,
    pub notification_message: NotificationMessage,
    /// A StatusCode for each acknowledgement.
    pub results: UaArray<u32>,
    pub diagnostic_infos: UnusedDiagnostics,
}

#[tactic(auto, unfolding(crate::specs::Structures::a_publish_response))]
impl Element for PublishResponse {
    ghost use Rattle.ua_sub_msgs.specs.Structures.{a_publish_response};

    ghost at = { a_publish_response.at };

    ghost written = { a_publish_response.written };

    fn read(alloc: Global, from: &mut Cursor<'_>) -> Result<PublishResponse, ValueFault> {
        read_fields!(alloc, from => response_header, subscription_id, available_sequence_numbers,
            more_notifications, notification_message, results, diagnostic_infos)
    }

    fn put(&self, to: &mut Vec<u8>) -> Result<(), OutOfMemory> {
        put_fields!(self, to => response_header, subscription_id,
            available_sequence_numbers, more_notifications, notification_message, results,
            diagnostic_infos)
    }
}

/// Asks for a message that is kept (OPC 10000-4, 5.13.6).
#[derive(Debug, Drop)]
pub struct RepublishRequest {
    pub request_header: RequestHeader,
    pub subscription_id: u32,
    pub retransmit_sequence_number: u32,
}

#[tactic(auto, unfolding(crate::specs::Structures::a_republish_request))]
impl Element for RepublishRequest {
    ghost use Rattle.ua_sub_msgs.specs.Structures.{a_republish_request};

    ghost at = { a_republish_request.at };

    ghost written = { a_republish_request.written };

    fn read(alloc: Global, from: &mut Cursor<'_>) -> Result<RepublishRequest, ValueFault> {
        read_fields!(alloc, from => request_header, subscription_id, retransmit_sequence_number)
    }

    fn put(&self, to: &mut Vec<u8>) -> Result<(), OutOfMemory> {
        put_fields!(self, to => request_header, subscription_id, retransmit_sequence_number)
    }
}

/// The message (OPC 10000-4, 5.13.6).
#[derive(Debug, Drop)]
pub struct RepublishResponse {
    pub response_header: ResponseHeader,
    pub notification_message: NotificationMessage,
}

#[tactic(auto, unfolding(crate::specs::Structures::a_republish_response))]
impl Element for RepublishResponse {
    ghost use Rattle.ua_sub_msgs.specs.Structures.{a_republish_response};

    ghost at = { a_republish_response.at };

    ghost written = { a_republish_response.written };

    fn read(alloc: Global, from: &mut Cursor<'_>) -> Result<RepublishResponse, ValueFault> {
        read_fields!(alloc, from => response_header, notification_message)
    }

    fn put(&self, to: &mut Vec<u8>) -> Result<(), OutOfMemory> {
        put_fields!(self, to => response_header, notification_message)
    }
}
