//! Secure channels: the bodies of OPN and CLO.

use std::alloc::Global;
use ua_base::OutOfMemory;
use ua_structures::{RequestHeader, ResponseHeader, put_fields, read_fields};
use ua_values::{Cursor, Element, UaBytes, ValueFault};

/// What a secure channel is known by, and how long (OPC 10000-4, 5.5.2.2).
#[derive(Clone, Copy, Debug, PartialEq, Eq)]
pub struct ChannelSecurityToken {
    pub channel_id: u32,
    pub token_id: u32,
    /// The server's time, in 100 nanoseconds since 1601-01-01 UTC.
    pub created_at: i64,
    /// In milliseconds.
    pub revised_lifetime: u32,
}

#[tactic(auto, unfolding(crate::specs::Structures::a_channel_security_token))]
impl Element for ChannelSecurityToken {
    ghost use Rattle.ua_session_msgs.specs.Structures.{a_channel_security_token};

    ghost at = { a_channel_security_token.at };

    ghost written = { a_channel_security_token.written };

    fn read(alloc: Global, from: &mut Cursor<'_>) -> Result<ChannelSecurityToken, ValueFault> {
        read_fields!(alloc, from => channel_id, token_id, created_at, revised_lifetime)
    }

    fn put(&self, to: &mut Vec<u8>) -> Result<(), OutOfMemory> {
        put_fields!(self, to => channel_id, token_id, created_at, revised_lifetime)
    }
}

/// Opens a secure channel, or renews its token (OPC 10000-4, 5.5.2).
#[derive(Debug, Drop)]
pub struct OpenSecureChannelRequest {
    pub request_header: RequestHeader,
    pub client_protocol_version: u32,
    /// A SecurityTokenRequestType: 0 issue, 1 renew.
    pub request_type: i32,
    /// A MessageSecurityMode: 1 none, 2 sign, 3 sign and encrypt.
    pub security_mode: i32,
    pub client_nonce: UaBytes,
    /// In milliseconds.
    pub requested_lifetime: u32,
}

#[tactic(auto, unfolding(crate::specs::Structures::an_open_secure_channel_request))]
impl Element for OpenSecureChannelRequest {
    ghost use Rattle.ua_session_msgs.specs.Structures.{an_open_secure_channel_request};

    ghost at = { an_open_secure_channel_request.at };

    ghost written = { an_open_secure_channel_request.written };

    fn read(alloc: Global, from: &mut Cursor<'_>) -> Result<OpenSecureChannelRequest, ValueFault> {
        read_fields!(alloc, from => request_header, client_protocol_version, request_type,
            security_mode, client_nonce, requested_lifetime)
    }

    fn put(&self, to: &mut Vec<u8>) -> Result<(), OutOfMemory> {
        put_fields!(self, to => request_header, client_protocol_version, request_type,
            security_mode, client_nonce, requested_lifetime)
    }
}

/// The channel and its token (OPC 10000-4, 5.5.2).
#[derive(Debug, Drop)]
pub struct OpenSecureChannelResponse {
    pub response_header: ResponseHeader,
    pub server_protocol_version: u32,
    pub security_token: ChannelSecurityToken,
    pub server_nonce: UaBytes,
}

#[tactic(auto, unfolding(crate::specs::Structures::an_open_secure_channel_response))]
impl Element for OpenSecureChannelResponse {
    ghost use Rattle.ua_session_msgs.specs.Structures.{an_open_secure_channel_response};

    ghost at = { an_open_secure_channel_response.at };

    ghost written = { an_open_secure_channel_response.written };

    fn read(alloc: Global, from: &mut Cursor<'_>) -> Result<OpenSecureChannelResponse, ValueFault> {
        read_fields!(alloc, from => response_header, server_protocol_version, security_token,
            server_nonce)
    }

    fn put(&self, to: &mut Vec<u8>) -> Result<(), OutOfMemory> {
        put_fields!(self, to => response_header, server_protocol_version, security_token,
            server_nonce)
    }
}
