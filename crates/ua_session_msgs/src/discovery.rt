//! What servers there are, and how they are reached.

use std::alloc::Global;
use ua_base::OutOfMemory;
use ua_structures::{RequestHeader, ResponseHeader, UaArray, put_fields, read_fields};
use ua_values::{Cursor, Element, LocalizedText, UaBytes, UaText, ValueFault};

/// A client or a server (OPC 10000-4, 7.1).
#[derive(Debug, Drop)]
pub struct ApplicationDescription {
    pub application_uri: UaText,
    pub product_uri: UaText,
    pub application_name: LocalizedText,
    /// 0 server, 1 client, 2 both, 3 discovery server.
    pub application_type: i32,
    pub gateway_server_uri: UaText,
    pub discovery_profile_uri: UaText,
    pub discovery_urls: UaArray<UaText>,
}

#[tactic(auto, unfolding(crate::specs::Structures::an_application_description))]
impl Element for ApplicationDescription {
    ghost use Rattle.ua_session_msgs.specs.Structures.{an_application_description};

    ghost at = { an_application_description.at };

    ghost written = { an_application_description.written };

    fn read(alloc: Global, from: &mut Cursor<'_>) -> Result<ApplicationDescription, ValueFault> {
        read_fields!(alloc, from => application_uri, product_uri, application_name,
            application_type, gateway_server_uri, discovery_profile_uri, discovery_urls)
    }

    fn put(&self, to: &mut Vec<u8>) -> Result<(), OutOfMemory> {
        put_fields!(self, to => application_uri, product_uri, application_name, application_type,
            gateway_server_uri, discovery_profile_uri, discovery_urls)
    }
}

/// A kind of identity that an endpoint takes (OPC 10000-4, 7.37).
#[derive(Debug, Drop)]
pub struct UserTokenPolicy {
    pub policy_id: UaText,
    /// A UserTokenType: 0 anonymous, 1 user name, 2 certificate, 3 issued token.
    pub token_type: i32,
    pub issued_token_type: UaText,
    pub issuer_endpoint_url: UaText,
    pub security_policy_uri: UaText,
}

#[tactic(auto, unfolding(crate::specs::Structures::a_user_token_policy))]
impl Element for UserTokenPolicy {
    ghost use Rattle.ua_session_msgs.specs.Structures.{a_user_token_policy};

    ghost at = { a_user_token_policy.at };

    ghost written = { a_user_token_policy.written };

    fn read(alloc: Global, from: &mut Cursor<'_>) -> Result<UserTokenPolicy, ValueFault> {
        read_fields!(alloc, from => policy_id, token_type, issued_token_type, issuer_endpoint_url,
            security_policy_uri)
    }

    fn put(&self, to: &mut Vec<u8>) -> Result<(), OutOfMemory> {
        put_fields!(self, to => policy_id, token_type, issued_token_type, issuer_endpoint_url,
            security_policy_uri)
    }
}

/// Where and how a server is reached (OPC 10000-4, 7.10).
#[derive(Debug, Drop)]
pub struct EndpointDescription {
    pub endpoint_url: UaText,
    pub server: ApplicationDescription,
    pub server_certificate: UaBytes,
    /// A MessageSecurityMode: 1 none, 2 sign, 3 sign and encrypt.
    pub security_mode: i32,
    pub security_policy_uri: UaText,
    pub user_identity_tokens: UaArray<UserTokenPolicy>,
    pub transport_profile_uri: UaText,
    /// The higher the safer; 0 is not recommended.
    pub security_level: u8,
}

#[tactic(auto, unfolding(crate::specs::Structures::an_endpoint_description))]
impl Element for EndpointDescription {
    ghost use Rattle.ua_session_msgs.specs.Structures.{an_endpoint_description};

    ghost at = { an_endpoint_description.at };

    ghost written = { an_endpoint_description.written };

    fn read(alloc: Global, from: &mut Cursor<'_>) -> Result<EndpointDescription, ValueFault> {
        read_fields!(alloc, from => endpoint_url, server, server_certificate, security_mode,
            security_policy_uri, user_identity_tokens, transport_profile_uri, security_level)
    }

    fn put(&self, to: &mut Vec<u8>) -> Result<(), OutOfMemory> {
        put_fields!(self, to => endpoint_url, server, server_certificate, security_mode,
            security_policy_uri, user_identity_tokens, transport_profile_uri, security_level)
    }
}

/// Asks for the servers that a server knows (OPC 10000-4, 5.4.2).
#[derive(Debug, Drop)]
pub struct FindServersRequest {
    pub request_header: RequestHeader,
    pub endpoint_url: UaText,
    pub locale_ids: UaArray<UaText>,
    /// Only these, or all where it is empty.
    pub server_uris: UaArray<UaText>,
}

#[tactic(auto, unfolding(crate::specs::Structures::a_find_servers_request))]
impl Element for FindServersRequest {
    ghost use Rattle.ua_session_msgs.specs.Structures.{a_find_servers_request};

    ghost at = { a_find_servers_request.at };

    ghost written = { a_find_servers_request.written };

    fn read(alloc: Global, from: &mut Cursor<'_>) -> Result<FindServersRequest, ValueFault> {
        read_fields!(alloc, from => request_header, endpoint_url, locale_ids, server_uris)
    }

    fn put(&self, to: &mut Vec<u8>) -> Result<(), OutOfMemory> {
        put_fields!(self, to => request_header, endpoint_url, locale_ids, server_uris)
    }
}

/// The servers (OPC 10000-4, 5.4.2).
#[derive(Debug, Drop)]
pub struct FindServersResponse {
    pub response_header: ResponseHeader,
    pub servers: UaArray<ApplicationDescription>,
}

#[tactic(auto, unfolding(crate::specs::Structures::a_find_servers_response))]
impl Element for FindServersResponse {
    ghost use Rattle.ua_session_msgs.specs.Structures.{a_find_servers_response};

    ghost at = { a_find_servers_response.at };

    ghost written = { a_find_servers_response.written };

    fn read(alloc: Global, from: &mut Cursor<'_>) -> Result<FindServersResponse, ValueFault> {
        read_fields!(alloc, from => response_header, servers)
    }

    fn put(&self, to: &mut Vec<u8>) -> Result<(), OutOfMemory> {
        put_fields!(self, to => response_header, servers)
    }
}

/// Asks for a server's endpoints (OPC 10000-4, 5.4.4).
#[derive(Debug, Drop)]
pub struct GetEndpointsRequest {
    pub request_header: RequestHeader,
    pub endpoint_url: UaText,
    pub locale_ids: UaArray<UaText>,
    pub profile_uris: UaArray<UaText>,
}

#[tactic(auto, unfolding(crate::specs::Structures::a_get_endpoints_request))]
impl Element for GetEndpointsRequest {
    ghost use Rattle.ua_session_msgs.specs.Structures.{a_get_endpoints_request};

    ghost at = { a_get_endpoints_request.at };

    ghost written = { a_get_endpoints_request.written };

    fn read(alloc: Global, from: &mut Cursor<'_>) -> Result<GetEndpointsRequest, ValueFault> {
        read_fields!(alloc, from => request_header, endpoint_url, locale_ids, profile_uris)
    }

    fn put(&self, to: &mut Vec<u8>) -> Result<(), OutOfMemory> {
        put_fields!(self, to => request_header, endpoint_url, locale_ids, profile_uris)
    }
}

/// The endpoints (OPC 10000-4, 5.4.4).
#[derive(Debug, Drop)]
pub struct GetEndpointsResponse {
    pub response_header: ResponseHeader,
    pub endpoints: UaArray<EndpointDescription>,
}

#[tactic(auto, unfolding(crate::specs::Structures::a_get_endpoints_response))]
impl Element for GetEndpointsResponse {
    ghost use Rattle.ua_session_msgs.specs.Structures.{a_get_endpoints_response};

    ghost at = { a_get_endpoints_response.at };

    ghost written = { a_get_endpoints_response.written };

    fn read(alloc: Global, from: &mut Cursor<'_>) -> Result<GetEndpointsResponse, ValueFault> {
        read_fields!(alloc, from => response_header, endpoints)
    }

    fn put(&self, to: &mut Vec<u8>) -> Result<(), OutOfMemory> {
        put_fields!(self, to => response_header, endpoints)
    }
}
