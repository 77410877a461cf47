//! Sessions.

ghost use Rattle.std.specs.Prelude.{◌≡◌, None};

use crate::discovery::{ApplicationDescription, EndpointDescription};
use std::alloc::Global;
use ua_base::OutOfMemory;
use ua_structures::{
    RequestHeader, ResponseHeader, UaArray, UnusedDiagnostics, put_fields, read_fields,
};
use ua_values::{Cursor, Element, ExtensionObject, NodeId, UaBytes, UaText, ValueFault};

/// A signature (OPC 10000-4, 7.32).
#[derive(Debug, Drop)]
pub struct SignatureData {
    pub algorithm: UaText,
    pub signature: UaBytes,
}

impl SignatureData {
    /// What stands where nothing is signed: a null algorithm and a null signature. It takes no memory.
    pub fn blank() -> SignatureData
        ensures { result ≡ record { algorithm = None; signature = None } }
    {
        SignatureData {
            algorithm: UaText::null(),
            signature: UaBytes::null(),
        }
    }
}

#[tactic(auto, unfolding(crate::specs::Structures::a_signature_data))]
impl Element for SignatureData {
    ghost use Rattle.ua_session_msgs.specs.Structures.{a_signature_data};

    ghost at = { a_signature_data.at };

    ghost written = { a_signature_data.written };

    fn read(alloc: Global, from: &mut Cursor<'_>) -> Result<SignatureData, ValueFault> {
        read_fields!(alloc, from => algorithm, signature)
    }

    fn put(&self, to: &mut Vec<u8>) -> Result<(), OutOfMemory> {
        put_fields!(self, to => algorithm, signature)
    }
}

/// A certificate of software (OPC 10000-4, 7.33).
#[derive(Debug, Drop)]
pub struct SignedSoftwareCertificate {
    pub certificate_data: UaBytes,
    pub signature: UaBytes,
}

#[tactic(auto, unfolding(crate::specs::Structures::a_signed_software_certificate))]
impl Element for SignedSoftwareCertificate {
    ghost use Rattle.ua_session_msgs.specs.Structures.{a_signed_software_certificate};

    ghost at = { a_signed_software_certificate.at };

    ghost written = { a_signed_software_certificate.written };

    fn read(alloc: Global, from: &mut Cursor<'_>) -> Result<SignedSoftwareCertificate, ValueFault> {
        read_fields!(alloc, from => certificate_data, signature)
    }

    fn put(&self, to: &mut Vec<u8>) -> Result<(), OutOfMemory> {
        put_fields!(self, to => certificate_data, signature)
    }
}

/// Asks for a session (OPC 10000-4, 5.6.2).
#[derive(Debug, Drop)]
pub struct CreateSessionRequest {
    pub request_header: RequestHeader,
    pub client_description: ApplicationDescription,
    pub server_uri: UaText,
    pub endpoint_url: UaText,
    pub session_name: UaText,
    pub client_nonce: UaBytes,
    pub client_certificate: UaBytes,
    /// The bits of a Double, in milliseconds.
    pub requested_session_timeout: u64,
    /// In bytes; 0 says that there is no limit.
    pub max_response_message_size: u32,
}

#[tactic(auto, unfolding(crate::specs::Structures::a_create_session_request))]
impl Element for CreateSessionRequest {
    ghost use Rattle.ua_session_msgs.specs.Structures.{a_create_session_request};

    ghost at = { a_create_session_request.at };

    ghost written = { a_create_session_request.written };

    fn read(alloc: Global, from: &mut Cursor<'_>) -> Result<CreateSessionRequest, ValueFault> {
        read_fields!(alloc, from => request_header, client_description, server_uri, endpoint_url,
            session_name, client_nonce, client_certificate, requested_session_timeout,
            max_response_message_size)
    }

    fn put(&self, to: &mut Vec<u8>) -> Result<(), OutOfMemory> {
        put_fields!(self, to => request_header, client_description, server_uri, endpoint_url,
            session_name, client_nonce, client_certificate, requested_session_timeout,
            max_response_message_size)
    }
}

/// The session (OPC 10000-4, 5.6.2).
#[derive(Debug, Drop)]
pub struct CreateSessionResponse {
    pub response_header: ResponseHeader,
    pub session_id: NodeId,
    /// The secret id that the session's requests carry.
    pub authentication_token: NodeId,
    /// The bits of a Double, in milliseconds.
    pub revised_session_timeout: u64,
    pub server_nonce: UaBytes,
    pub server_certificate: UaBytes,
    pub server_endpoints: UaArray<EndpointDescription>,
    pub server_software_certificates: UaArray<SignedSoftwareCertificate>,
    pub server_signature: SignatureData,
    /// In bytes; 0 says that there is no limit.
    pub max_request_message_size: u32,
}

#[tactic(auto, unfolding(crate::specs::Structures::a_create_session_response))]
impl Element for CreateSessionResponse {
    ghost use Rattle.ua_session_msgs.specs.Structures.{a_create_session_response};

    ghost at = { a_create_session_response.at };

    ghost written = { a_create_session_response.written };

    fn read(alloc: Global, from: &mut Cursor<'_>) -> Result<CreateSessionResponse, ValueFault> {
        read_fields!(alloc, from => response_header, session_id, authentication_token,
            revised_session_timeout, server_nonce, server_certificate, server_endpoints,
            server_software_certificates, server_signature, max_request_message_size)
    }

    fn put(&self, to: &mut Vec<u8>) -> Result<(), OutOfMemory> {
        put_fields!(self, to => response_header, session_id, authentication_token,
            revised_session_timeout, server_nonce, server_certificate, server_endpoints,
            server_software_certificates, server_signature, max_request_message_size)
    }
}

/// Gives a session its user, and binds it to a channel (OPC 10000-4, 5.6.3).
#[derive(Debug, Drop)]
pub struct ActivateSessionRequest {
    pub request_header: RequestHeader,
    pub client_signature: SignatureData,
    pub client_software_certificates: UaArray<SignedSoftwareCertificate>,
    pub locale_ids: UaArray<UaText>,
    pub user_identity_token: ExtensionObject,
    pub user_token_signature: SignatureData,
}

#[tactic(auto, unfolding(crate::specs::Structures::an_activate_session_request))]
impl Element for ActivateSessionRequest {
    ghost use Rattle.ua_session_msgs.specs.Structures.{an_activate_session_request};

    ghost at = { an_activate_session_request.at };

    ghost written = { an_activate_session_request.written };

    fn read(alloc: Global, from: &mut Cursor<'_>) -> Result<ActivateSessionRequest, ValueFault> {
        read_fields!(alloc, from => request_header, client_signature, client_software_certificates,
            locale_ids, user_identity_token, user_token_signature)
    }

    fn put(&self, to: &mut Vec<u8>) -> Result<(), OutOfMemory> {
        put_fields!(self, to => request_header, client_signature, client_software_certificates,
            locale_ids, user_identity_token, user_token_signature)
    }
}

/// The session is active (OPC 10000-4, 5.6.3).
#[derive(Debug, Drop)]
pub struct ActivateSessionResponse {
    pub response_header: ResponseHeader,
    pub server_nonce: UaBytes,
    /// A StatusCode for each certificate of software.
    pub results: UaArray<u32>,
    pub diagnostic_infos: UnusedDiagnostics,
}

#[tactic(auto, unfolding(crate::specs::Structures::an_activate_session_response))]
impl Element for ActivateSessionResponse {
    ghost use Rattle.ua_session_msgs.specs.Structures.{an_activate_session_response};

    ghost at = { an_activate_session_response.at };

    ghost written = { an_activate_session_response.written };

    fn read(alloc: Global, from: &mut Cursor<'_>) -> Result<ActivateSessionResponse, ValueFault> {
        read_fields!(alloc, from => response_header, server_nonce, results, diagnostic_infos)
    }

    fn put(&self, to: &mut Vec<u8>) -> Result<(), OutOfMemory> {
        put_fields!(self, to => response_header, server_nonce, results, diagnostic_infos)
    }
}

/// Ends a session (OPC 10000-4, 5.6.4).
#[derive(Debug, Drop)]
pub struct CloseSessionRequest {
    pub request_header: RequestHeader,
    /// Else they stay, without an owner.
    pub delete_subscriptions: bool,
}

#[tactic(auto, unfolding(crate::specs::Structures::a_close_session_request))]
impl Element for CloseSessionRequest {
    ghost use Rattle.ua_session_msgs.specs.Structures.{a_close_session_request};

    ghost at = { a_close_session_request.at };

    ghost written = { a_close_session_request.written };

    fn read(alloc: Global, from: &mut Cursor<'_>) -> Result<CloseSessionRequest, ValueFault> {
        read_fields!(alloc, from => request_header, delete_subscriptions)
    }

    fn put(&self, to: &mut Vec<u8>) -> Result<(), OutOfMemory> {
        put_fields!(self, to => request_header, delete_subscriptions)
    }
}
