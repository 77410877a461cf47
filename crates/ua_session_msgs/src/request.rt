ghost use Rattle.std.specs.Prelude.{◌≡◌, ◌++◌, OnOk, OnErr};
ghost use Rattle.ua_structures.specs.Body.{service, body_at, written_by, Answers, IsBodyRead};
ghost use Rattle.ua_session_msgs.specs.Numbers.{request_id};
ghost use Rattle.ua_session_msgs.specs.Families.{request_put, session_requests};

use crate::attribute::ReadRequest;
use crate::channel::OpenSecureChannelRequest;
use crate::discovery::{FindServersRequest, GetEndpointsRequest};
use crate::method::CallRequest;
use crate::session::{ActivateSessionRequest, CloseSessionRequest, CreateSessionRequest};
use std::alloc::Global;
use ua_base::OutOfMemory;
use ua_structures::{Body, BodyFault, RequestHeader, read_as, read_body, write_body};
use ua_values::{Cursor, Element, ValueFault};

/// Which of these requests a body is.
#[derive(Clone, Copy, Debug, PartialEq, Eq)]
pub enum SessionRequestType {
    OpenSecureChannel,
    CloseSecureChannel,
    FindServers,
    GetEndpoints,
    CreateSession,
    ActivateSession,
    CloseSession,
    Read,
    Call,
}

impl SessionRequestType {
    /// All of them.
    pub const ALL: [SessionRequestType; 9] = [
        SessionRequestType::OpenSecureChannel,
        SessionRequestType::CloseSecureChannel,
        SessionRequestType::FindServers,
        SessionRequestType::GetEndpoints,
        SessionRequestType::CreateSession,
        SessionRequestType::ActivateSession,
        SessionRequestType::CloseSession,
        SessionRequestType::Read,
        SessionRequestType::Call,
    ];

    /// The number of its NodeId in the namespace 0, which says that it is encoded in binary (OPC 10000-6, annex A.3).
    pub fn id(self) -> u32
        ensures { result ≡ request_id self }
    {
        match self {
            SessionRequestType::OpenSecureChannel => 446,
            SessionRequestType::CloseSecureChannel => 452,
            SessionRequestType::FindServers => 422,
            SessionRequestType::GetEndpoints => 428,
            SessionRequestType::CreateSession => 461,
            SessionRequestType::ActivateSession => 467,
            SessionRequestType::CloseSession => 473,
            SessionRequestType::Read => 631,
            SessionRequestType::Call => 712,
        }
    }

    /// The one that has this number.
    pub fn of(id: u32) -> Option<SessionRequestType>
        ensures { result ≡ service session_requests id }
    {
        SessionRequestType::ALL
            .iter()
            .copied()
            .find(|one| one.id() == id)
    }
}

/// A request of sessions, discovery, Read or Call.
#[derive(Debug, Drop)]
pub enum SessionRequest {
    OpenSecureChannel(OpenSecureChannelRequest),
    CloseSecureChannel(RequestHeader),
    FindServers(FindServersRequest),
    GetEndpoints(GetEndpointsRequest),
    CreateSession(CreateSessionRequest),
    ActivateSession(ActivateSessionRequest),
    CloseSession(CloseSessionRequest),
    Read(ReadRequest),
    Call(CallRequest),
}

impl SessionRequest {
    /// Which one it is.
    pub fn kind(&self) -> SessionRequestType
        ensures { result ≡ (request_put self.now).kind }
    {
        match self {
            SessionRequest::OpenSecureChannel(_) => SessionRequestType::OpenSecureChannel,
            SessionRequest::CloseSecureChannel(_) => SessionRequestType::CloseSecureChannel,
            SessionRequest::FindServers(_) => SessionRequestType::FindServers,
            SessionRequest::GetEndpoints(_) => SessionRequestType::GetEndpoints,
            SessionRequest::CreateSession(_) => SessionRequestType::CreateSession,
            SessionRequest::ActivateSession(_) => SessionRequestType::ActivateSession,
            SessionRequest::CloseSession(_) => SessionRequestType::CloseSession,
            SessionRequest::Read(_) => SessionRequestType::Read,
            SessionRequest::Call(_) => SessionRequestType::Call,
        }
    }
}

impl Body for SessionRequest {
    ghost use Rattle.ua_structures.specs.Body.{number_by};
    ghost use Rattle.ua_session_msgs.specs.Families.{session_requests, request_put};

    type Service = SessionRequestType;

    ghost family = { session_requests };

    ghost number = { number_by session_requests request_put };

    ghost text = { λ value. (request_put value).text };

    fn service(id: u32) -> Option<SessionRequestType> {
        SessionRequestType::of(id)
    }

    fn read_structure(
        alloc: Global,
        which: SessionRequestType,
        from: &mut Cursor<'_>,
    ) -> Result<SessionRequest, ValueFault> {
        match which {
            SessionRequestType::OpenSecureChannel => read_as!(
                SessionRequest::OpenSecureChannel,
                alloc,
                from
            ),
            SessionRequestType::CloseSecureChannel => read_as!(
                SessionRequest::CloseSecureChannel,
                alloc,
                from
            ),
            SessionRequestType::FindServers => read_as!(SessionRequest::FindServers, alloc, from),
            SessionRequestType::GetEndpoints => read_as!(SessionRequest::GetEndpoints, alloc, from),
            SessionRequestType::CreateSession => read_as!(
                SessionRequest::CreateSession,
                alloc,
                from
            ),
            SessionRequestType::ActivateSession => read_as!(
                SessionRequest::ActivateSession,
                alloc,
                from
            ),
            SessionRequestType::CloseSession => read_as!(SessionRequest::CloseSession, alloc, from),
            SessionRequestType::Read => read_as!(SessionRequest::Read, alloc, from),
            SessionRequestType::Call => read_as!(SessionRequest::Call, alloc, from),
        }
    }

    fn number(&self) -> u32 {
        self.kind().id()
    }

    fn put_structure(&self, to: &mut Vec<u8>) -> Result<(), OutOfMemory> {
        match self {
            SessionRequest::OpenSecureChannel(request) => request.put(to),
            SessionRequest::CloseSecureChannel(request) => request.put(to),
            SessionRequest::FindServers(request) => request.put(to),
            SessionRequest::GetEndpoints(request) => request.put(to),
            SessionRequest::CreateSession(request) => request.put(to),
            SessionRequest::ActivateSession(request) => request.put(to),
            SessionRequest::CloseSession(request) => request.put(to),
            SessionRequest::Read(request) => request.put(to),
            SessionRequest::Call(request) => request.put(to),
        }
    }
}

/// Reads the whole body of a request.
///
/// # Errors
///
/// `Unknown` where its type reads and is none of these; `Bad` where the type or the structure doesn't read, ends early or has bytes left
/// over.
pub fn read_request(alloc: Global, body: &[u8]) -> Result<SessionRequest, BodyFault>
    ensures exact { Answers result (body_at session_requests body.now) }
    ensures spelled { IsBodyRead session_requests body.now result }
{
    read_body(alloc, body)
}

/// Appends the body of a request, or nothing where memory is refused.
pub fn write_request(request: &SessionRequest, to: &mut Vec<u8>) -> Result<(), OutOfMemory>
    ensures ok { OnOk result (to.new.items ≡ to.old.items ++ written_by session_requests request_put request.now) }
    ensures unchanged { OnErr result (to.new.items ≡ to.old.items) }
{
    write_body(request, to)
}
