ghost use Rattle.std.specs.Prelude.{◌≡◌, ◌++◌, OnOk, OnErr, Err};
ghost use Rattle.ua_structures.specs.declared.body.BodyFault.{BodyFault};
ghost use Rattle.ua_structures.specs.Body.{service, body_at, body_type_at, Answers};
ghost use Rattle.ua_services.specs.Families.{request_id, request_put, requests, written_request};
ghost use Rattle.ua_services.specs.Requests.{Asks, IsAsked, asked_of, header_of, is_service, request_at};
ghost use Rattle.ua_services.specs.Requests.{session_header, sub_header, told};

use std::alloc::Global;
use thiserror::Error;
use ua_base::OutOfMemory;
use ua_session_msgs::{SessionRequest, SessionRequestType};
use ua_structures::{
    Body, BodyFault, RequestHeader, read_body, read_header, read_type, write_body,
};
use ua_sub_msgs::{SubRequest, SubRequestType};
use ua_values::{Cursor, ValueFault};

/// Which request a body is.
#[derive(Clone, Copy, Debug, PartialEq, Eq)]
pub enum RequestType {
    /// One of channels, discovery, sessions, Read and Call.
    Session(SessionRequestType),
    /// One of monitored items and subscriptions.
    Subscription(SubRequestType),
}

impl RequestType {
    /// The number of its NodeId in the namespace 0 (OPC 10000-6, annex A.3).
    pub fn id(self) -> u32
        ensures { result ≡ request_id self }
    {
        match self {
            RequestType::Session(kind) => kind.id(),
            RequestType::Subscription(kind) => kind.id(),
        }
    }

    /// The one that has this number.
    pub fn of(id: u32) -> Option<RequestType>
        ensures { result ≡ service requests id }
    {
        match SessionRequestType::of(id) {
            Some(kind) => Some(RequestType::Session(kind)),
            None => match SubRequestType::of(id) {
                Some(kind) => Some(RequestType::Subscription(kind)),
                None => None,
            },
        }
    }

    /// Whether a message may ask for it: a secure channel is opened and closed by chunks of their own kinds (OPC
    /// 10000-6, 6.7.2).
    pub fn is_service(self) -> bool
        ensures { result ≡ is_service self }
    {
        !matches!(
            self,
            RequestType::Session(
                SessionRequestType::OpenSecureChannel | SessionRequestType::CloseSecureChannel
            )
        )
    }
}

/// A request of any service.
#[derive(Debug, Drop)]
pub enum Request {
    /// One of channels, discovery, sessions, Read and Call.
    Session(SessionRequest),
    /// One of monitored items and subscriptions.
    Subscription(SubRequest),
}

fn session_header(request: &SessionRequest) -> &RequestHeader
    ensures { result.now ≡ session_header request.now }
{
    match request {
        SessionRequest::OpenSecureChannel(request) => &request.request_header,
        SessionRequest::CloseSecureChannel(request) => request,
        SessionRequest::FindServers(request) => &request.request_header,
        SessionRequest::GetEndpoints(request) => &request.request_header,
        SessionRequest::CreateSession(request) => &request.request_header,
        SessionRequest::ActivateSession(request) => &request.request_header,
        SessionRequest::CloseSession(request) => &request.request_header,
        SessionRequest::Read(request) => &request.request_header,
        SessionRequest::Call(request) => &request.request_header,
    }
}

fn sub_header(request: &SubRequest) -> &RequestHeader
    ensures { result.now ≡ sub_header request.now }
{
    match request {
        SubRequest::CreateMonitoredItems(request) => &request.request_header,
        SubRequest::SetMonitoringMode(request) => &request.request_header,
        SubRequest::DeleteMonitoredItems(request) => &request.request_header,
        SubRequest::CreateSubscription(request) => &request.request_header,
        SubRequest::ModifySubscription(request) => &request.request_header,
        SubRequest::SetPublishingMode(request) => &request.request_header,
        SubRequest::Publish(request) => &request.request_header,
        SubRequest::Republish(request) => &request.request_header,
        SubRequest::TransferSubscriptions(request) => &request.request_header,
        SubRequest::DeleteSubscriptions(request) => &request.request_header,
    }
}

impl Request {
    /// Which one it is.
    pub fn kind(&self) -> RequestType
        ensures { result ≡ (request_put self.now).kind }
    {
        match self {
            Request::Session(request) => RequestType::Session(request.kind()),
            Request::Subscription(request) => RequestType::Subscription(request.kind()),
        }
    }

    /// What it begins with: the session's token, the client's time and its number for the request.
    pub fn header(&self) -> &RequestHeader
        ensures { result.now ≡ header_of self.now }
    {
        match self {
            Request::Session(request) => session_header(request),
            Request::Subscription(request) => sub_header(request),
        }
    }
}

impl Body for Request {
    ghost use Rattle.ua_structures.specs.Body.{number_by};
    ghost use Rattle.ua_services.specs.Families.{requests, request_put};

    type Service = RequestType;

    ghost family = { requests };

    ghost number = { number_by requests request_put };

    ghost text = { λ value. (request_put value).text };

    fn service(id: u32) -> Option<RequestType> {
        RequestType::of(id)
    }

    fn read_structure(
        alloc: Global,
        which: RequestType,
        from: &mut Cursor<'_>,
    ) -> Result<Request, ValueFault> {
        match which {
            RequestType::Session(kind) => match SessionRequest::read_structure(alloc, kind, from) {
                Ok(request) => Ok(Request::Session(request)),
                Err(fault) => Err(fault),
            },
            RequestType::Subscription(kind) => match SubRequest::read_structure(alloc, kind, from) {
                Ok(request) => Ok(Request::Subscription(request)),
                Err(fault) => Err(fault),
            },
        }
    }

    fn number(&self) -> u32 {
        self.kind().id()
    }

    fn put_structure(&self, to: &mut Vec<u8>) -> Result<(), OutOfMemory> {
        match self {
            Request::Session(request) => request.put_structure(to),
            Request::Subscription(request) => request.put_structure(to),
        }
    }
}

/// Why the body of a message asks for no service.
#[derive(Clone, Copy, Debug, PartialEq, Eq, Error)]
pub enum RequestFault {
    /// Its type or the header behind it doesn't read, so nobody knows which request a reply would belong to:
    /// Bad_DecodingError.
    #[error("a request without a header")]
    Header,
    /// The header reads, and the type is that of no service of a message: Bad_ServiceUnsupported.
    #[error("the request {handle} of no service")]
    Service { handle: u32 },
    /// The header reads, and what stands behind it is not what the type says: Bad_DecodingError.
    #[error("bad body of the request {handle}")]
    Body { handle: u32 },
    /// Memory was refused.
    #[error("out of memory")]
    OutOfMemory,
}

/// Why a body whose header has this handle asks for nothing.
fn unread(alloc: Global, body: &[u8], handle: u32) -> RequestFault
    ensures { (fault : BodyFault) → body_at requests body.now ≡ Err fault
        → Asks (Err result) (asked_of handle body.now (body_type_at body.now)) }
{
    match read_type(alloc, body) {
        Ok(kind) => match RequestType::of(kind.id) {
            Some(which) if which.is_service() => RequestFault::Body { handle },
            _ => RequestFault::Service { handle },
        },
        Err(BodyFault::OutOfMemory) => RequestFault::OutOfMemory,
        Err(_) => RequestFault::Header,
    }
}

/// Why a body that doesn't read asks for nothing.
fn refusal(alloc: Global, body: &[u8]) -> RequestFault
    ensures { (fault : BodyFault) → body_at requests body.now ≡ Err fault → Asks (Err result) (request_at body.now) }
{
    match read_header(alloc, body) {
        Ok(header) => unread(alloc, body, header.request_handle),
        Err(BodyFault::OutOfMemory) => RequestFault::OutOfMemory,
        Err(_) => RequestFault::Header,
    }
}

/// Why a body of which this was read asks for nothing, if it doesn't.
fn refusal_of(alloc: Global, body: &[u8], read: &Result<Request, BodyFault>) -> Option<RequestFault>
    ensures { Answers read.now (body_at requests body.now) → Asks (told read.now result) (request_at body.now) }
{
    match read {
        Ok(request) if request.kind().is_service() => None,
        Ok(request) => Some(RequestFault::Service {
            handle: request.header().request_handle,
        }),
        Err(BodyFault::OutOfMemory) => Some(RequestFault::OutOfMemory),
        Err(_) => Some(refusal(alloc, body)),
    }
}

/// What was read, unless it is refused.
fn tell<T: Drop>(
    read: Result<T, BodyFault>,
    refusal: Option<RequestFault>,
) -> Result<T, RequestFault>
    ensures { result ≡ told read refusal }
{
    match refusal {
        Some(fault) => Err(fault),
        None => match read {
            Ok(value) => Ok(value),
            Err(_) => Err(RequestFault::OutOfMemory),
        },
    }
}

fn read_asked(alloc: Global, body: &[u8]) -> Result<Request, RequestFault>
    ensures { Asks result (request_at body.now) }
{
    let read = read_body(alloc, body);
    let refusal = refusal_of(alloc, body, &read);
    tell(read, refusal)
}

/// Reads what the body of a message asks for, the whole body.
///
/// # Errors
///
/// `Header` where the type or the header behind it doesn't read; else `Service` where the type is that of no service
/// of a message, whatever stands behind the header; else `Body` where the structure doesn't read, ends early or has
/// bytes left over.
pub fn read_request(alloc: Global, body: &[u8]) -> Result<Request, RequestFault>
    ensures exact { Asks result (request_at body.now) }
    ensures asked { IsAsked body.now result }
{
    read_asked(alloc, body)
}

/// Appends the body of a request, or nothing where memory is refused.
pub fn write_request(request: &Request, to: &mut Vec<u8>) -> Result<(), OutOfMemory>
    ensures ok { OnOk result (to.new.items ≡ to.old.items ++ written_request request.now) }
    ensures unchanged { OnErr result (to.new.items ≡ to.old.items) }
{
    write_body(request, to)
}
