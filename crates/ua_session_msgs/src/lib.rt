//! The messages of sessions, discovery, Read and Call, as bytes both ways (OPC 10000-4, 5.4 to 5.6, 5.10 and 5.11).
#![tactic(auto)]

mod attribute;
mod channel;
mod discovery;
mod identity;
mod laws;
mod method;
mod reply;
mod request;
mod session;

pub use attribute::{ReadRequest, ReadResponse};
pub use channel::{ChannelSecurityToken, OpenSecureChannelRequest, OpenSecureChannelResponse};
pub use discovery::{
    ApplicationDescription, EndpointDescription, FindServersRequest, FindServersResponse,
    GetEndpointsRequest, GetEndpointsResponse, UserTokenPolicy,
};
pub use identity::{
    AnonymousIdentityToken, IdentityToken, IdentityTokenType, read_identity, write_identity,
};
pub use laws::{identity_tokens_are_held, session_replies_are_lawful, session_requests_are_lawful};
pub use method::{CallMethodRequest, CallMethodResult, CallRequest, CallResponse};
pub use reply::{SessionReply, SessionReplyType, read_reply, write_reply};
pub use request::{SessionRequest, SessionRequestType, read_request, write_request};
pub use session::{
    ActivateSessionRequest, ActivateSessionResponse, CloseSessionRequest, CreateSessionRequest,
    CreateSessionResponse, SignatureData, SignedSoftwareCertificate,
};
pub use ua_structures::{
    BodyFault, BodyType, ReadValueId, RequestHeader, ResponseHeader, UaArray, UnusedDiagnostics,
    UnusedOfRequest, UnusedOfResponse, read_header, read_type,
};
