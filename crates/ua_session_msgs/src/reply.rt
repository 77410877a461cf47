ghost use Rattle.std.specs.Prelude.{◌≡◌, ◌++◌, OnOk, OnErr};
ghost use Rattle.ua_structures.specs.Body.{service, body_at, written_by, Answers, IsBodyRead};
ghost use Rattle.ua_session_msgs.specs.Numbers.{reply_id};
ghost use Rattle.ua_session_msgs.specs.Families.{reply_put, session_replies};

use crate::attribute::ReadResponse;
use crate::channel::OpenSecureChannelResponse;
use crate::discovery::{FindServersResponse, GetEndpointsResponse};
use crate::method::CallResponse;
use crate::session::{ActivateSessionResponse, CreateSessionResponse};
use std::alloc::Global;
use ua_base::OutOfMemory;
use ua_structures::{Body, BodyFault, ResponseHeader, read_as, read_body, write_body};
use ua_values::{Cursor, Element, ValueFault};

/// Which of these replies a body is.
#[derive(Clone, Copy, Debug, PartialEq, Eq)]
pub enum SessionReplyType {
    ServiceFault,
    OpenSecureChannel,
    CloseSecureChannel,
    FindServers,
    GetEndpoints,
    CreateSession,
    ActivateSession,
    CloseSession,
    Read,
    Call,
}

impl SessionReplyType {
    /// All of them.
    pub const ALL: [SessionReplyType; 10] = [
        SessionReplyType::ServiceFault,
        SessionReplyType::OpenSecureChannel,
        SessionReplyType::CloseSecureChannel,
        SessionReplyType::FindServers,
        SessionReplyType::GetEndpoints,
        SessionReplyType::CreateSession,
        SessionReplyType::ActivateSession,
        SessionReplyType::CloseSession,
        SessionReplyType::Read,
        SessionReplyType::Call,
    ];

    /// The number of its NodeId in the namespace 0, which says that it is encoded in binary (OPC 10000-6, annex A.3).
    pub fn id(self) -> u32
        ensures { result ≡ reply_id self }
    {
        match self {
            SessionReplyType::ServiceFault => 397,
            SessionReplyType::OpenSecureChannel => 449,
            SessionReplyType::CloseSecureChannel => 455,
            SessionReplyType::FindServers => 425,
            SessionReplyType::GetEndpoints => 431,
            SessionReplyType::CreateSession => 464,
            SessionReplyType::ActivateSession => 470,
            SessionReplyType::CloseSession => 476,
            SessionReplyType::Read => 634,
            SessionReplyType::Call => 715,
        }
    }

    /// The one that has this number.
    pub fn of(id: u32) -> Option<SessionReplyType>
        ensures { result ≡ service session_replies id }
    {
        SessionReplyType::ALL
            .iter()
            .copied()
            .find(|one| one.id() == id)
    }
}

/// A reply to such a request, or a ServiceFault in place of one. A server never sends CloseSecureChannel.
#[derive(Debug, Drop)]
pub enum SessionReply {
    ServiceFault(ResponseHeader),
    OpenSecureChannel(OpenSecureChannelResponse),
    CloseSecureChannel(ResponseHeader),
    FindServers(FindServersResponse),
    GetEndpoints(GetEndpointsResponse),
    CreateSession(CreateSessionResponse),
    ActivateSession(ActivateSessionResponse),
    CloseSession(ResponseHeader),
    Read(ReadResponse),
    Call(CallResponse),
}

impl SessionReply {
    /// Which one it is.
    pub fn kind(&self) -> SessionReplyType
        ensures { result ≡ (reply_put self.now).kind }
    {
        match self {
            SessionReply::ServiceFault(_) => SessionReplyType::ServiceFault,
            SessionReply::OpenSecureChannel(_) => SessionReplyType::OpenSecureChannel,
            SessionReply::CloseSecureChannel(_) => SessionReplyType::CloseSecureChannel,
            SessionReply::FindServers(_) => SessionReplyType::FindServers,
            SessionReply::GetEndpoints(_) => SessionReplyType::GetEndpoints,
            SessionReply::CreateSession(_) => SessionReplyType::CreateSession,
            SessionReply::ActivateSession(_) => SessionReplyType::ActivateSession,
            SessionReply::CloseSession(_) => SessionReplyType::CloseSession,
            SessionReply::Read(_) => SessionReplyType::Read,
            SessionReply::Call(_) => SessionReplyType::Call,
        }
    }
}

impl Body for SessionReply {
    ghost use Rattle.ua_structures.specs.Body.{number_by};
    ghost use Rattle.ua_session_msgs.specs.Families.{session_replies, reply_put};

    type Service = SessionReplyType;

    ghost family = { session_replies };

    ghost number = { number_by session_replies reply_put };

    ghost text = { λ value. (reply_put value).text };

    fn service(id: u32) -> Option<SessionReplyType> {
        SessionReplyType::of(id)
    }

    fn read_structure(
        alloc: Global,
        which: SessionReplyType,
        from: &mut Cursor<'_>,
    ) -> Result<SessionReply, ValueFault> {
        match which {
            SessionReplyType::ServiceFault => read_as!(SessionReply::ServiceFault, alloc, from),
            SessionReplyType::OpenSecureChannel => read_as!(
                SessionReply::OpenSecureChannel,
                alloc,
                from
            ),
            SessionReplyType::CloseSecureChannel => read_as!(
                SessionReply::CloseSecureChannel,
                alloc,
                from
            ),
            SessionReplyType::FindServers => read_as!(SessionReply::FindServers, alloc, from),
            SessionReplyType::GetEndpoints => read_as!(SessionReply::GetEndpoints, alloc, from),
            SessionReplyType::CreateSession => read_as!(SessionReply::CreateSession, alloc, from),
            SessionReplyType::ActivateSession => read_as!(
                SessionReply::ActivateSession,
                alloc,
                from
            ),
            SessionReplyType::CloseSession => read_as!(SessionReply::CloseSession, alloc, from),
            SessionReplyType::Read => read_as!(SessionReply::Read, alloc, from),
            SessionReplyType::Call => read_as!(SessionReply::Call, alloc, from),
        }
    }

    fn number(&self) -> u32 {
        self.kind().id()
    }

    fn put_structure(&self, to: &mut Vec<u8>) -> Result<(), OutOfMemory> {
        match self {
            SessionReply::ServiceFault(reply) => reply.put(to),
            SessionReply::OpenSecureChannel(reply) => reply.put(to),
            SessionReply::CloseSecureChannel(reply) => reply.put(to),
            SessionReply::FindServers(reply) => reply.put(to),
            SessionReply::GetEndpoints(reply) => reply.put(to),
            SessionReply::CreateSession(reply) => reply.put(to),
            SessionReply::ActivateSession(reply) => reply.put(to),
            SessionReply::CloseSession(reply) => reply.put(to),
            SessionReply::Read(reply) => reply.put(to),
            SessionReply::Call(reply) => reply.put(to),
        }
    }
}

/// Reads the whole body of a reply.
///
/// # Errors
///
/// `Unknown` where its type reads and is none of these; `Bad` where the type or the structure doesn't read, ends early or has bytes left
/// over.
pub fn read_reply(alloc: Global, body: &[u8]) -> Result<SessionReply, BodyFault>
    ensures exact { Answers result (body_at session_replies body.now) }
    ensures spelled { IsBodyRead session_replies body.now result }
{
    read_body(alloc, body)
}

/// Appends the body of a reply, or nothing where memory is refused.
pub fn write_reply(reply: &SessionReply, to: &mut Vec<u8>) -> Result<(), OutOfMemory>
    ensures ok { OnOk result (to.new.items ≡ to.old.items ++ written_by session_replies reply_put reply.now) }
    ensures unchanged { OnErr result (to.new.items ≡ to.old.items) }
{
    write_body(reply, to)
}
