ghost use Rattle.std.specs.Prelude.{◌≡◌, ◌++◌, OnOk, OnErr};
ghost use Rattle.ua_structures.specs.Body.{service, body_at, Answers, IsBodyRead};
ghost use Rattle.ua_services.specs.Families.{reply_id, reply_put, replies, written_reply};
ghost use Rattle.ua_services.specs.Replies.{reply_header_of, session_reply_header, sub_reply_header};

use std::alloc::Global;
use ua_base::OutOfMemory;
use ua_session_msgs::{SessionReply, SessionReplyType};
use ua_structures::{Body, BodyFault, ResponseHeader, read_body, write_body};
use ua_sub_msgs::{SubReply, SubReplyType};
use ua_values::{Cursor, ValueFault};

/// Which reply a body is.
#[derive(Clone, Copy, Debug, PartialEq, Eq)]
pub enum ReplyType {
    /// ServiceFault, or one of channels, discovery, sessions, Read and Call.
    Session(SessionReplyType),
    /// One of monitored items and subscriptions.
    Subscription(SubReplyType),
}

impl ReplyType {
    /// The number of its NodeId in the namespace 0 (OPC 10000-6, annex A.3).
    pub fn id(self) -> u32
        ensures { result ≡ reply_id self }
    {
        match self {
            ReplyType::Session(kind) => kind.id(),
            ReplyType::Subscription(kind) => kind.id(),
        }
    }

    /// The one that has this number.
    pub fn of(id: u32) -> Option<ReplyType>
        ensures { result ≡ service replies id }
    {
        match SessionReplyType::of(id) {
            Some(kind) => Some(ReplyType::Session(kind)),
            None => match SubReplyType::of(id) {
                Some(kind) => Some(ReplyType::Subscription(kind)),
                None => None,
            },
        }
    }
}

/// A reply of any service, or a ServiceFault.
#[derive(Debug, Drop)]
pub enum Reply {
    /// ServiceFault, or one of channels, discovery, sessions, Read and Call.
    Session(SessionReply),
    /// One of monitored items and subscriptions.
    Subscription(SubReply),
}

fn session_header(reply: &SessionReply) -> ResponseHeader
    ensures { result ≡ session_reply_header reply.now }
{
    match reply {
        SessionReply::ServiceFault(reply) => *reply,
        SessionReply::OpenSecureChannel(reply) => reply.response_header,
        SessionReply::CloseSecureChannel(reply) => *reply,
        SessionReply::FindServers(reply) => reply.response_header,
        SessionReply::GetEndpoints(reply) => reply.response_header,
        SessionReply::CreateSession(reply) => reply.response_header,
        SessionReply::ActivateSession(reply) => reply.response_header,
        SessionReply::CloseSession(reply) => *reply,
        SessionReply::Read(reply) => reply.response_header,
        SessionReply::Call(reply) => reply.response_header,
    }
}

fn sub_header(reply: &SubReply) -> ResponseHeader
    ensures { result ≡ sub_reply_header reply.now }
{
    match reply {
        SubReply::CreateMonitoredItems(reply) => reply.response_header,
        SubReply::SetMonitoringMode(reply) => reply.response_header,
        SubReply::DeleteMonitoredItems(reply) => reply.response_header,
        SubReply::CreateSubscription(reply) => reply.response_header,
        SubReply::ModifySubscription(reply) => reply.response_header,
        SubReply::SetPublishingMode(reply) => reply.response_header,
        SubReply::Publish(reply) => reply.response_header,
        SubReply::Republish(reply) => reply.response_header,
        SubReply::TransferSubscriptions(reply) => reply.response_header,
        SubReply::DeleteSubscriptions(reply) => reply.response_header,
    }
}

impl Reply {
    /// Which one it is.
    pub fn kind(&self) -> ReplyType
        ensures { result ≡ (reply_put self.now).kind }
    {
        match self {
            Reply::Session(reply) => ReplyType::Session(reply.kind()),
            Reply::Subscription(reply) => ReplyType::Subscription(reply.kind()),
        }
    }

    /// What it begins with: the server's time, the number of the request, and the result of the service.
    pub fn header(&self) -> ResponseHeader
        ensures { result ≡ reply_header_of self.now }
    {
        match self {
            Reply::Session(reply) => session_header(reply),
            Reply::Subscription(reply) => sub_header(reply),
        }
    }
}

impl Body for Reply {
    ghost use Rattle.ua_structures.specs.Body.{number_by};
    ghost use Rattle.ua_services.specs.Families.{replies, reply_put};

    type Service = ReplyType;

    ghost family = { replies };

    ghost number = { number_by replies reply_put };

    ghost text = { λ value. (reply_put value).text };

    fn service(id: u32) -> Option<ReplyType> {
        ReplyType::of(id)
    }

    fn read_structure(
        alloc: Global,
        which: ReplyType,
        from: &mut Cursor<'_>,
    ) -> Result<Reply, ValueFault> {
        match which {
            ReplyType::Session(kind) => match SessionReply::read_structure(alloc, kind, from) {
                Ok(reply) => Ok(Reply::Session(reply)),
                Err(fault) => Err(fault),
            },
            ReplyType::Subscription(kind) => match SubReply::read_structure(alloc, kind, from) {
                Ok(reply) => Ok(Reply::Subscription(reply)),
                Err(fault) => Err(fault),
            },
        }
    }

    fn number(&self) -> u32 {
        self.kind().id()
    }

    fn put_structure(&self, to: &mut Vec<u8>) -> Result<(), OutOfMemory> {
        match self {
            Reply::Session(reply) => reply.put_structure(to),
            Reply::Subscription(reply) => reply.put_structure(to),
        }
    }
}

/// Reads the whole body of a reply.
///
/// # Errors
///
/// `Unknown` where its type reads and is that of no reply; `Bad` where the type or the structure doesn't read, ends
/// early or has bytes left over.
pub fn read_reply(alloc: Global, body: &[u8]) -> Result<Reply, BodyFault>
    ensures exact { Answers result (body_at replies body.now) }
    ensures spelled { IsBodyRead replies body.now result }
{
    read_body(alloc, body)
}

/// Appends the body of a reply, or nothing where memory is refused.
pub fn write_reply(reply: &Reply, to: &mut Vec<u8>) -> Result<(), OutOfMemory>
    ensures ok { OnOk result (to.new.items ≡ to.old.items ++ written_reply reply.now) }
    ensures unchanged { OnErr result (to.new.items ≡ to.old.items) }
{
    write_body(reply, to)
}
