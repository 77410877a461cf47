//! How a server answers a request.

ghost use Rattle.std.specs.Prelude.{◌≡◌, ◌++◌, ◌∷◌, [], IfOk, OnOk};
ghost use Rattle.ua_channel.specs.declared.wire.Order.TheVariants as order;
ghost use Rattle.ua_chunks.specs.declared.frame.Kind.TheVariants as kind;
ghost use Rattle.ua_chunks.specs.Bodies.{written_error};
ghost use Rattle.ua_services.specs.Families.{written_reply};
ghost use Rattle.server_rules.specs.Said.{orders_of, wire};
ghost use Rattle.server_rules.specs.Answering.{fault_reply, faulted, good_header, refused_on, replied, replied_on};
ghost use Rattle.server_subs.specs.Answers.{replied_too_large};

use crate::data::ServerData;
use server_rules::{Asker, Conn};
use std::alloc::Global;
use ua_base::OutOfMemory;
use ua_base::status::{BAD_RESPONSE_TOO_LARGE, BAD_TCP_MESSAGE_TOO_LARGE, GOOD};
use ua_channel::{Ear, Order, Wire};
use ua_chunks::{Kind, err_body};
use ua_services::{Reply, write_reply};
use ua_session_msgs::SessionReply;
use ua_structures::ResponseHeader;

/// The body of a reply.
fn body_of(alloc: Global, reply: &Reply) -> Result<Vec<u8>, OutOfMemory>
    ensures { IfOk result (λ body. body.items ≡ written_reply reply.now) }
{
    let mut body = Vec::new(alloc);
    write_reply(reply, &mut body)?;
    Ok(body)
}

/// Says the body of a reply on a connection.
fn put_reply(
    conn: Conn,
    request: u32,
    body: Vec<u8>,
    to: &mut Vec<(u32, Order)>,
) -> Result<(), OutOfMemory>
    ensures { OnOk result (to.new.items
        ≡ to.old.items ++ (conn.number, order.Put (wire conn.channel conn.token request body.items)) ∷ []) }
{
    let message = Wire::new(Kind::Msg, conn.channel, conn.token, request, body);
    to.push((conn.number, Order::Put(message)))?;
    Ok(())
}

/// Says an ERR on a connection.
fn put_error(
    alloc: Global,
    conn: Conn,
    code: u32,
    to: &mut Vec<(u32, Order)>,
) -> Result<(), OutOfMemory>
    ensures { OnOk result (to.new.items
        ≡ to.old.items ++ (conn.number, order.Put (record (wire conn.channel conn.token 0 (written_error code)) { kind = kind.Err })) ∷ []) }
{
    let body = err_body(alloc, code)?;
    let message = Wire::new(Kind::Err, conn.channel, conn.token, 0, body);
    to.push((conn.number, Order::Put(message)))?;
    Ok(())
}

impl ServerData {
    /// The header of a reply to a request of this handle, of a service that was done (OPC 10000-4, 7.33).
    pub fn good_header(&self, handle: u32) -> ResponseHeader
        ensures { result ≡ good_header handle self.now }
    {
        ResponseHeader::new(self.server_time(), handle, GOOD)
    }

    /// A ServiceFault.
    fn fault_reply(&self, handle: u32, code: u32) -> Reply
        ensures { result ≡ fault_reply handle code self.now }
    {
        let header = ResponseHeader::new(self.server_time(), handle, code);
        Reply::Session(SessionReply::ServiceFault(header))
    }

    /// Answers by a fault in place of a reply that is too large.
    #[tactic(auto, unfolding(server_rules::specs::Answering::replied_within))]
    fn reply_too_large(
        &mut self,
        alloc: Global,
        conn: Conn,
        request: u32,
        handle: u32,
        to: &mut Vec<(u32, Order)>,
    ) -> Result<(), OutOfMemory>
        ensures state { OnOk result (self.new ≡ (replied_too_large conn request handle self.old).state) }
        ensures orders { OnOk result
            (to.new.items ≡ to.old.items ++ orders_of (replied_too_large conn request handle self.old).said) }
    {
        let fault = self.fault_reply(handle, BAD_RESPONSE_TOO_LARGE);
        let body = body_of(alloc, &fault)?;
        if body.len() <= conn.limit {
            put_reply(conn, request, body, to)
        } else {
            self.refuse(alloc, conn, BAD_TCP_MESSAGE_TOO_LARGE, to)
        }
    }

    /// Answers on a connection.
    #[tactic(auto, unfolding(server_rules::specs::Answering::replied_on, server_rules::specs::Answering::replied_within))]
    fn reply_on(
        &mut self,
        alloc: Global,
        conn: Conn,
        asker: Asker,
        reply: &Reply,
        to: &mut Vec<(u32, Order)>,
    ) -> Result<(), OutOfMemory>
        ensures state { OnOk result (self.new ≡ (replied_on conn asker.request asker.handle reply.now self.old).state) }
        ensures orders { OnOk result (to.new.items
            ≡ to.old.items ++ orders_of (replied_on conn asker.request asker.handle reply.now self.old).said) }
    {
        let body = body_of(alloc, reply)?;
        if body.len() <= conn.limit {
            put_reply(conn, asker.request, body, to)
        } else {
            self.reply_too_large(alloc, conn, asker.request, asker.handle, to)
        }
    }

    /// Answers a request, on its connection and within the sizes that the other end takes.
    #[tactic(auto, unfolding(server_rules::specs::Answering::replied))]
    pub fn reply(
        &mut self,
        alloc: Global,
        asker: Asker,
        reply: &Reply,
        to: &mut Vec<(u32, Order)>,
    ) -> Result<(), OutOfMemory>
        ensures state { OnOk result (self.new ≡ (replied asker reply.now self.old).state) }
        ensures orders { OnOk result (to.new.items ≡ to.old.items ++ orders_of (replied asker reply.now self.old).said) }
    {
        match self.conn(asker.conn) {
            Some(conn) => self.reply_on(alloc, conn, asker, reply, to),
            None => Ok(()),
        }
    }

    /// Answers a request by a ServiceFault (OPC 10000-4, 7.35).
    pub fn fault(
        &mut self,
        alloc: Global,
        asker: Asker,
        code: u32,
        to: &mut Vec<(u32, Order)>,
    ) -> Result<(), OutOfMemory>
        ensures state { OnOk result (self.new ≡ (faulted asker code self.old).state) }
        ensures orders { OnOk result (to.new.items ≡ to.old.items ++ orders_of (faulted asker code self.old).said) }
    {
        let fault = self.fault_reply(asker.handle, code);
        self.reply(alloc, asker, &fault, to)
    }

    /// Says a last ERR on a connection, on which nothing more is heard then (OPC 10000-6, 7.1.2.5).
    #[tactic(auto, unfolding(server_rules::specs::Answering::refused_on))]
    pub fn refuse(
        &mut self,
        alloc: Global,
        conn: Conn,
        code: u32,
        to: &mut Vec<(u32, Order)>,
    ) -> Result<(), OutOfMemory>
        ensures state { OnOk result (self.new ≡ (refused_on conn code self.old).state) }
        ensures orders { OnOk result (to.new.items ≡ to.old.items ++ orders_of (refused_on conn code self.old).said) }
    {
        put_error(alloc, conn, code, to)?;
        self.put_conn(Conn {
            ear: Ear::Deaf,
            ..conn
        });
        Ok(())
    }
}
