//! How a link asks: its requests are numbered from 1 on each connection, and none is larger than the server takes.

ghost use Rattle.std.specs.Prelude.{◌≡◌, ◌++◌, ◌∷◌, [], length, IfOk, OnOk};
ghost use Rattle.ua_channel.specs.State.{MayCarry};
ghost use Rattle.ua_channel.specs.declared.wire.Order.TheVariants as order;
ghost use Rattle.ua_services.specs.Families.{written_request};
ghost use Rattle.link_rules.specs.State.{link_time};
ghost use Rattle.link_rules.specs.Asking.{asked, asked_opening, counted, header, next_request, null_header};
ghost use Rattle.link_rules.specs.Publishing.{next_asked};
ghost use Rattle.link_turn.specs.Turns.{done, put_in};

use crate::link::{Link, null_node};
use crate::turn::Turn;
use link_rules::Asked;
use std::alloc::Global;
use ua_base::{OutOfMemory, next_message};
use ua_channel::{Order, Wire};
use ua_chunks::Kind;
use ua_services::{Request, write_request};
use ua_structures::RequestHeader;

/// The most bytes of a request in an OPN, which is a single chunk.
const MOST_OPENING: usize = 4096;

/// The body of a request.
fn body_of(alloc: Global, request: &Request) -> Result<Vec<u8>, OutOfMemory>
    ensures { IfOk result (λ body. body.items ≡ written_request request.now) }
{
    let mut body = Vec::new(alloc);
    write_request(request, &mut body)?;
    Ok(body)
}

impl Link {
    /// The number of its next request.
    pub fn next_request(&self) -> u32
        ensures { result ≡ next_request self.now }
    {
        next_message(self.conversation.last)
    }

    /// Its next request, as one that isn't answered.
    pub fn next_asked(&self) -> Asked
        ensures { result ≡ next_asked self.now }
    {
        Asked {
            handle: self.next_request(),
            at: self.age,
        }
    }

    /// What time it is: a DateTime, in steps of 100 ns since 1601-01-01 (OPC 10000-6, 5.2.2.5); the last one stays.
    fn time(&self) -> i64
        ensures { result ≡ link_time self.now }
    {
        let steps = self.age.saturating_mul(10_000);
        self.config.start.saturating_add_unsigned(steps)
    }

    /// The header of its next request (OPC 10000-4, 7.33).
    pub(crate) fn header(&self, alloc: Global) -> Result<RequestHeader, OutOfMemory>
        ensures { IfOk result (λ h. h ≡ header self.now) }
    {
        let session = self.session.copy(alloc)?;
        Ok(RequestHeader::new(session, self.time(), self.next_request()))
    }

    /// That of a request before there is a session.
    pub(crate) fn null_header(&self) -> RequestHeader
        ensures { result ≡ null_header self.now }
    {
        RequestHeader::new(null_node(), self.time(), self.next_request())
    }

    /// The number of its next request is used up.
    fn count(&mut self)
        ensures { self.new ≡ counted self.old }
    {
        self.conversation.last = self.next_request();
    }
}

impl Turn {
    /// Says the body of the next request under the channel and token of this moment, and uses its number up.
    fn put_request(&mut self, kind: Kind, body: Vec<u8>) -> Result<(), OutOfMemory>
        requires { MayCarry kind (length body.items) }
        ensures { OnOk result (self.new ≡ put_in kind body.items self.old) }
    {
        let conversation = self.link.conversation;
        let number = self.link.next_request();
        let wire = Wire::new(kind, conversation.channel, conversation.token, number, body);
        self.orders.push(Order::Put(wire))?;
        self.link.count();
        Ok(())
    }

    /// Asks in a MSG; a request that is larger than the server takes closes the link.
    #[tactic(auto, unfolding(link_rules::specs::Asking::asked))]
    fn ask_of(&mut self, alloc: Global, request: &Request) -> Result<(), OutOfMemory>
        ensures { OnOk result (self.new ≡ done (asked request.now self.old.link) self.old) }
    {
        let body = body_of(alloc, request)?;
        if body.len() <= self.link.conversation.limit {
            self.put_request(Kind::Msg, body)
        } else {
            self.break_off(alloc)
        }
    }

    /// Asks in an OPN, which has at most 4096 bytes.
    #[tactic(auto, unfolding(link_rules::specs::Asking::asked_opening))]
    fn ask_opening_of(&mut self, alloc: Global, request: &Request) -> Result<(), OutOfMemory>
        ensures { OnOk result (self.new ≡ done (asked_opening request.now self.old.link) self.old) }
    {
        let body = body_of(alloc, request)?;
        if body.len() <= self.link.conversation.limit.min(MOST_OPENING) {
            self.put_request(Kind::Opn, body)
        } else {
            self.break_off(alloc)
        }
    }

    /// Asks in a MSG.
    pub(crate) fn ask(&mut self, alloc: Global, request: Request) -> Result<(), OutOfMemory>
        ensures { OnOk result (self.new ≡ done (asked request self.old.link) self.old) }
    {
        let asked = self.ask_of(alloc, &request);
        drop(request);
        asked
    }

    /// Asks in an OPN.
    pub(crate) fn ask_opening(&mut self, alloc: Global, request: Request) -> Result<(), OutOfMemory>
        ensures { OnOk result (self.new ≡ done (asked_opening request self.old.link) self.old) }
    {
        let asked = self.ask_opening_of(alloc, &request);
        drop(request);
        asked
    }
}
