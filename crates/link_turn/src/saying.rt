//! What a link says that is no request: its HEL, and what it takes of an ACK and of a channel's token.

ghost use Rattle.std.specs.Prelude.{◌≡◌, ◌≤◌, length, OnOk};
ghost use Rattle.link_rules.specs.Said.{Limited, says};
ghost use Rattle.link_rules.specs.Opening.{greets, is_short, limit_named, limits_of, renews, with_limit, with_token};
ghost use Rattle.link_rules.specs.Requests.{hello};
ghost use Rattle.link_turn.specs.Turns.{done, hello_in, ordered};

use crate::link::Link;
use crate::turn::Turn;
use std::alloc::Global;
use ua_base::OutOfMemory;
use ua_channel::{Limits, Order, Wire};
use ua_chunks::{Greeting, Kind, Sender, hello_body};
use ua_session_msgs::ChannelSecurityToken;
use ua_values::UaText;

/// The most bytes of an endpoint's URL: its encoded value is below 4096 (OPC 10000-6, 7.1.2.3).
const MOST_URL: usize = 4091;

/// What a client tells of itself: frames of 65,536 bytes, and messages of a mebibyte in 64 chunks.
fn hello() -> Greeting
    ensures { result ≡ hello }
{
    Greeting {
        version: 0,
        receive: 65_536,
        send: 65_536,
        max_message: 1_048_576,
        max_chunks: 64,
    }
}

/// Whether a HEL may name this endpoint.
fn is_short(url: &UaText) -> bool
    ensures { result ≡ is_short url.now }
{
    match url.bytes() {
        None => true,
        Some(bytes) => bytes.len() <= MOST_URL,
    }
}

/// How many bytes of a body the server takes.
fn limit_named(greeting: Greeting) -> usize
    requires { 8192 ≤ greeting.receive }
    ensures { result ≡ limit_named greeting }
{
    let sender = Sender::new(
        0,
        0,
        greeting.receive,
        greeting.max_message,
        greeting.max_chunks,
    );
    sender.most_body()
}

impl Link {
    /// The server takes bodies of so many bytes.
    fn limit(&mut self, limit: usize)
        ensures { self.new ≡ with_limit limit self.old }
    {
        self.conversation.limit = limit;
    }

    /// Takes a channel and its new token.
    fn take_token(&mut self, token: ChannelSecurityToken)
        ensures { self.new ≡ with_token token self.old }
    {
        self.conversation.channel = token.channel_id;
        self.conversation.token = token.token_id;
        self.conversation.opened = self.age;
        self.conversation.lifetime = token.revised_lifetime;
        self.conversation.renewal = None;
    }
}

impl Turn {
    /// Gives an order.
    fn order(&mut self, order: Order) -> Result<(), OutOfMemory>
        ensures { OnOk result (self.new ≡ ordered order self.old) }
    {
        self.orders.push(order)?;
        Ok(())
    }

    /// Says the body of a HEL.
    fn put_hello(&mut self, body: Vec<u8>) -> Result<(), OutOfMemory>
        requires { length body.items ≤ 65528 }
        ensures { OnOk result (self.new ≡ hello_in body.items self.old) }
    {
        let conversation = self.link.conversation;
        self.order(Order::Put(Wire::new(
            Kind::Hel,
            conversation.channel,
            conversation.token,
            0,
            body,
        )))
    }

    /// Says a HEL for this endpoint (OPC 10000-6, 7.1.2.3).
    #[tactic(auto, unfolding(link_rules::specs::Opening::greets))]
    pub fn greet(&mut self, alloc: Global, url: &UaText) -> Result<(), OutOfMemory>
        ensures { OnOk result (self.new ≡ done (greets url.now self.old.link) self.old) }
    {
        if is_short(url) {
            let body = hello_body(alloc, &hello(), url)?;
            self.put_hello(body)
        } else {
            self.break_off(alloc)
        }
    }

    /// Takes the sizes that the server named in its ACK; frames of 8192 bytes at least.
    pub fn limit_to(&mut self, greeting: Greeting) -> Result<(), OutOfMemory>
        requires { 8192 ≤ greeting.receive }
        ensures { OnOk result (self.new
            ≡ done (says (Limited (limits_of greeting)) (with_limit (limit_named greeting) self.old.link)) self.old) }
    {
        self.link.limit(limit_named(greeting));
        let limits = Limits::new(greeting.receive, greeting.max_message, greeting.max_chunks);
        self.order(Order::Limit(limits))
    }

    /// Takes a channel and its new token: messages are put with it, and chunks of it are taken.
    #[tactic(auto, unfolding(link_rules::specs::Opening::renews))]
    pub fn renew(&mut self, token: ChannelSecurityToken) -> Result<(), OutOfMemory>
        ensures { OnOk result (self.new ≡ done (renews token self.old.link) self.old) }
    {
        self.link.take_token(token);
        self.order(Order::Renew {
            channel: token.channel_id,
            token: token.token_id,
        })
    }
}
