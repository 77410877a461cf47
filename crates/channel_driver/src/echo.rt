//! A core that greets, opens a channel, and gives each message back.

ghost use Rattle.std.specs.Prelude.{[], ◌∷◌, ◌≡◌, ◌≤◌, ◌++◌, OnOk, length, take, true};
ghost use Rattle.ua_values.specs.Reading.{input};
ghost use Rattle.ua_chunks.specs.Bodies.{hello_at, value_of, whole_at};
ghost use Rattle.ua_chunks.specs.declared.frame.Kind.TheVariants as kind;
ghost use Rattle.ua_channel.specs.declared.ear.Ear.TheVariants as ear;
ghost use Rattle.ua_channel.specs.declared.heard.Heard.TheVariants as said;
ghost use Rattle.ua_channel.specs.declared.wire.Order.TheVariants as order;
ghost use Rattle.channel_driver.specs.Echoing.{answer_of, front, greeted, greeted_by, number_of, opened_as, refused};

use std::alloc::Global;
use ua_base::OutOfMemory;
use ua_base::status::{BAD_DECODING_ERROR, BAD_SEQUENCE_NUMBER_INVALID};
use ua_channel::{Core, Ear, Heard, Limits, Order, Wire};
use ua_chunks::{Greeting, Kind, err_body, read_hello};
use ua_values::ValueFault;

/// What it takes next, and the channel and the token of its last OPN.
#[derive(Clone, Copy, Debug, Drop)]
pub struct Echo {
    pub ear: Ear,
    pub channel: u32,
    pub token: u32,
}

/// These bytes, or none where they are more than 4096.
fn front(bytes: &[u8]) -> &[u8]
    ensures bytes { result.now ≡ front bytes.now }
    ensures short { length result.now ≤ 4096 }
{
    if bytes.len() > 4096 { &[] } else { bytes }
}

/// The number of a channel, 1 where it has none yet.
fn number_of(channel: u32) -> u32
    ensures { result ≡ number_of channel }
{
    if channel == 0 { 1 } else { channel }
}

impl Echo {
    /// Ends with an ERR of this code.
    fn refuse(&mut self, alloc: Global, code: u32, to: &mut Vec<Order>) -> Result<(), OutOfMemory>
        ensures core { OnOk result (self.new ≡ (refused code self.old).0) }
        ensures orders { OnOk result (to.new.items ≡ to.old.items ++ (refused code self.old).1) }
    {
        let body = err_body(alloc, code)?;
        to.push(Order::Put(Wire::new(Kind::Err, 0, 0, 0, body)))?;
        self.ear = Ear::Deaf;
        Ok(())
    }

    /// Learns a HEL's sizes, and puts an ACK.
    fn welcome(
        &mut self,
        alloc: Global,
        greeting: &Greeting,
        body: &[u8],
        to: &mut Vec<Order>,
    ) -> Result<(), OutOfMemory>
        requires { 8192 ≤ greeting.now.receive }
        ensures core { OnOk result (self.new ≡ record self.old { ear = ear.Opening }) }
        ensures orders { OnOk result (to.new.items ≡ to.old.items
            ++ order.Limit (record {
              size = greeting.now.receive;
              max_message = greeting.now.max_message;
              max_chunks = greeting.now.max_chunks;
            })
            ∷ order.Put (record {
              kind = kind.Ack;
              channel = 0;
              token = 0;
              request = 0;
              body = take 20 body.now;
            }) ∷ []) }
    {
        let limits = Limits::new(greeting.receive, greeting.max_message, greeting.max_chunks);
        let own = Vec::from_slice(alloc, &body[..body.len().min(20)])?;
        to.push(Order::Limit(limits))?;
        to.push(Order::Put(Wire::new(Kind::Ack, 0, 0, 0, own)))?;
        self.ear = Ear::Opening;
        Ok(())
    }

    /// Takes a HEL.
    fn greet(&mut self, alloc: Global, body: &[u8], to: &mut Vec<Order>) -> Result<(), OutOfMemory>
        ensures core { OnOk result (self.new
            ≡ (greeted_by (value_of (whole_at hello_at (input 0 body.now))) body.now self.old).0) }
        ensures orders { OnOk result (to.new.items
            ≡ to.old.items ++ (greeted_by (value_of (whole_at hello_at (input 0 body.now))) body.now self.old).1) }
    {
        match read_hello(alloc, body) {
            Ok((greeting, _)) => {
                if greeting.receive < 8192 {
                    self.refuse(alloc, BAD_DECODING_ERROR, to)
                } else {
                    self.welcome(alloc, &greeting, body, to)
                }
            }
            Err(ValueFault::OutOfMemory) => Err(OutOfMemory),
            Err(_) => self.refuse(alloc, BAD_DECODING_ERROR, to),
        }
    }

    fn greeting(
        &mut self,
        alloc: Global,
        body: &[u8],
        to: &mut Vec<Order>,
    ) -> Result<(), OutOfMemory>
        ensures core { OnOk result (self.new ≡ (greeted self.old.ear body.now self.old).0) }
        ensures orders { OnOk result (to.new.items
            ≡ to.old.items ++ (greeted self.old.ear body.now self.old).1) }
    {
        match self.ear {
            Ear::Hello => self.greet(alloc, body, to),
            Ear::Acknowledge => {
                self.ear = Ear::Opening;
                Ok(())
            }
            Ear::Opening | Ear::Open | Ear::Deaf => Ok(()),
        }
    }

    /// Has this channel and token from now on, and says so.
    fn open(
        &mut self,
        alloc: Global,
        channel: u32,
        token: u32,
        request: u32,
        body: &[u8],
        to: &mut Vec<Order>,
    ) -> Result<(), OutOfMemory>
        ensures core { OnOk result (self.new ≡ (opened_as channel token request body.now self.old).0) }
        ensures orders { OnOk result (to.new.items
            ≡ to.old.items ++ (opened_as channel token request body.now self.old).1) }
    {
        let own = Vec::from_slice(alloc, front(body))?;
        to.push(Order::Renew { channel, token })?;
        to.push(Order::Put(Wire::new(Kind::Opn, channel, token, request, own)))?;
        self.ear = Ear::Open;
        self.channel = channel;
        self.token = token;
        Ok(())
    }

    fn echo(
        &mut self,
        alloc: Global,
        request: u32,
        body: &[u8],
        to: &mut Vec<Order>,
    ) -> Result<(), OutOfMemory>
        ensures core { OnOk result (self.new ≡ self.old) }
        ensures orders { OnOk result (to.new.items
            ≡ to.old.items ++ (answer_of (said.Message request body.now) self.old).1) }
    {
        let own = Vec::from_slice(alloc, body)?;
        to.push(Order::Put(Wire::new(Kind::Msg, self.channel, self.token, request, own)))?;
        Ok(())
    }
}

impl Core for Echo {
    ghost use Rattle.channel_driver.specs.Echoing.{answer_of};

    ghost ears = { λ conn e. e.ear };

    ghost answer = { λ conn h e. answer_of h e };

    fn ear(&self, _conn: u32) -> Ear {
        self.ear
    }

    fn hear(
        &mut self,
        alloc: Global,
        _conn: u32,
        heard: &Heard,
        to: &mut Vec<Order>,
    ) -> Result<(), OutOfMemory> {
        match heard {
            Heard::Greeting { body } => self.greeting(alloc, body.bytes(), to),
            Heard::Opening {
                channel,
                follows,
                request,
                body,
            } => {
                if *follows {
                    let token = self.token.saturating_add(1);
                    self.open(
                        alloc,
                        number_of(*channel),
                        token,
                        *request,
                        body.bytes(),
                        to,
                    )
                } else {
                    self.refuse(alloc, BAD_SEQUENCE_NUMBER_INVALID, to)
                }
            }
            Heard::Message { request, body } => self.echo(alloc, *request, body.bytes(), to),
            Heard::Close => {
                self.ear = Ear::Deaf;
                Ok(())
            }
            Heard::Fault { code } => self.refuse(alloc, *code, to),
        }
    }
}
