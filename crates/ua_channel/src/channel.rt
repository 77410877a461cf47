ghost use Rattle.std.specs.Prelude.{[], ◌≡◌, ◌≤◌, None, Err, IfOk, OnErr, OnOk};
ghost use Rattle.ua_values.specs.Reading.{input};
ghost use Rattle.ua_chunks.specs.Assembly.{takes_number};
ghost use Rattle.ua_chunks.specs.Bodies.{opn_head_at, opn_of};
ghost use Rattle.ua_chunks.specs.Sending.{limit_of};
ghost use Rattle.ua_channel.specs.Hearing.{FeedsOn, chunk_heard, heard_of, hearing, is_none_policy, number_taken};
ghost use Rattle.ua_channel.specs.Hearing.{opened, opening_heard, with_assembly};
ghost use Rattle.ua_channel.specs.Orders.{Obeys, fits, put_on};
ghost use Rattle.ua_channel.specs.State.{held_in, new_channel, shut};
ghost use Rattle.ua_chunks.specs.declared.frame.Kind.TheVariants as kind;
ghost use Rattle.ua_channel.specs.declared.side.Side.TheVariants as sides;
ghost use Rattle.ua_channel.specs.declared.wire.Order.TheVariants as order;

use crate::ear::Ear;
use crate::fault::ChannelFault;
use crate::heard::Heard;
use crate::side::Side;
use crate::wire::{Order, Wire};
use std::alloc::Global;
use std::marker::Model;
use std::mem;
use ua_base::OutOfMemory;
use ua_base::status::{
    BAD_DECODING_ERROR, BAD_SECURITY_POLICY_REJECTED, BAD_TCP_MESSAGE_TYPE_INVALID,
};
use ua_chunks::{
    Assembler, Body, Frame, FrameFault, Framer, Kind, NONE_POLICY, PutFault, Sender, read_opn,
    read_policy, write_frame,
};
use ua_values::{UaText, ValueFault};

/// How many bytes an end holds at most of what came and is no whole message.
pub const MOST_HELD: usize = 1_114_111;

/// One end of a connection: it makes frames of bytes, messages of frames, and bytes of messages.
#[derive(Debug, Drop)]
pub struct Channel {
    side: Side,
    framer: Framer,
    assembler: Assembler,
    sender: Sender,
    out: Vec<u8>,
}

impl Model for Channel {
    ghost use Rattle.ua_channel.specs.State.{ChannelState, IsSound};

    ghost Value = { ChannelState };

    ghost view = { λ c. record {
      side = c.side;
      framing = c.framer;
      assembly = c.assembler;
      sending = c.sender;
      out = c.out.items;
    } };

    ghost invariant = { λ c. IsSound c.framer };
}

/// Whether an OPN's policy is the one without security.
fn is_none_policy(policy: &UaText) -> bool
    ensures { result ≡ is_none_policy policy.now }
{
    match policy.bytes() {
        Some(bytes) => bytes == NONE_POLICY,
        None => false,
    }
}

impl Channel {
    /// Stands before the first byte of a connection. Until the first renewal it takes and puts messages of channel 0
    /// and token 0, and until the other end's limits come it puts frames of at most 8192 bytes.
    pub fn new(alloc: Global, side: Side) -> Channel
        ensures { result ≡ new_channel side }
    {
        Channel {
            side,
            framer: Framer::new(alloc),
            assembler: Assembler::new(alloc, 0, 0),
            sender: Sender::new(0, 0, 8192, 0, 0),
            out: Vec::new(alloc),
        }
    }

    /// Appends each frame that becomes whole by these bytes.
    ///
    /// # Errors
    ///
    /// `Bad` where the eight bytes of a header break a rule, after the frames before it were appended. Where memory was
    /// refused, a front of the frames was appended. In both cases nothing is kept of the bytes that are in no whole
    /// frame, and what comes then begins a stream.
    pub fn feed(
        &mut self,
        alloc: Global,
        bytes: &[u8],
        to: &mut Vec<Frame>,
    ) -> Result<(), FrameFault>
        ensures { FeedsOn result self.old bytes.now self.new to.old.items to.new.items }
    {
        match self.framer.feed(alloc, bytes, to) {
            Ok(()) => Ok(()),
            Err(FrameFault::Bad { place, code }) => {
                self.framer = Framer::new(alloc);
                Err(FrameFault::Bad { place, code })
            }
            Err(FrameFault::OutOfMemory) => {
                self.framer = Framer::new(alloc);
                Err(FrameFault::OutOfMemory)
            }
        }
    }

    /// What is heard of a frame: nothing of a chunk that ends no message.
    ///
    /// # Errors
    ///
    /// Want of memory; all stays as it was.
    #[tactic(auto, unfolding(crate::specs::Hearing::hearing))]
    pub fn hear(
        &mut self,
        alloc: Global,
        ear: Ear,
        frame: &Frame,
    ) -> Result<Option<Heard>, OutOfMemory>
        ensures said { IfOk result (λ heard. heard ≡ (hearing self.old.side ear frame.now self.old.assembly).heard) }
        ensures state { OnOk result (self.new
            ≡ with_assembly (hearing self.old.side ear frame.now self.old.assembly).assembly self.old) }
        ensures unchanged { OnErr result (self.new ≡ self.old) }
    {
        if ear.takes(frame.kind) {
            self.frame(alloc, frame)
        } else {
            Ok(Some(Heard::Fault {
                code: BAD_TCP_MESSAGE_TYPE_INVALID,
            }))
        }
    }

    /// A frame of a kind that is taken.
    fn frame(&mut self, alloc: Global, frame: &Frame) -> Result<Option<Heard>, OutOfMemory>
        ensures said { IfOk result (λ heard.
            heard ≡ (heard_of self.old.side frame.now.kind frame.now self.old.assembly).heard) }
        ensures state { OnOk result (self.new
            ≡ with_assembly (heard_of self.old.side frame.now.kind frame.now self.old.assembly).assembly self.old) }
        ensures unchanged { OnErr result (self.new ≡ self.old) }
    {
        match frame.kind {
            Kind::Hel | Kind::Ack => {
                let body = Vec::from_slice(alloc, frame.body.bytes())?;
                Ok(Some(Heard::Greeting {
                    body: Body::new(body),
                }))
            }
            Kind::Err => Ok(Some(Heard::Fault {
                code: BAD_TCP_MESSAGE_TYPE_INVALID,
            })),
            Kind::Opn => self.opening(alloc, frame.body.bytes()),
            Kind::Msg => self.message(alloc, frame),
            Kind::Clo => self.close(alloc, frame),
        }
    }

    fn message(&mut self, alloc: Global, frame: &Frame) -> Result<Option<Heard>, OutOfMemory>
        ensures said { IfOk result (λ heard. heard ≡ (chunk_heard kind.Msg frame.now self.old.assembly).heard) }
        ensures state { OnOk result (self.new
            ≡ with_assembly (chunk_heard kind.Msg frame.now self.old.assembly).assembly self.old) }
        ensures unchanged { OnErr result (self.new ≡ self.old) }
    {
        match self.assembler.add(alloc, frame) {
            Ok(None) => Ok(None),
            Ok(Some(message)) => Ok(Some(Heard::Message {
                request: message.request,
                body: message.body,
            })),
            Err(FrameFault::Bad { code, .. }) => Ok(Some(Heard::Fault { code })),
            Err(FrameFault::OutOfMemory) => Err(OutOfMemory),
        }
    }

    fn close(&mut self, alloc: Global, frame: &Frame) -> Result<Option<Heard>, OutOfMemory>
        ensures said { IfOk result (λ heard. heard ≡ (chunk_heard kind.Clo frame.now self.old.assembly).heard) }
        ensures state { OnOk result (self.new
            ≡ with_assembly (chunk_heard kind.Clo frame.now self.old.assembly).assembly self.old) }
        ensures unchanged { OnErr result (self.new ≡ self.old) }
    {
        match self.assembler.add(alloc, frame) {
            Ok(None) => Ok(None),
            Ok(Some(_)) => Ok(Some(Heard::Close)),
            Err(FrameFault::Bad { code, .. }) => Ok(Some(Heard::Fault { code })),
            Err(FrameFault::OutOfMemory) => Err(OutOfMemory),
        }
    }

    /// An OPN, as this side judges it.
    fn opening(&mut self, alloc: Global, body: &[u8]) -> Result<Option<Heard>, OutOfMemory>
        ensures said { IfOk result (λ heard.
            heard ≡ (opening_heard self.old.side body.now self.old.assembly).heard) }
        ensures state { OnOk result (self.new
            ≡ with_assembly (opening_heard self.old.side body.now self.old.assembly).assembly self.old) }
        ensures unchanged { OnErr result (self.new ≡ self.old) }
    {
        match self.side {
            Side::Client => self.opened(alloc, body),
            Side::Server => self.judged(alloc, body),
        }
    }

    /// An OPN that comes to a server: its policy is judged before anything behind it is read.
    fn judged(&mut self, alloc: Global, body: &[u8]) -> Result<Option<Heard>, OutOfMemory>
        ensures said { IfOk result (λ heard.
            heard ≡ (opening_heard sides.Server body.now self.old.assembly).heard) }
        ensures state { OnOk result (self.new
            ≡ with_assembly (opening_heard sides.Server body.now self.old.assembly).assembly self.old) }
        ensures unchanged { OnErr result (self.new ≡ self.old) }
    {
        match read_policy(alloc, body) {
            Ok(policy) => {
                if is_none_policy(&policy) {
                    self.opened(alloc, body)
                } else {
                    Ok(Some(Heard::Fault {
                        code: BAD_SECURITY_POLICY_REJECTED,
                    }))
                }
            }
            Err(ValueFault::OutOfMemory) => Err(OutOfMemory),
            Err(_) => Ok(Some(Heard::Fault {
                code: BAD_DECODING_ERROR,
            })),
        }
    }

    /// An OPN whose policy is taken.
    fn opened(&mut self, alloc: Global, body: &[u8]) -> Result<Option<Heard>, OutOfMemory>
        ensures said { IfOk result (λ heard.
            heard ≡ (opened (opn_of (opn_head_at (input 0 body.now))) self.old.assembly).heard) }
        ensures state { OnOk result (self.new
            ≡ with_assembly (opened (opn_of (opn_head_at (input 0 body.now))) self.old.assembly).assembly self.old) }
        ensures unchanged { OnErr result (self.new ≡ self.old) }
    {
        match read_opn(alloc, body) {
            Ok(chunk) => {
                let follows = self.take_number(chunk.number);
                Ok(Some(Heard::Opening {
                    channel: chunk.channel,
                    follows,
                    request: chunk.request,
                    body: chunk.body,
                }))
            }
            Err(ValueFault::OutOfMemory) => Err(OutOfMemory),
            Err(_) => Ok(Some(Heard::Fault {
                code: BAD_DECODING_ERROR,
            })),
        }
    }

    /// Takes an OPN's number where it follows the last one, and tells whether it does.
    fn take_number(&mut self, number: u32) -> bool
        ensures follows { result ≡ takes_number number self.old.assembly.last }
        ensures state { self.new ≡ with_assembly
            (number_taken (takes_number number self.old.assembly.last) number self.old.assembly) self.old }
    {
        self.assembler.take_number(0, number).is_ok()
    }

    /// How many bytes a MSG, a CLO or an OPN may have, as the other end's limits say.
    pub fn most_body(&self) -> usize
        ensures limit { result ≡ limit_of self.now.sending }
        ensures bound { result ≤ 1048576 }
    {
        self.sender.most_body()
    }

    /// Whether a body of so many bytes is put: then `obey` puts it, or answers want of memory. Channel, token and
    /// sequence numbers don't change it.
    pub fn fits(&self, kind: Kind, size: usize) -> bool
        ensures { result ≡ fits kind size self.now.sending }
    {
        match kind {
            Kind::Hel | Kind::Ack | Kind::Err => true,
            Kind::Opn | Kind::Msg | Kind::Clo => size <= self.sender.most_body(),
        }
    }

    /// Obeys an order. A message's bytes are appended to those that weren't taken.
    ///
    /// # Errors
    ///
    /// `TooLarge` exactly where a message is to be put that doesn't fit. After an error no bytes were put and no number
    /// was used up; the next message is put with its own channel and token all the same.
    pub fn obey(&mut self, alloc: Global, order: &Order) -> Result<(), ChannelFault>
        ensures { Obeys result order.now self.old self.new }
    {
        match order {
            Order::Put(wire) => self.put(alloc, wire),
            Order::Limit(limits) => {
                self.sender
                    .limit(limits.size(), limits.max_message(), limits.max_chunks());
                Ok(())
            }
            Order::Renew { channel, token } => {
                self.assembler.renew(*channel, *token);
                Ok(())
            }
        }
    }

    #[tactic(auto, unfolding(crate::specs::Orders::put_on))]
    fn put(&mut self, alloc: Global, wire: &Wire) -> Result<(), ChannelFault>
        ensures { Obeys result (order.Put wire.now) self.old self.new }
    {
        wire.keeps();
        self.sender.renew(wire.channel(), wire.token());
        let kind = wire.kind();
        match kind {
            Kind::Hel | Kind::Ack | Kind::Err => {
                write_frame(alloc, kind, wire.body(), &mut self.out)?;
                Ok(())
            }
            Kind::Opn | Kind::Msg | Kind::Clo => {
                match self
                    .sender
                    .put(alloc, kind, wire.request(), wire.body(), &mut self.out)
                {
                    Ok(()) => Ok(()),
                    Err(PutFault::TooLarge { size, limit }) => {
                        Err(ChannelFault::TooLarge { size, limit })
                    }
                    Err(PutFault::OutOfMemory) => Err(ChannelFault::OutOfMemory),
                }
            }
        }
    }

    /// Lets go of what came and is no whole message; nothing is awaited any more. The bytes to be sent stay.
    pub fn shut(&mut self, alloc: Global)
        ensures { self.new ≡ shut self.old }
    {
        self.framer = Framer::new(alloc);
        self.assembler = Assembler::new(alloc, 0, 0);
    }

    /// The bytes that were put and not taken.
    pub fn out(&self) -> &[u8]
        ensures { result.now ≡ self.now.out }
    {
        self.out.as_slice()
    }

    /// Gives the bytes that were put and not taken.
    pub fn take_out(&mut self, alloc: Global) -> Vec<u8>
        ensures bytes { result.items ≡ self.old.out }
        ensures state { self.new ≡ record self.old { out = [] } }
    {
        mem::replace(&mut self.out, Vec::new(alloc))
    }

    /// How many bytes are held of what came and is no whole message: none where nothing is heard, and never more than
    /// `MOST_HELD`, whatever came.
    pub fn held(&self, ear: Ear) -> usize
        ensures bytes { result ≡ held_in ear self.now }
        ensures bound { result ≤ 1114111 }
    {
        if ear.is_deaf() {
            0
        } else {
            self.framer.rest() + self.assembler.partial()
        }
    }
}
