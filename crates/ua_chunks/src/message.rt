ghost use Rattle.std.specs.Prelude.{◌≡◌, ◌≤◌, None, true, Err, IfOk, drop, length, OnErr, OnOk};
ghost use Rattle.ua_chunks.specs.Assembly.{Adds, IsAssembly, TakesNumber, fault_after, has_room, head_of};
ghost use Rattle.ua_chunks.specs.Assembly.{message_by, new_assembly, numbered, refusal, refusal_of, renewed};
ghost use Rattle.ua_chunks.specs.Assembly.{takes_number, takes_request, takes_token, with_chunk};
ghost use Rattle.ua_chunks.specs.Assembly.{without_message};
ghost use Rattle.ua_chunks.specs.declared.frame.FrameFault.TheVariants as faults;

use crate::body::Body;
use crate::frame::{Chunk, Frame, FrameFault};
use byteorder::{ByteOrder, LittleEndian};
use std::alloc::Global;
use std::marker::Model;
use std::mem;
use ua_base::OutOfMemory;
use ua_base::status::{
    BAD_DECODING_ERROR, BAD_SECURE_CHANNEL_TOKEN_UNKNOWN, BAD_SEQUENCE_NUMBER_INVALID,
    BAD_TCP_MESSAGE_TOO_LARGE, BAD_TCP_SECURE_CHANNEL_UNKNOWN,
};

/// How many chunks a message may have.
pub const MOST_CHUNKS: u32 = 64;

/// How many bytes the bodies of a message's chunks may have together.
pub const MOST_MESSAGE: u32 = 1_048_576;

/// How many bytes stand in a MSG or CLO between the frame's header and the body.
pub(crate) const CHUNK_HEAD: usize = 16;

/// A whole message of a secure channel.
#[derive(Debug, Drop)]
pub struct Message {
    /// The id of the request that it is, or that it answers.
    pub request: u32,
    /// The bodies of its chunks, one after the other.
    pub body: Body,
}

/// The fault that ended a channel's messages.
#[derive(Clone, Copy, Debug, PartialEq, Eq)]
pub(crate) struct MessageFault {
    pub place: u64,
    pub code: u32,
}

impl MessageFault {
    fn answer<T: Drop>(self) -> Result<T, FrameFault>
        ensures { result ≡ Err (faults.Bad self.place self.code) }
    {
        Err(FrameFault::Bad {
            place: self.place,
            code: self.code,
        })
    }
}

/// What stands in front of a chunk's body (OPC 10000-6, 6.7.2.3 and 6.7.2.4).
#[derive(Clone, Copy, Debug, PartialEq, Eq)]
pub(crate) struct ChunkHead {
    pub channel: u32,
    pub token: u32,
    pub number: u32,
    pub request: u32,
}

impl ChunkHead {
    /// The head that the first sixteen bytes are.
    fn of(bytes: &[u8]) -> ChunkHead
        requires { 16 ≤ length bytes.now }
        ensures { result ≡ head_of bytes.now }
    {
        ChunkHead {
            channel: LittleEndian::read_u32(bytes),
            token: LittleEndian::read_u32(&bytes[4..]),
            number: LittleEndian::read_u32(&bytes[8..]),
            request: LittleEndian::read_u32(&bytes[12..]),
        }
    }
}

/// Whether a chunk of this number may come after one of the last number.
fn takes_number(number: u32, last: Option<u32>) -> bool
    ensures { result ≡ takes_number number last }
{
    match last {
        None => true,
        Some(last) => {
            u64::from(number) == u64::from(last) + 1 || (last > 4_294_966_271 && number < 1024)
        }
    }
}

/// Makes messages of the chunks of one secure channel (OPC 10000-6, 6.7.2).
#[derive(Debug, Drop)]
pub struct Assembler {
    channel: u32,
    token: u32,
    former: Option<u32>,
    last: Option<u32>,
    chunks: u32,
    request: u32,
    body: Vec<u8>,
    fault: Option<MessageFault>,
}

impl Model for Assembler {
    ghost use Rattle.std.specs.Prelude.{◌≤◌, length};
    ghost use Rattle.ua_chunks.specs.Assembly.{Assembly};

    ghost Value = { Assembly };

    ghost view = { λ a. record {
      channel = a.channel;
      token = a.token;
      former = a.former;
      last = a.last;
      chunks = a.chunks;
      request = a.request;
      body = a.body.items;
      fault = a.fault;
    } };

    ghost invariant = { λ a. (a.chunks ≤ 64) × (length a.body.items ≤ 1048576) };
}

impl Assembler {
    /// Awaits the first chunk of a channel with this token.
    pub fn new(alloc: Global, channel: u32, token: u32) -> Assembler
        ensures { result ≡ new_assembly channel token }
    {
        Assembler {
            channel,
            token,
            former: None,
            last: None,
            chunks: 0,
            request: 0,
            body: Vec::new(alloc),
            fault: None,
        }
    }

    /// How many bytes of a message that isn't whole are held: at most 1,048,576.
    pub fn partial(&self) -> usize
        ensures bytes { result ≡ length self.now.body }
        ensures bound { result ≤ 1048576 }
    {
        self.body.len()
    }

    /// Does nothing: its clause says what is so of every assembler.
    pub fn keeps(&self)
        ensures { IsAssembly self.now }
    {
        let _channel = self.channel;
        let _token = self.token;
    }

    /// Later chunks must have these; their numbers go on. Where the channel stays, the former token is taken too until
    /// a chunk with the new one came. It takes no memory.
    pub fn renew(&mut self, channel: u32, token: u32)
        ensures { self.new ≡ renewed channel token self.old }
    {
        self.former = if channel == self.channel {
            Some(self.token)
        } else {
            None
        };
        self.channel = channel;
        self.token = token;
    }

    /// Takes the sequence number of the OPN frame at a place. It takes no memory.
    ///
    /// # Errors
    ///
    /// `Bad` with `Bad_SequenceNumberInvalid` where the number does not follow the last one; all stays as it was.
    pub fn take_number(&mut self, place: u64, number: u32) -> Result<(), FrameFault>
        ensures { TakesNumber result place number self.old self.new }
    {
        if takes_number(number, self.last) {
            self.last = Some(number);
            Ok(())
        } else {
            Err(FrameFault::Bad {
                place,
                code: BAD_SEQUENCE_NUMBER_INVALID,
            })
        }
    }

    /// Takes a MSG or a CLO, and gives the message that it ends.
    ///
    /// # Errors
    ///
    /// `Bad` where the frame breaks a rule, at the frame's place; each later call answers the same. Where memory was
    /// refused, all stays as it was.
    pub fn add(&mut self, alloc: Global, frame: &Frame) -> Result<Option<Message>, FrameFault>
        ensures { Adds result frame.now self.old self.new }
    {
        if let Some(fault) = self.fault_after(frame) {
            self.fault = Some(fault);
            return fault.answer();
        }
        match self.chunk(alloc, frame.chunk, frame.body.bytes()) {
            Ok(message) => Ok(message),
            Err(OutOfMemory) => Err(FrameFault::OutOfMemory),
        }
    }

    /// The first fault, which may be this frame's.
    fn fault_after(&self, frame: &Frame) -> Option<MessageFault>
        ensures { result ≡ fault_after frame.now self.now }
    {
        if self.fault.is_some() {
            return self.fault;
        }
        let code = self.refusal(frame.body.bytes())?;
        Some(MessageFault {
            place: frame.place,
            code,
        })
    }

    /// The code of the first rule that a chunk breaks.
    fn refusal(&self, bytes: &[u8]) -> Option<u32>
        ensures { result ≡ refusal bytes.now self.now }
    {
        if bytes.len() < CHUNK_HEAD {
            return Some(BAD_DECODING_ERROR);
        }
        self.refusal_of(ChunkHead::of(bytes), bytes.len() - CHUNK_HEAD)
    }

    fn refusal_of(&self, head: ChunkHead, count: usize) -> Option<u32>
        ensures { result ≡ refusal_of head count self.now }
    {
        if head.channel != self.channel {
            Some(BAD_TCP_SECURE_CHANNEL_UNKNOWN)
        } else if !self.takes_token(head.token) {
            Some(BAD_SECURE_CHANNEL_TOKEN_UNKNOWN)
        } else if !takes_number(head.number, self.last) {
            Some(BAD_SEQUENCE_NUMBER_INVALID)
        } else if !self.takes_request(head.request) {
            Some(BAD_DECODING_ERROR)
        } else if !self.has_room(count) {
            Some(BAD_TCP_MESSAGE_TOO_LARGE)
        } else {
            None
        }
    }

    fn takes_token(&self, token: u32) -> bool
        ensures { result ≡ takes_token token self.now }
    {
        token == self.token || self.former == Some(token)
    }

    fn takes_request(&self, request: u32) -> bool
        ensures { result ≡ takes_request request self.now }
    {
        self.chunks == 0 || request == self.request
    }

    /// Whether a chunk with so many bytes still belongs to the message.
    fn has_room(&self, count: usize) -> bool
        ensures { result ≡ has_room count self.now }
    {
        self.chunks < MOST_CHUNKS && self.body.len().saturating_add(count) <= MOST_MESSAGE as usize
    }

    /// Takes a chunk that breaks no rule.
    fn chunk(
        &mut self,
        alloc: Global,
        chunk: Chunk,
        bytes: &[u8],
    ) -> Result<Option<Message>, OutOfMemory>
        requires { refusal bytes.now self.old ≡ None }
        ensures state { OnOk result (self.new
            ≡ with_chunk chunk (head_of bytes.now) (drop 16 bytes.now) (numbered (head_of bytes.now) self.old)) }
        ensures message { IfOk result (λ message.
            message ≡ message_by chunk (head_of bytes.now) (drop 16 bytes.now) self.old) }
        ensures unchanged { OnErr result (self.new ≡ self.old) }
    {
        let head = ChunkHead::of(bytes);
        let message = self.part(alloc, chunk, head, &bytes[CHUNK_HEAD..])?;
        self.last = Some(head.number);
        if head.token == self.token {
            self.former = None;
        }
        Ok(message)
    }

    /// Takes the bytes of a chunk.
    fn part(
        &mut self,
        alloc: Global,
        chunk: Chunk,
        head: ChunkHead,
        bytes: &[u8],
    ) -> Result<Option<Message>, OutOfMemory>
        requires { has_room (length bytes.now) self.old ≡ true }
        ensures state { OnOk result (self.new ≡ with_chunk chunk head bytes.now self.old) }
        ensures message { IfOk result (λ message. message ≡ message_by chunk head bytes.now self.old) }
        ensures unchanged { OnErr result (self.new ≡ self.old) }
    {
        match chunk {
            Chunk::Middle => {
                self.body.extend_from_slice(bytes)?;
                self.chunks += 1;
                self.request = head.request;
                Ok(None)
            }
            Chunk::Final => {
                self.body.extend_from_slice(bytes)?;
                let body = mem::replace(&mut self.body, Vec::new(alloc));
                self.forget();
                Ok(Some(Message {
                    request: head.request,
                    body: Body::new(body),
                }))
            }
            Chunk::Abort => {
                self.forget();
                Ok(None)
            }
        }
    }

    /// Drops the message that was begun.
    fn forget(&mut self)
        ensures { self.new ≡ without_message self.old }
    {
        self.chunks = 0;
        self.request = 0;
        self.body.clear();
    }
}
