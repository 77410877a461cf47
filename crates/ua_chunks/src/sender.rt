ghost use Rattle.std.specs.Prelude.{◌≡◌, ◌≤◌, ◌<◌, ◌+◌, ◌^◌, ◌++◌, None, Some, length, IfOk, OnErr, OnOk};
ghost use Rattle.ua_chunks.specs.declared.frame.Kind.TheVariants as kind;
ghost use Rattle.ua_values.specs.Written.{written_text};
ghost use Rattle.ua_chunks.specs.Bodies.{written_opn_head};
ghost use Rattle.ua_chunks.specs.Sending.{IsSending, MayPut, Puts, Sending, after_parts, after_put, limit_of};
ghost use Rattle.ua_chunks.specs.Sending.{limited, message_parts, new_sending, none_policy, opn_head_of};
ghost use Rattle.ua_chunks.specs.Sending.{opn_part, part, part_bytes, parts_bytes, put_bytes, in_chunk};
ghost use Rattle.ua_chunks.specs.Sending.{with_limits, written_head};

use crate::frame::{Chunk, Kind, MOST_FRAME};
use crate::message::{MOST_CHUNKS, MOST_MESSAGE};
use crate::writing::{put_frame, put_start};
use std::alloc::Global;
use std::marker::Model;
use thiserror::Error;
use ua_base::{OutOfMemory, next_chunk};
use ua_values::{append, write_uint32};

/// How many bytes of a frame are not a message's: the frame's header and the chunk's.
const HEADERS: u32 = 24;

/// The policy of channels that sign and encrypt nothing (OPC 10000-7).
pub const NONE_POLICY: &[u8] = b"http://opcfoundation.org/UA/SecurityPolicy#None";

/// Why a message was not put.
#[derive(Clone, Copy, Debug, PartialEq, Eq, Error)]
pub enum PutFault {
    /// The body has `size` bytes, and may have `limit`.
    #[error("a message of {size} bytes, where {limit} are the most")]
    TooLarge { size: u64, limit: u64 },
    /// Memory was refused.
    #[error("out of memory")]
    OutOfMemory,
}

/// Cuts messages into the chunks of a secure channel (OPC 10000-6, 6.7.2). Its sequence numbers begin at 1.
#[derive(Debug, Drop)]
pub struct Sender {
    channel: u32,
    token: u32,
    size: u32,
    max_message: u32,
    max_chunks: u32,
    next: u32,
}

impl Model for Sender {
    ghost use Rattle.std.specs.Prelude.{◌≤◌};
    ghost use Rattle.ua_chunks.specs.Sending.{Sending};

    ghost Value = { Sending };

    ghost view = { λ s. record {
      channel = s.channel;
      token = s.token;
      size = s.size;
      max_message = s.max_message;
      max_chunks = s.max_chunks;
      next = s.next;
    } };

    ghost invariant = { λ s. (8192 ≤ s.size) × (s.size ≤ 65536) × (s.next ≤ 4294966272) };
}

/// A number, or a limit that is less: 0 is no limit.
fn limited(number: u32, limit: u32) -> u32
    ensures { result ≡ limited number limit }
{
    if limit == 0 {
        number
    } else {
        number.min(limit)
    }
}

/// Appends the policy's URI.
fn put_policy(to: &mut Vec<u8>) -> Result<(), OutOfMemory>
    ensures { OnOk result (to.new.items ≡ to.old.items ++ written_text (Some none_policy)) }
{
    write_uint32(NONE_POLICY.len() as u32, to)?;
    to.extend_from_slice(NONE_POLICY)?;
    Ok(())
}

/// Appends a ByteString that is null.
fn put_null(to: &mut Vec<u8>) -> Result<(), OutOfMemory>
    ensures { OnOk result (to.new.items ≡ to.old.items ++ written_text None) }
{
    write_uint32(u32::MAX, to)?;
    Ok(())
}

impl Sender {
    /// Puts chunks of a channel with this token, in frames of at most `size` bytes; a size above 65,536 counts as
    /// 65,536. The other end takes `max_message` bytes and `max_chunks` chunks of a message; 0 says that it names no
    /// limit.
    pub fn new(channel: u32, token: u32, size: u32, max_message: u32, max_chunks: u32) -> Sender
        requires { 8192 ≤ size }
        ensures { result ≡ new_sending channel token size max_message max_chunks }
    {
        Sender {
            channel,
            token,
            size: size.min(MOST_FRAME),
            max_message,
            max_chunks,
            next: 1,
        }
    }

    /// Later chunks are in frames of at most `size` bytes, and the other end takes `max_message` bytes and `max_chunks`
    /// chunks of a message, as in `new`; the numbers go on. It takes no memory.
    pub fn limit(&mut self, size: u32, max_message: u32, max_chunks: u32)
        requires { 8192 ≤ size }
        ensures { self.new ≡ with_limits size max_message max_chunks self.old }
    {
        self.size = size.min(MOST_FRAME);
        self.max_message = max_message;
        self.max_chunks = max_chunks;
    }

    /// Does nothing: its clause says what is so of every sender.
    pub fn keeps(&self)
        ensures { IsSending self.now }
    {
        let _channel = self.channel;
        let _token = self.token;
    }

    /// Later chunks have these; their numbers go on. It takes no memory.
    pub fn renew(&mut self, channel: u32, token: u32)
        ensures { self.new ≡ record self.old { channel = channel; token = token } }
    {
        self.channel = channel;
        self.token = token;
    }

    /// How many bytes of a message stand in one chunk.
    fn in_chunk(&self) -> usize
        ensures bytes { result ≡ in_chunk self.now }
        ensures least { 8168 ≤ result }
        ensures most { result ≤ 65512 }
    {
        (self.size - HEADERS) as usize
    }

    /// How many bytes a message may have: the least of 1,048,576, what the other end takes of a message, and what 64
    /// chunks have room for, or as many as the other end takes.
    pub fn most_body(&self) -> usize
        ensures limit { result ≡ limit_of self.now }
        ensures bound { result ≤ 1048576 }
    {
        let bytes = limited(MOST_MESSAGE, self.max_message) as usize;
        let chunks = limited(MOST_CHUNKS, self.max_chunks) as usize;
        bytes.min(self.in_chunk() * chunks)
    }

    /// Appends the chunks of a message: a MSG, or an OPN or a CLO of at most 4096 bytes. An OPN has the policy None,
    /// and neither certificate nor thumbprint.
    ///
    /// # Errors
    ///
    /// `TooLarge` where the body has more bytes than a message may have, as `most_body` says. A message that was
    /// refused uses up no sequence number.
    pub fn put(
        &mut self,
        alloc: Global,
        kind: Kind,
        request: u32,
        body: &[u8],
        to: &mut Vec<u8>,
    ) -> Result<(), PutFault>
        requires { MayPut kind (length body.now) }
        ensures { Puts result kind request body.now self.old self.new to.old.items to.new.items }
    {
        let size = body.len() as u64;
        let limit = self.most_body() as u64;
        if size > limit {
            return Err(PutFault::TooLarge { size, limit });
        }
        match self.append(alloc, kind, request, body, to) {
            Ok(next) => {
                self.next = next;
                Ok(())
            }
            Err(OutOfMemory) => Err(PutFault::OutOfMemory),
        }
    }

    /// Appends the chunks, and gives the number of the chunk after them.
    fn append(
        &self,
        alloc: Global,
        kind: Kind,
        request: u32,
        body: &[u8],
        to: &mut Vec<u8>,
    ) -> Result<u32, OutOfMemory>
        requires { MayPut kind (length body.now) }
        ensures ok { OnOk result (to.new.items ≡ to.old.items ++ put_bytes kind request body.now self.now) }
        ensures next { IfOk result (λ next.
            record self.now { next = next } ≡ after_put kind request body.now self.now) }
        ensures number { IfOk result (λ next. next ≤ 4294966272) }
        ensures unchanged { OnErr result (to.new.items ≡ to.old.items) }
    {
        let mut built = Vec::new(alloc);
        let next = match kind {
            Kind::Opn => self.put_opn(alloc, request, body, &mut built)?,
            _ => self.put_chunks(kind, request, body, &mut built)?,
        };
        append(&built, to)?;
        Ok(next)
    }

    /// Appends a body in as many chunks as it needs. Want of memory leaves what was appended by then.
    fn put_chunks(
        &self,
        kind: Kind,
        request: u32,
        body: &[u8],
        to: &mut Vec<u8>,
    ) -> Result<u32, OutOfMemory>
        ensures ok { OnOk result (to.new.items
            ≡ to.old.items ++ parts_bytes (message_parts kind request body.now self.now)) }
        ensures next { IfOk result (λ next. record self.now { next = next }
            ≡ after_parts (message_parts kind request body.now self.now) self.now) }
        ensures number { IfOk result (λ next. next ≤ 4294966272) }
    {
        let most = self.in_chunk();
        let mut number = self.next;
        let mut rest = body;
        while rest.len() > most {
            let (front, back) = rest.split_at(most);
            self.put_chunk(kind, Chunk::Middle, number, request, front, to)?;
            number = next_chunk(number);
            rest = back;
        }
        self.put_chunk(kind, Chunk::Final, number, request, rest, to)?;
        Ok(next_chunk(number))
    }

    /// Appends one chunk of this number.
    fn put_chunk(
        &self,
        kind: Kind,
        chunk: Chunk,
        number: u32,
        request: u32,
        bytes: &[u8],
        to: &mut Vec<u8>,
    ) -> Result<(), OutOfMemory>
        requires { length bytes.now ≤ 65512 }
        ensures { OnOk result (to.new.items ≡ to.old.items
            ++ part_bytes (part kind chunk request bytes.now (record self.now { next = number }))) }
    {
        put_start(kind, chunk, 16 + bytes.len(), to)?;
        self.put_head(number, request, to)?;
        to.extend_from_slice(bytes)?;
        Ok(())
    }

    /// Appends what stands in front of a chunk's bytes.
    fn put_head(&self, number: u32, request: u32, to: &mut Vec<u8>) -> Result<(), OutOfMemory>
        ensures { OnOk result (to.new.items
            ≡ to.old.items ++ written_head request (record self.now { next = number })) }
    {
        write_uint32(self.channel, to)?;
        write_uint32(self.token, to)?;
        write_uint32(number, to)?;
        write_uint32(request, to)?;
        Ok(())
    }

    /// Appends an OPN. Want of memory leaves what was appended by then.
    fn put_opn(
        &self,
        alloc: Global,
        request: u32,
        body: &[u8],
        to: &mut Vec<u8>,
    ) -> Result<u32, OutOfMemory>
        requires { length body.now ≤ 4096 }
        ensures ok { OnOk result (to.new.items ≡ to.old.items ++ part_bytes (opn_part request body.now self.now)) }
        ensures next { IfOk result (λ next.
            record self.now { next = next } ≡ after_put kind.Opn request body.now self.now) }
        ensures number { IfOk result (λ next. next ≤ 4294966272) }
    {
        let mut bytes = Vec::new(alloc);
        self.put_opn_head(request, &mut bytes)?;
        bytes.extend_from_slice(body)?;
        put_frame(Kind::Opn, Chunk::Final, &bytes, to)?;
        Ok(next_chunk(self.next))
    }

    /// Appends what stands in front of an OPN's own body.
    fn put_opn_head(&self, request: u32, to: &mut Vec<u8>) -> Result<(), OutOfMemory>
        ensures { OnOk result (to.new.items ≡ to.old.items ++ written_opn_head (opn_head_of request self.now)) }
    {
        write_uint32(self.channel, to)?;
        put_policy(to)?;
        put_null(to)?;
        put_null(to)?;
        write_uint32(self.next, to)?;
        write_uint32(request, to)?;
        Ok(())
    }
}
