ghost use Rattle.std.specs.Prelude.{◌≡◌, ◌≤◌, length};
ghost use Rattle.ua_channel.specs.State.{MayCarry};

use std::marker::Model;
use ua_chunks::{Body, Kind};

/// A whole message as it is put: everything that its chunks say but their sequence numbers.
#[derive(Debug, Drop)]
pub struct Wire {
    kind: Kind,
    channel: u32,
    token: u32,
    request: u32,
    body: Body,
}

impl Model for Wire {
    ghost use Rattle.std.specs.Prelude.{length};
    ghost use Rattle.ua_channel.specs.State.{MayCarry, WireState};

    ghost Value = { WireState };

    ghost view = { λ w. record {
      kind = w.kind;
      channel = w.channel;
      token = w.token;
      request = w.request;
      body = w.body;
    } };

    ghost invariant = { λ w. MayCarry w.kind (length w.body) };
}

impl Wire {
    /// A MSG, or an OPN or a CLO of at most 4096 bytes, with the channel, the token and the request that it is put
    /// with.
    /// A HEL, an ACK or an ERR has at most 65,528 bytes, and shows none of the three.
    pub fn new(kind: Kind, channel: u32, token: u32, request: u32, body: Vec<u8>) -> Wire
        requires { MayCarry kind (length body.items) }
        ensures { result ≡ record {
          kind = kind;
          channel = channel;
          token = token;
          request = request;
          body = body.items;
        } }
    {
        Wire {
            kind,
            channel,
            token,
            request,
            body: Body::new(body),
        }
    }

    pub fn kind(&self) -> Kind
        ensures { result ≡ self.now.kind }
    {
        self.kind
    }

    /// The channel's id, 0 where there is none yet.
    pub fn channel(&self) -> u32
        ensures { result ≡ self.now.channel }
    {
        self.channel
    }

    pub fn token(&self) -> u32
        ensures { result ≡ self.now.token }
    {
        self.token
    }

    /// The id of the request that it is, or that it answers.
    pub fn request(&self) -> u32
        ensures { result ≡ self.now.request }
    {
        self.request
    }

    /// The body of a greeting, or the spelling of a structure.
    pub fn body(&self) -> &[u8]
        ensures { result.now ≡ self.now.body }
    {
        self.body.bytes()
    }

    /// Does nothing: its clause says what is so of every message.
    pub fn keeps(&self)
        ensures { MayCarry self.now.kind (length self.now.body) }
    {
        let _ = &self.kind;
    }
}

/// What the other end takes: frames of at most `size` bytes, and messages of at most `max_message` bytes and
/// `max_chunks` chunks, where 0 names no limit (OPC 10000-6, 7.1.2.3).
#[derive(Debug, Drop)]
pub struct Limits {
    size: u32,
    max_message: u32,
    max_chunks: u32,
}

impl Model for Limits {
    ghost use Rattle.std.specs.Prelude.{◌≤◌};
    ghost use Rattle.ua_channel.specs.State.{LimitState};

    ghost Value = { LimitState };

    ghost view = { λ l. record { size = l.size; max_message = l.max_message; max_chunks = l.max_chunks } };

    ghost invariant = { λ l. 8192 ≤ l.size };
}

impl Limits {
    /// A frame's size is at least 8192, and one above 65,536 counts as 65,536.
    pub fn new(size: u32, max_message: u32, max_chunks: u32) -> Limits
        requires { 8192 ≤ size }
        ensures { result ≡ record { size = size; max_message = max_message; max_chunks = max_chunks } }
    {
        Limits {
            size,
            max_message,
            max_chunks,
        }
    }

    pub(crate) fn size(&self) -> u32
        ensures size { result ≡ self.now.size }
        ensures least { 8192 ≤ result }
    {
        self.size
    }

    pub(crate) fn max_message(&self) -> u32
        ensures { result ≡ self.now.max_message }
    {
        self.max_message
    }

    pub(crate) fn max_chunks(&self) -> u32
        ensures { result ≡ self.now.max_chunks }
    {
        self.max_chunks
    }
}

/// What an end is to do.
#[derive(Debug, Drop)]
pub enum Order {
    /// Put this message, in as many chunks as it needs.
    Put(Wire),
    /// From now on put what the other end takes.
    Limit(Limits),
    /// From now on take chunks of this channel and token, and of the former token until one with the new token came.
    Renew { channel: u32, token: u32 },
}
