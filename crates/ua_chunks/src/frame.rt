ghost use Rattle.std.specs.Prelude.{◌≡◌, ◌≤◌, length, take};
ghost use Rattle.ua_chunks.specs.Frames.{chunk_of, header_of, judged_header, kind_of, letter, letters, sized};
ghost use Rattle.ua_chunks.specs.Frames.{stage_of, type_of, typed};

use crate::body::Body;
use byteorder::{ByteOrder, LittleEndian};
use std::alloc::{AllocError, AllocFailed};
use std::fmt;
use thiserror::Error;
use ua_base::OutOfMemory;
use ua_base::status::{
    BAD_DECODING_ERROR, BAD_TCP_MESSAGE_TOO_LARGE, BAD_TCP_MESSAGE_TYPE_INVALID,
};

/// How many bytes a frame's header has.
pub(crate) const HEADER: usize = 8;

/// The largest size of a frame, its header counted.
pub const MOST_FRAME: u32 = 65_536;

/// The kind of a frame, by its first three letters (OPC 10000-6, 6.7.2.2 and 7.1.2.2).
#[derive(Clone, Copy, Debug, PartialEq, Eq)]
pub enum Kind {
    /// Hello, a connection's first frame.
    Hel,
    /// Acknowledge, the answer to it.
    Ack,
    /// Error, which ends a connection.
    Err,
    /// OpenSecureChannel.
    Opn,
    /// A message on a secure channel.
    Msg,
    /// CloseSecureChannel.
    Clo,
}

impl Kind {
    /// The three letters.
    pub(crate) fn letters(self) -> &'static str
        ensures { result.now ≡ letters self }
    {
        match self {
            Kind::Hel => "HEL",
            Kind::Ack => "ACK",
            Kind::Err => "ERR",
            Kind::Opn => "OPN",
            Kind::Msg => "MSG",
            Kind::Clo => "CLO",
        }
    }

    /// The kind that three letters say.
    fn of(three: &[u8]) -> Option<Kind>
        ensures { result ≡ kind_of three.now }
    {
        if three == Kind::Hel.letters().as_bytes() {
            Some(Kind::Hel)
        } else if three == Kind::Ack.letters().as_bytes() {
            Some(Kind::Ack)
        } else if three == Kind::Err.letters().as_bytes() {
            Some(Kind::Err)
        } else if three == Kind::Opn.letters().as_bytes() {
            Some(Kind::Opn)
        } else if three == Kind::Msg.letters().as_bytes() {
            Some(Kind::Msg)
        } else if three == Kind::Clo.letters().as_bytes() {
            Some(Kind::Clo)
        } else {
            None
        }
    }
}

impl fmt::Display for Kind {
    ghost use Rattle.std.specs.Prelude.{Some};
    ghost use Rattle.ua_chunks.specs.Frames.{letters};

    ghost output = { λ k. Some (letters k) };

    fn fmt<W: fmt::Write>(&self, f: &mut fmt::Formatter<W>) -> fmt::Result {
        f.write_str(self.letters())
    }
}

/// Which part of a message a frame is, by its fourth letter (OPC 10000-6, 6.7.2.2).
#[derive(Clone, Copy, Debug, PartialEq, Eq)]
pub enum Chunk {
    /// The last part.
    Final,
    /// A part before the last.
    Middle,
    /// The message was given up.
    Abort,
}

impl Chunk {
    /// The fourth letter.
    pub(crate) fn letter(self) -> &'static str
        ensures { result.now ≡ letter self }
    {
        match self {
            Chunk::Final => "F",
            Chunk::Middle => "C",
            Chunk::Abort => "A",
        }
    }

    /// The part of a message that one letter says.
    fn of(one: &[u8]) -> Option<Chunk>
        ensures { result ≡ chunk_of one.now }
    {
        if one == Chunk::Final.letter().as_bytes() {
            Some(Chunk::Final)
        } else if one == Chunk::Middle.letter().as_bytes() {
            Some(Chunk::Middle)
        } else if one == Chunk::Abort.letter().as_bytes() {
            Some(Chunk::Abort)
        } else {
            None
        }
    }
}

impl fmt::Display for Chunk {
    ghost use Rattle.std.specs.Prelude.{Some};
    ghost use Rattle.ua_chunks.specs.Frames.{letter};

    ghost output = { λ c. Some (letter c) };

    fn fmt<W: fmt::Write>(&self, f: &mut fmt::Formatter<W>) -> fmt::Result {
        f.write_str(self.letter())
    }
}

/// A whole frame.
#[derive(Debug, Drop)]
pub struct Frame {
    /// Where its first byte stands among all bytes of its stream, modulo 2^64.
    pub place: u64,
    pub kind: Kind,
    pub chunk: Chunk,
    /// What stands behind the header.
    pub body: Body,
}

/// Why no further frame comes.
#[derive(Clone, Copy, Debug, PartialEq, Eq, Error)]
pub enum FrameFault {
    /// The frame whose first byte is at `place` of the stream, modulo 2^64, breaks a rule; `code` is the status code
    /// that says which kind of rule.
    #[error("bad frame at byte {place}")]
    Bad { place: u64, code: u32 },
    /// Memory was refused.
    #[error("out of memory")]
    OutOfMemory,
}

impl From<OutOfMemory> for FrameFault {
    ghost use Rattle.std.specs.Prelude.{◌≡◌};
    ghost use Rattle.ua_chunks.specs.declared.frame.FrameFault.TheVariants as faults;

    ghost from_gives = { λ _ fault. fault ≡ faults.OutOfMemory };

    fn from(_error: OutOfMemory) -> FrameFault {
        FrameFault::OutOfMemory
    }
}

/// What the first four letters say.
#[derive(Clone, Copy, Debug, PartialEq, Eq)]
pub(crate) struct Letters {
    pub kind: Kind,
    pub chunk: Chunk,
}

impl Letters {
    /// What four letters say, if they are those of a frame.
    fn of(four: &[u8]) -> Option<Letters>
        requires { length four.now ≡ 4 }
        ensures { result ≡ type_of four.now }
    {
        let (three, one) = four.split_at(3);
        match (Kind::of(three), Chunk::of(one)) {
            (Some(kind), Some(chunk)) => Letters::typed(kind, chunk),
            _ => None,
        }
    }

    /// Only a MSG may be in several chunks.
    fn typed(kind: Kind, chunk: Chunk) -> Option<Letters>
        ensures { result ≡ typed kind chunk }
    {
        match (kind, chunk) {
            (Kind::Msg, _) | (_, Chunk::Final) => Some(Letters { kind, chunk }),
            _ => None,
        }
    }
}

/// A header that breaks no rule.
#[derive(Clone, Copy, Debug, PartialEq, Eq)]
pub(crate) struct Header {
    pub letters: Letters,
    /// The size of the whole frame.
    pub size: usize,
}

impl Header {
    /// The header that these eight bytes are, or the code of the first rule that they break.
    #[tactic(auto, unfolding(crate::specs::Frames::header_of))]
    fn of(head: &[u8]) -> Result<Header, u32>
        requires { length head.now ≡ 8 }
        ensures { result ≡ header_of head.now }
    {
        let (letters, size) = head.split_at(4);
        Header::of_letters(Letters::of(letters), LittleEndian::read_u32(size))
    }

    fn of_letters(letters: Option<Letters>, size: u32) -> Result<Header, u32>
        ensures { result ≡ judged_header letters size }
    {
        let Some(letters) = letters else {
            return Err(BAD_TCP_MESSAGE_TYPE_INVALID);
        };
        if size < 8 {
            Err(BAD_DECODING_ERROR)
        } else if size > MOST_FRAME {
            Err(BAD_TCP_MESSAGE_TOO_LARGE)
        } else {
            Ok(Header {
                letters,
                size: size as usize,
            })
        }
    }
}

/// What bytes are that begin where a frame begins.
#[derive(Clone, Copy, Debug, PartialEq, Eq)]
pub(crate) enum Stage {
    /// A front of a frame: so many bytes are missing until more can be said of them.
    Waits(usize),
    /// Their header breaks a rule, of this code.
    Breaks(u32),
    /// They begin with a whole frame of this header.
    Whole(Header),
}

impl Stage {
    pub(crate) fn of(bytes: &[u8]) -> Stage
        ensures { result ≡ stage_of bytes.now }
    {
        if bytes.len() < HEADER {
            return Stage::Waits(HEADER - bytes.len());
        }
        match Header::of(&bytes[..HEADER]) {
            Err(code) => Stage::Breaks(code),
            Ok(header) => header.stage(bytes.len()),
        }
    }
}

impl Header {
    /// What so many bytes are that begin with this header.
    fn stage(self, count: usize) -> Stage
        ensures { result ≡ sized count self }
    {
        if count < self.size {
            Stage::Waits(self.size - count)
        } else {
            Stage::Whole(self)
        }
    }
}
