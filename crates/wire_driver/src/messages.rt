//! Messages of a secure channel that come of chunks.

ghost use Rattle.std.specs.Prelude.{◌<◌};

use crate::frames::{feed, put_answer, put_frame_fault};
use rows::{Stop, bytes_of, number, positive, put, put_bar, put_bytes};
use std::alloc::Global;
use ua_chunks::{
    Assembler, Body, Chunk, Frame, FrameFault, Framer, Kind, Message, OpnChunk, read_opn,
};
use ua_values::ValueFault;

/// Appends what an assembler answered: a message's request and body, `-` for none, or the fault.
fn put_taken(
    alloc: Global,
    answer: &Result<Option<Message>, FrameFault>,
    to: &mut String,
) -> Result<(), Stop> {
    put_bar(to)?;
    match answer {
        Ok(Some(message)) => {
            let request = message.request;
            put(to, format!(in alloc; "{request} ")?.as_str())?;
            put_bytes(alloc, message.body.bytes(), to)
        }
        Ok(None) => { put(to, "-") }
        Err(fault) => put_frame_fault(alloc, *fault, to),
    }
}

/// An assembler, and where the next frame stands.
#[derive(Drop)]
struct Taking {
    assembler: Assembler,
    place: u64,
}

/// The bytes of channel, token, number and request.
fn head_of(alloc: Global, numbers: [u32; 4]) -> Result<Vec<u8>, Stop> {
    let mut bytes = Vec::new(alloc);
    for number in numbers {
        bytes.extend_from_slice(&number.to_le_bytes())?;
    }
    Ok(bytes)
}

/// The letter of a chunk.
fn chunk_of(word: &str) -> Result<Chunk, Stop> {
    match word {
        "F" => Ok(Chunk::Final),
        "C" => Ok(Chunk::Middle),
        "A" => Ok(Chunk::Abort),
        _ => Err(Stop::BadLine),
    }
}

impl Taking {
    /// Adds a MSG at the next place.
    fn add(
        &mut self,
        alloc: Global,
        chunk: Chunk,
        body: Vec<u8>,
        to: &mut String,
    ) -> Result<(), Stop> {
        let frame = Frame {
            place: self.place,
            kind: Kind::Msg,
            chunk,
            body: Body::new(body),
        };
        put_taken(alloc, &self.assembler.add(alloc, &frame), to)
    }

    /// Adds a MSG of these numbers and bytes of its own.
    fn add_chunk(
        &mut self,
        alloc: Global,
        chunk: Chunk,
        numbers: [u32; 4],
        own: &[u8],
        to: &mut String,
    ) -> Result<(), Stop> {
        let mut body = head_of(alloc, numbers)?;
        body.extend_from_slice(own)?;
        self.add(alloc, chunk, body, to)
    }

    /// Adds so many empty middle chunks of channel 1, token 1 and request 1, from this number on.
    fn add_many(
        &mut self,
        alloc: Global,
        from: u32,
        count: u32,
        to: &mut String,
    ) -> Result<(), Stop> {
        let mut answers = String::new(alloc);
        let mut silent: u32 = 0;
        for more in 0..count {
            let head = [1, 1, from.saturating_add(more), 1];
            answers.clear();
            self.add(alloc, Chunk::Middle, head_of(alloc, head)?, &mut answers)?;
            if answers.as_str() == "-" {
                silent = silent.saturating_add(1);
            }
        }
        put_bar(to)?;
        put(to, format!(in alloc; "{silent} times -")?.as_str())
    }

    /// Takes the number of an OPN.
    fn take(&mut self, alloc: Global, number: u32, to: &mut String) -> Result<(), Stop> {
        put_bar(to)?;
        match self.assembler.take_number(self.place, number) {
            Ok(()) => { put(to, "taken") }
            Err(fault) => put_frame_fault(alloc, fault, to),
        }
    }

    /// Appends how many bytes are held of a message that isn't whole. No frame is taken.
    fn put_partial(&self, alloc: Global, to: &mut String) -> Result<(), Stop> {
        put_bar(to)?;
        let count = self.assembler.partial();
        put(to, format!(in alloc; "holds {count}")?.as_str())
    }

    fn renew(&mut self, channel: u32, token: u32, to: &mut String) -> Result<(), Stop> {
        self.assembler.renew(channel, token);
        put_bar(to)?;
        put(to, "renewed")
    }

    /// Adds the MSG of these words: its chunk and numbers, and its own bytes.
    fn add_words(
        &mut self,
        alloc: Global,
        words: [&str; 5],
        own: &[&str],
        to: &mut String,
    ) -> Result<(), Stop> {
        let [chunk, channel, token, sequence, request] = words;
        let chunk = chunk_of(chunk)?;
        let numbers = [
            number(channel)?,
            number(token)?,
            number(sequence)?,
            number(request)?,
        ];
        self.add_chunk(alloc, chunk, numbers, &bytes_of(alloc, own)?, to)
    }

    /// Takes the frame, or the frames, that the words of a step say.
    fn take_step(&mut self, alloc: Global, words: &[&str], to: &mut String) -> Result<(), Stop> {
        match words {
            ["renew", channel, token] => self.renew(number(channel)?, number(token)?, to),
            ["opn", count] => self.take(alloc, number(count)?, to),
            ["many", from, count] => self.add_many(alloc, number(from)?, number(count)?, to),
            ["raw", body @ ..] => self.add(alloc, Chunk::Final, bytes_of(alloc, body)?, to),
            [chunk, channel, token, sequence, request, own @ ..] => self.add_words(
                alloc,
                [chunk, channel, token, sequence, request],
                own,
                to,
            ),
            _ => Err(Stop::BadLine),
        }
    }

    /// Does what the words of a step say.
    fn do_step(&mut self, alloc: Global, words: &[&str], to: &mut String) -> Result<(), Stop> {
        if let ["partial"] = words {
            return self.put_partial(alloc, to);
        }
        self.take_step(alloc, words, to)?;
        self.place = self.place.saturating_add(1);
        Ok(())
    }

    fn do_steps(&mut self, alloc: Global, steps: &[&str], to: &mut String) -> Result<(), Stop> {
        for step in steps {
            self.do_step(alloc, &parts_of(alloc, step)?, to)?;
        }
        Ok(())
    }
}

/// The parts of a word between commas.
pub(crate) fn parts_of(alloc: Global, word: &str) -> Result<Vec<&str>, Stop> {
    let mut parts = Vec::new(alloc);
    for part in word.split(',') {
        parts.push(part)?;
    }
    Ok(parts)
}

/// Answers `take`: does the steps with an assembler of this channel and token; the first frame stands at byte 100,
/// each one a byte further.
pub(crate) fn answer_steps(alloc: Global, words: &[&str], to: &mut String) -> Result<(), Stop> {
    let [channel, token, steps @ ..] = words else {
        return Err(Stop::BadLine);
    };
    let channel = number(channel)?;
    let token = number(token)?;
    let mut taking = Taking {
        assembler: Assembler::new(alloc, channel, token),
        place: 100,
    };
    taking.do_steps(alloc, steps, to)
}

// ---- a stream

/// A channel whose token rises by one with each OPN after the first.
#[derive(Drop)]
struct Channel {
    assembler: Assembler,
    channel: u32,
    token: u32,
    is_open: bool,
}

impl Channel {
    /// Takes an OPN's number, and renews the channel where it is open.
    fn open(
        &mut self,
        alloc: Global,
        place: u64,
        opn: &OpnChunk,
        to: &mut String,
    ) -> Result<(), Stop> {
        if let Err(fault) = self.assembler.take_number(place, opn.number) {
            return put_frame_fault(alloc, fault, to);
        }
        if self.is_open {
            self.token = self.token.saturating_add(1);
            self.assembler.renew(self.channel, self.token);
        }
        self.is_open = true;
        let OpnChunk {
            channel,
            policy: _,
            number,
            request,
            body,
        } = opn;
        put(
            to,
            format!(in alloc; "OPN {channel} {number} {request} ")?.as_str(),
        )?;
        put_bytes(alloc, body.bytes(), to)
    }

    fn open_read(
        &mut self,
        alloc: Global,
        place: u64,
        read: &Result<OpnChunk, ValueFault>,
        to: &mut String,
    ) -> Result<(), Stop> {
        match read {
            Ok(opn) => self.open(alloc, place, opn, to),
            Err(_) => { put(to, "OPN does not read") }
        }
    }

    fn add_all(&mut self, alloc: Global, frames: &[Frame], to: &mut String) -> Result<(), Stop> {
        for frame in frames {
            self.add(alloc, frame, to)?;
        }
        Ok(())
    }

    /// Appends what a frame brings.
    fn add(&mut self, alloc: Global, frame: &Frame, to: &mut String) -> Result<(), Stop> {
        match frame.kind {
            Kind::Msg | Kind::Clo => put_taken(alloc, &self.assembler.add(alloc, frame), to),
            Kind::Opn => {
                put_bar(to)?;
                self.open_read(alloc, frame.place, &read_opn(alloc, frame.body.bytes()), to)
            }
            kind => {
                put_bar(to)?;
                put(to, format!(in alloc; "{kind} ")?.as_str())?;
                put_bytes(alloc, frame.body.bytes(), to)
            }
        }
    }
}

/// The messages of a stream that comes in pieces of so many bytes: of HEL, ACK and ERR the body, of an OPN the
/// channel, number, request and body, of a MSG or CLO the request and body, where a message ends. Each OPN after the
/// first renews the token by one.
fn tell_stream(
    alloc: Global,
    channel: &mut Channel,
    cut: usize,
    bytes: &[u8],
    to: &mut String,
) -> Result<(), Stop>
    requires { 0 < cut }
{
    let mut framer = Framer::new(alloc);
    let mut frames = Vec::new(alloc);
    let answer = feed(alloc, &mut framer, cut, bytes, &mut frames);
    channel.add_all(alloc, &frames, to)?;
    put_answer(alloc, answer, to)
}

/// Answers `stream`.
pub(crate) fn answer_stream(alloc: Global, words: &[&str], to: &mut String) -> Result<(), Stop> {
    let [channel, token, cut, digits @ ..] = words else {
        return Err(Stop::BadLine);
    };
    let channel = number(channel)?;
    let token = number(token)?;
    let cut = positive(cut)?;
    let mut state = Channel {
        assembler: Assembler::new(alloc, channel, token),
        channel,
        token,
        is_open: false,
    };
    tell_stream(alloc, &mut state, cut, &bytes_of(alloc, digits)?, to)
}
