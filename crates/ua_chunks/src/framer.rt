ghost use Rattle.std.specs.Prelude.{[], ◌∷◌, ◌≡◌, ◌<◌, ◌≤◌, ◌^◌, ◌++◌, length, IfOk, None, OnErr, OnOk};
ghost use Rattle.ua_chunks.specs.Frames.{fault_of, frame_at, moved, stage_of};
ghost use Rattle.ua_chunks.specs.Framing.{Awaits, Feeds, Fits, Gains, GainsFront, IsSettled, TellsFault};
ghost use Rattle.ua_chunks.specs.Framing.{after_feed, frames_of, new_framing, rest_of};

use crate::body::Body;
use crate::frame::{Frame, FrameFault, HEADER, Header, Stage};
use std::alloc::Global;
use std::marker::Model;
use std::mem;
use ua_base::OutOfMemory;

/// Finds the frames of a stream, which comes in pieces (OPC 10000-6, 7.1.2). It holds no frame that it gave: at most
/// 65,535 bytes.
#[derive(Debug, Drop)]
pub struct Framer {
    place: u64,
    held: Vec<u8>,
    missed: usize,
    failed: bool,
}

impl Model for Framer {
    ghost use Rattle.ua_chunks.specs.Framing.{Framing, IsSettled};

    ghost Value = { Framing };

    ghost view = { λ f. record { place = f.place; held = f.held.items; missed = f.missed; failed = f.failed } };

    ghost invariant = { λ f. IsSettled (record {
      place = f.place;
      held = f.held.items;
      missed = f.missed;
      failed = f.failed;
    }) };
}

impl Header {
    /// The frame of this header whose bytes are at a place.
    fn frame(self, alloc: Global, place: u64, bytes: &[u8]) -> Result<Frame, OutOfMemory>
        requires { 8 ≤ length bytes.now }
        ensures { IfOk result (λ frame. frame ≡ frame_at place self bytes.now) }
    {
        let body = Vec::from_slice(alloc, &bytes[HEADER..])?;
        Ok(Frame {
            place,
            kind: self.letters.kind,
            chunk: self.letters.chunk,
            body: Body::new(body),
        })
    }
}

impl Framer {
    /// Stands before the first byte of a stream.
    pub fn new(alloc: Global) -> Framer
        ensures { result ≡ new_framing }
    {
        Framer {
            place: 0,
            held: Vec::new(alloc),
            missed: 0,
            failed: false,
        }
    }

    /// Does nothing: its clauses say what is so of every framer.
    pub fn keeps(&self)
        ensures settled { IsSettled self.now }
        ensures place { self.now.place < 2 ^ 64 }
    {
        let _place = self.place;
    }

    /// How many bytes are in no whole frame, modulo 2^64: those behind a fault are counted too.
    pub fn rest(&self) -> usize
        ensures rest { result ≡ rest_of self.now }
        ensures bound { fault_of self.now.held ≡ None → result < 65536 }
    {
        self.held.len().wrapping_add(self.missed)
    }

    /// Appends each frame that becomes whole by these bytes.
    ///
    /// # Errors
    ///
    /// `Bad` where the eight bytes of a header break a rule, after the frames before it were appended. Each later call
    /// answers the same. Where memory was refused, only the first of the frames were appended, behind what the list
    /// had, and each later call answers want of memory and appends none.
    pub fn feed(
        &mut self,
        alloc: Global,
        bytes: &[u8],
        to: &mut Vec<Frame>,
    ) -> Result<(), FrameFault>
        ensures { Feeds result self.old bytes.now self.new to.old.items to.new.items }
    {
        if self.failed {
            return Err(FrameFault::OutOfMemory);
        }
        if self.take_in(alloc, bytes, to).is_err() {
            self.failed = true;
            return Err(FrameFault::OutOfMemory);
        }
        self.answer()
    }

    /// The fault that the held bytes show.
    fn answer(&self) -> Result<(), FrameFault>
        ensures { TellsFault result self.now }
    {
        match Stage::of(&self.held) {
            Stage::Breaks(code) => Err(FrameFault::Bad {
                place: self.place,
                code,
            }),
            _ => Ok(()),
        }
    }

    fn take_in(
        &mut self,
        alloc: Global,
        bytes: &[u8],
        to: &mut Vec<Frame>,
    ) -> Result<(), OutOfMemory>
        ensures ok { OnOk result (self.new ≡ after_feed bytes.now self.old) }
        ensures frames { OnOk result (to.new.items ≡ to.old.items ++ frames_of bytes.now self.old) }
        ensures part { OnErr result (GainsFront (frames_of bytes.now self.old) to.old.items to.new.items) }
    {
        let mut rest = bytes;
        while !rest.is_empty() {
            rest = self.step(alloc, rest, to)?;
        }
        self.stand();
        Ok(())
    }

    /// No bytes change nothing.
    fn stand(&self)
        ensures state { after_feed [] self.now ≡ self.now }
        ensures frames { frames_of [] self.now ≡ [] }
    {
        let _ = &self.place;
    }

    /// Takes in some first bytes, and gives those that are left.
    fn step<'a>(
        &mut self,
        alloc: Global,
        bytes: &'a [u8],
        to: &mut Vec<Frame>,
    ) -> Result<&'a [u8], OutOfMemory>
        requires { 0 < length bytes.now }
        ensures state { IfOk result (λ rest. after_feed rest.now self.new ≡ after_feed bytes.now self.old) }
        ensures frames { IfOk result (λ rest.
            Gains (frames_of bytes.now self.old) to.old.items to.new.items (frames_of rest.now self.new)) }
        ensures shorter { IfOk result (λ rest. length rest.now < length bytes.now) }
        ensures part { OnErr result (to.new.items ≡ to.old.items) }
    {
        let (front, rest) = bytes.split_at(self.portion(bytes.len()));
        self.fill(alloc, front, to)?;
        Ok(rest)
    }

    /// How many of so many bytes are taken in at once: up to the end of the header or of the frame, or all after a
    /// fault.
    fn portion(&self, count: usize) -> usize
        requires { 0 < count }
        ensures at_most { result ≤ count }
        ensures some { 0 < result }
        ensures fits { Fits result (stage_of self.now.held) }
    {
        match Stage::of(&self.held) {
            Stage::Waits(missing) => missing.min(count),
            _ => count,
        }
    }

    /// Takes in bytes that go no further than the end of the header or of the frame, or all after a fault.
    fn fill(&mut self, alloc: Global, bytes: &[u8], to: &mut Vec<Frame>) -> Result<(), OutOfMemory>
        requires { Fits (length bytes.now) (stage_of self.old.held) }
        ensures ok { OnOk result (self.new ≡ after_feed bytes.now self.old) }
        ensures frames { OnOk result (to.new.items ≡ to.old.items ++ frames_of bytes.now self.old) }
        ensures part { OnErr result (to.new.items ≡ to.old.items) }
    {
        match Stage::of(&self.held) {
            Stage::Waits(_) => self.extend(alloc, bytes, to),
            _ => {
                self.missed = self.missed.wrapping_add(bytes.len());
                Ok(())
            }
        }
    }

    fn extend(
        &mut self,
        alloc: Global,
        bytes: &[u8],
        to: &mut Vec<Frame>,
    ) -> Result<(), OutOfMemory>
        requires { Awaits (length bytes.now) (stage_of self.old.held) }
        ensures ok { OnOk result (self.new ≡ after_feed bytes.now self.old) }
        ensures frames { OnOk result (to.new.items ≡ to.old.items ++ frames_of bytes.now self.old) }
        ensures part { OnErr result (to.new.items ≡ to.old.items) }
    {
        let mut held = mem::replace(&mut self.held, Vec::new(alloc));
        held.extend_from_slice(bytes)?;
        match Stage::of(&held) {
            Stage::Whole(header) => {
                self.finish(alloc, header, held, to)?;
                Ok(())
            }
            _ => {
                self.held = held;
                Ok(())
            }
        }
    }

    /// Appends the frame of this header that these bytes are.
    fn finish(
        &mut self,
        alloc: Global,
        header: Header,
        mut bytes: Vec<u8>,
        to: &mut Vec<Frame>,
    ) -> Result<(), OutOfMemory>
        requires long { 8 ≤ length bytes.items }
        requires empty { self.old.held ≡ [] }
        ensures ok { OnOk result (self.new ≡ record self.old { place = moved self.old.place header.size; held = [] }) }
        ensures frames { OnOk result (to.new.items ≡ to.old.items ++ frame_at self.old.place header bytes.items ∷ []) }
        ensures part { OnErr result (to.new.items ≡ to.old.items) }
    {
        let frame = header.frame(alloc, self.place, &bytes)?;
        to.push(frame)?;
        self.place = self.place.wrapping_add(header.size as u64);
        bytes.clear();
        self.held = bytes;
        Ok(())
    }
}
