ghost use Rattle.std.specs.Prelude.{◌≡◌, ◌≢◌, ◌↔◌, ℕ, ◌≤◌, ◌<◌, List, Option, Some, length, IsTrue};
ghost use Rattle.ua_edge.specs.Calls.{Rose, is_failing, counted};
ghost use Rattle.ua_edge.specs.Bytes.{Puts, PutsWithin};

use crate::calls::Calls;
use std::marker::Model;

/// What a `put` answers.
#[derive(Clone, Copy, Debug, PartialEq, Eq)]
pub enum Put {
    /// So many of the bytes were written, from the front; at least one where there are some.
    Wrote(usize),
    /// The outside failed, and nothing was written; the count of faults rose.
    Failed,
    /// There was no memory, and nothing was written.
    OutOfMemory,
}

/// Where bytes go.
pub trait Sink {
    /// The bytes written so far, where the sink tells them.
    ghost written: { Self → Option (List ℕ) };

    /// How many faults there were so far.
    ghost faults: { Self → ℕ };

    /// Writes the bytes, or the first of them.
    fn put(&mut self, bytes: &[u8]) -> Put
        ensures within { PutsWithin result (length bytes.now) }
        ensures content { Puts (written self.old) (written self.new) result bytes.now }
        ensures count { faults self.old ≤ faults self.new }
        ensures failed { result ≡ Put.Failed → Rose (faults self.old) (faults self.new) };
}

/// A sink into memory. Calls are numbered from 1, and those in its list fail.
#[derive(Debug, Drop)]
pub struct MemSink {
    bytes: Vec<u8>,
    most: usize,
    calls: Calls,
}

impl Model for MemSink {
    ghost use Rattle.std.specs.Prelude.{ℕ, ◌<◌};
    ghost use Rattle.ua_edge.specs.Calls.{InMemory};

    ghost Value = { InMemory };

    ghost view = { λ s. record { bytes = s.bytes.items; most = s.most; calls = s.calls } };

    ghost invariant = { λ s. 0 < s.most };
}

impl MemSink {
    /// A sink that goes on after these bytes, whose calls of these numbers are to fail. It takes no memory.
    pub fn new(bytes: Vec<u8>, failing: Vec<u64>) -> MemSink
        ensures bytes { result.bytes ≡ bytes.items }
        ensures calls { result.calls ≡ record { calls = 0; failing = failing.items; faults = 0 } }
    {
        MemSink {
            bytes,
            most: usize::MAX,
            calls: Calls::new(failing),
        }
    }

    /// The same sink, taking at most `most` bytes a call.
    pub fn in_pieces(mut self, most: usize) -> MemSink
        requires { 0 < most }
        ensures { result ≡ record self { most = most } }
    {
        self.most = most;
        self
    }

    /// What was written.
    pub fn as_bytes(&self) -> &[u8]
        ensures { result.now ≡ self.now.bytes }
    {
        self.bytes.as_slice()
    }

    /// A `put` that is not to fail.
    fn put_bytes(&mut self, bytes: &[u8]) -> Put
        ensures within { PutsWithin result (length bytes.now) }
        ensures content { Puts (Some self.old.bytes) (Some self.new.bytes) result bytes.now }
        ensures calls { self.new.calls ≡ self.old.calls }
        ensures works { result ≢ Put.Failed }
    {
        let count = bytes.len().min(self.most);
        match self.bytes.extend_from_slice(&bytes[..count]) {
            Ok(()) => Put::Wrote(count),
            Err(_) => Put::OutOfMemory,
        }
    }
}

impl Sink for MemSink {
    ghost written = { λ s. Some s.bytes };

    ghost faults = { λ s. s.calls.faults };

    fn put(&mut self, bytes: &[u8]) -> Put
        ensures within { PutsWithin result (length bytes.now) }
        ensures content { Puts (Some self.old.bytes) (Some self.new.bytes) result bytes.now }
        ensures count { self.old.calls.faults ≤ self.new.calls.faults }
        ensures failed { result ≡ Put.Failed → Rose self.old.calls.faults self.new.calls.faults }
        ensures calls { self.new.calls ≡ counted self.old.calls }
        ensures fails { (result ≡ Put.Failed) ↔ IsTrue (is_failing self.old.calls) }
    {
        if self.calls.next_fails() {
            Put::Failed
        } else {
            self.put_bytes(bytes)
        }
    }
}
