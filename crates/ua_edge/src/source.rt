ghost use Rattle.std.specs.Prelude.{◌≡◌, ◌≢◌, ◌↔◌, ℕ, ◌≤◌, ◌<◌, List, Option, Some, length, IsTrue};
ghost use Rattle.ua_edge.specs.Calls.{Rose, is_failing, counted};
ghost use Rattle.ua_edge.specs.Bytes.{Takes, TakesWithin};

use crate::calls::Calls;
use std::marker::Model;

/// What a `take` answers.
#[derive(Clone, Copy, Debug, PartialEq, Eq)]
pub enum Took {
    /// So many bytes stand at the front of the slice, at least one where the slice has room.
    Bytes(usize),
    /// There are no more bytes.
    End,
    /// The outside failed; the count of faults rose.
    Failed,
}

/// Where bytes come from.
pub trait Source {
    /// The bytes that are left, where the source tells them.
    ghost left: { Self → Option (List ℕ) };

    /// How many faults there were so far.
    ghost faults: { Self → ℕ };

    /// Moves the next bytes to the front of the slice.
    fn take(&mut self, to: &mut [u8]) -> Took
        ensures within { TakesWithin result (length to.new) }
        ensures content { Takes (left self.old) (left self.new) result to.new }
        ensures count { faults self.old ≤ faults self.new }
        ensures failed { result ≡ Took.Failed → Rose (faults self.old) (faults self.new) };
}

/// A source over bytes in memory. Calls are numbered from 1, and those in its list fail.
#[derive(Debug, Drop)]
pub struct MemSource {
    bytes: Vec<u8>,
    place: usize,
    most: usize,
    calls: Calls,
}

impl Model for MemSource {
    ghost use Rattle.std.specs.Prelude.{ℕ, ◌≤◌, ◌<◌, length, drop};
    ghost use Rattle.ua_edge.specs.Calls.{InMemory};

    ghost Value = { InMemory };

    ghost view = { λ s. record { bytes = drop s.place s.bytes.items; most = s.most; calls = s.calls } };

    ghost invariant = { λ s. (s.place ≤ length s.bytes.items) × (0 < s.most) };
}

impl MemSource {
    /// A source of these bytes, whose calls of these numbers are to fail. It takes no memory.
    pub fn new(bytes: Vec<u8>, failing: Vec<u64>) -> MemSource
        ensures bytes { result.bytes ≡ bytes.items }
        ensures calls { result.calls ≡ record { calls = 0; failing = failing.items; faults = 0 } }
    {
        MemSource {
            bytes,
            place: 0,
            most: usize::MAX,
            calls: Calls::new(failing),
        }
    }

    /// The same source, giving at most `most` bytes a call.
    pub fn in_pieces(mut self, most: usize) -> MemSource
        requires { 0 < most }
        ensures { result ≡ record self { most = most } }
    {
        self.most = most;
        self
    }

    /// A `take` that is not to fail.
    fn take_bytes(&mut self, to: &mut [u8]) -> Took
        ensures within { TakesWithin result (length to.new) }
        ensures content { Takes (Some self.old.bytes) (Some self.new.bytes) result to.new }
        ensures calls { self.new.calls ≡ self.old.calls }
        ensures works { result ≢ Took.Failed }
    {
        let (_, left) = self.bytes.as_slice().split_at(self.place);
        if left.is_empty() {
            return Took::End;
        }
        let count = left.len().min(to.len()).min(self.most);
        to[..count].copy_from_slice(&left[..count]);
        self.place += count;
        Took::Bytes(count)
    }
}

impl Source for MemSource {
    ghost left = { λ s. Some s.bytes };

    ghost faults = { λ s. s.calls.faults };

    fn take(&mut self, to: &mut [u8]) -> Took
        ensures within { TakesWithin result (length to.new) }
        ensures content { Takes (Some self.old.bytes) (Some self.new.bytes) result to.new }
        ensures count { self.old.calls.faults ≤ self.new.calls.faults }
        ensures failed { result ≡ Took.Failed → Rose self.old.calls.faults self.new.calls.faults }
        ensures calls { self.new.calls ≡ counted self.old.calls }
        ensures fails { (result ≡ Took.Failed) ↔ IsTrue (is_failing self.old.calls) }
    {
        if self.calls.next_fails() {
            Took::Failed
        } else {
            self.take_bytes(to)
        }
    }
}
