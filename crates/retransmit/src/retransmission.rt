ghost use Rattle.std.specs.Prelude.{◌≡◌, ◌≤◌, ◌↔◌, [], ◌∷◌, ◌++◌, Some, None, length, filter, not, ◌==◌, option_copied, IfOk, IsOk, IsErr, OnOk, OnErr};
ghost use Rattle.circular_buffer.specs.Buffer.{buffer};
ghost use Rattle.retransmit.specs.Kept.{message_of, numbers_of, with_sent, without};
ghost use Rattle.retransmit.specs.Turn.{turned};

use circular_buffer::HeapCircularBuffer;
use std::alloc::Global;
use std::error::Error;
use std::fmt;
use std::marker::Model;
use ua_base::OutOfMemory;

/// How many messages are kept at the most.
pub const MOST_KEPT: usize = 64;

/// No message of that number is kept.
#[derive(Clone, Copy, Debug, PartialEq, Eq)]
pub struct Unknown;

impl fmt::Display for Unknown {
    ghost use Rattle.std.specs.Prelude.{Some, codes};

    ghost output = { λ _. Some (codes "no message of that number is kept") };

    fn fmt<W: fmt::Write>(&self, f: &mut fmt::Formatter<W>) -> fmt::Result {
        f.write_str("no message of that number is kept")
    }
}

impl Error for Unknown {}

/// A message with the sequence number under which it was sent.
#[derive(Debug, Drop)]
pub struct Sent<M: Drop> {
    /// Its sequence number.
    pub number: u32,
    /// The message as it was sent.
    pub message: M,
}

/// The messages that were sent and are not acknowledged, the last `MOST_KEPT` of them at the most, in the order of
/// their sending. Each is under its sequence number.
#[derive(Debug, Drop)]
pub struct Kept<M: Drop> {
    ring: HeapCircularBuffer<Sent<M>>,
}

impl<M: Drop> Model for Kept<M> {
    ghost use Rattle.std.specs.Prelude.{◌≡◌, ◌≤◌, List, length};
    ghost use Rattle.retransmit.specs.declared.retransmission.Sent.{Sent};

    ghost Value = { List (Sent M) };

    ghost view = { λ k. k.ring.items };

    ghost invariant = { λ k. (k.ring.capacity ≡ 64) × (length k.ring.items ≤ 64) };
}

/// Moves the first message to the end, or out where it is of this number.
fn turn<M: Drop>(ring: &mut HeapCircularBuffer<Sent<M>>, number: u32)
    requires { length ring.old.items ≤ ring.old.capacity }
    ensures turned { ring.new ≡ buffer (turned number ring.old.items) ring.old.capacity }
    ensures within { length ring.new.items ≤ ring.new.capacity }
{
    if let Some(first) = ring.pop_front() {
        if first.number != number {
            ring.push_back(first);
        }
    }
}

/// Takes the message of this number out, if there is one: the ring is turned once round.
fn take_out<M: Drop>(ring: &mut HeapCircularBuffer<Sent<M>>, number: u32)
    requires { length ring.old.items ≤ ring.old.capacity }
    ensures out { ring.new ≡ buffer (without number ring.old.items) ring.old.capacity }
    ensures within { length ring.new.items ≤ ring.new.capacity }
{
    for _i in 0..ring.len() {
        turn(ring, number);
    }
}

impl<M: Drop> Kept<M> {
    /// Nothing kept yet, with the room for all that it will ever keep.
    pub fn new(alloc: Global) -> Result<Kept<M>, OutOfMemory>
        ensures { IfOk result (λ kept. kept ≡ []) }
    {
        let ring = HeapCircularBuffer::with_capacity(alloc, MOST_KEPT)?;
        Ok(Kept { ring })
    }

    /// Keeps a message that is sent. It takes the place of the one that is kept under the same number, if there is
    /// one; where one more than `MOST_KEPT` would be kept, the oldest goes.
    pub fn send(&mut self, number: u32, message: M) -> Result<(), OutOfMemory>
        ensures sent { self.new ≡ with_sent number message self.old }
        ensures given { message_of number self.new ≡ Some message }
        ensures always { IsOk result }
    {
        let ring = &mut self.ring;
        take_out(ring, number);
        ring.push_back(Sent { number, message });
        Ok(())
    }

    /// Takes out the message of this number, which the client has acknowledged (OPC 10000-4, 5.13.5). It takes no
    /// memory.
    ///
    /// # Errors
    /// `Unknown` exactly where no message of this number is kept; nothing changes then.
    pub fn ack(&mut self, number: u32) -> Result<(), Unknown>
        ensures ok { OnOk result (self.new ≡ without number self.old) }
        ensures gone { message_of number self.new ≡ None }
        ensures unknown { IsErr result ↔ (message_of number self.old ≡ None) }
        ensures unchanged { OnErr result (self.new ≡ self.old) }
    {
        if self.get(number).is_none() {
            return Err(Unknown);
        }
        take_out(&mut self.ring, number);
        Ok(())
    }

    /// The message that is kept under this number, as Republish gives it (OPC 10000-4, 5.13.6). It takes no memory.
    pub fn get(&self, number: u32) -> Option<&M>
        ensures { option_copied result ≡ message_of number self.now }
    {
        for sent in self.ring.iter() {
            if sent.number == number {
                return Some(&sent.message);
            }
        }
        None
    }

    /// Appends the available sequence numbers, those of the kept messages in the order of their sending (OPC
    /// 10000-4, 5.13.5). Where memory is refused the list is as it was.
    pub fn numbers(&self, to: &mut Vec<u32>) -> Result<(), OutOfMemory>
        ensures ok { OnOk result (to.new.items ≡ to.old.items ++ numbers_of self.now) }
        ensures err { OnErr result (to.new.items ≡ to.old.items) }
    {
        to.reserve(self.ring.len())?;
        for sent in self.ring.iter() {
            to.push_reserved(sent.number);
        }
        Ok(())
    }
}
