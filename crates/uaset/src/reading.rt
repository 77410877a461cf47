//! What a command reads.

ghost use Rattle.std.specs.Prelude.{◌≡◌, ◌+◌, ◌≤◌, ◌<◌, ◌^◌, ℕ, Err, Some, None, IsSome, length, IfOk};
ghost use Rattle.ua_edge.specs.Calls.{Rose};
ghost use Rattle.uaset.specs.Commands.{reads};
ghost use Rattle.uaset.specs.Edges.{HasTaken, HasTakenAll, HadMore, IsDrained};
ghost use Rattle.uaset.specs.Run.{IsInput};

use crate::words::Command;
use std::alloc::Global;
use ua_edge::{Source, Took};

/// Why a source was not read to its end.
#[derive(Clone, Copy)]
pub(crate) enum ReadStop {
    Failed,
    /// There are more bytes than are read: that limit and 1.
    TooLong { bytes: u64 },
    OutOfMemory,
}

/// The most bytes of a scenario.
const MOST_SCENARIO_BYTES: usize = 67_108_864;

/// The most bytes that are shown.
const MOST_SHOWN_BYTES: usize = 1_048_576;

/// How many bytes are asked for at once.
const PIECE: usize = 65_536;

/// Reads a source to its end, or until it gave more than `most` bytes.
fn read_all<I: Source>(alloc: Global, input: &mut I, most: usize) -> Result<Vec<u8>, ReadStop>
    requires { most < 2 ^ 32 }
    ensures all { IfOk result (λ bytes. HasTakenAll (I.left input.old) (I.left input.new) bytes.items) }
    ensures most { IfOk result (λ bytes. length bytes.items ≤ most) }
    ensures count { I.faults input.old ≤ I.faults input.new }
    ensures failed { result ≡ Err ReadStop.Failed → Rose (I.faults input.old) (I.faults input.new) }
    ensures long { (bytes : ℕ) → result ≡ Err (ReadStop.TooLong bytes)
        → (bytes ≡ most + 1) × HadMore (I.left input.old) most }
{
    let mut bytes = Vec::new(alloc);
    let mut piece = [0u8; PIECE];
    while bytes.len() <= most {
        match input.take(&mut piece) {
            Took::Bytes(count) => {
                if bytes.extend_from_slice(&piece[..count]).is_err() {
                    return Err(ReadStop::OutOfMemory);
                }
            }
            Took::End => return Ok(bytes),
            Took::Failed => return Err(ReadStop::Failed),
        }
    }
    Err(ReadStop::TooLong {
        bytes: most as u64 + 1,
    })
}

impl Command {
    /// Reads all of the input, where the command reads.
    pub(crate) fn read<I: Source>(self, alloc: Global, input: &mut I) -> Result<Vec<u8>, ReadStop>
        ensures input { IfOk result (λ bytes. IsInput self (I.left input.old) bytes.items) }
        ensures most { IfOk result (λ bytes. (most : ℕ) → reads self ≡ Some most → length bytes.items ≤ most) }
        ensures drained { IfOk result (λ bytes. IsSome (reads self) → IsDrained (I.left input.old) (I.left input.new)) }
        ensures count { I.faults input.old ≤ I.faults input.new }
        ensures failed { result ≡ Err ReadStop.Failed
            → IsSome (reads self) × Rose (I.faults input.old) (I.faults input.new) }
        ensures long { (bytes : ℕ) → result ≡ Err (ReadStop.TooLong bytes)
            → (most : ℕ) × (reads self ≡ Some most) × (bytes ≡ most + 1) × HadMore (I.left input.old) most }
        ensures unread { reads self ≡ None → input.new ≡ input.old }
    {
        match self {
            Command::Replay => read_all(alloc, input, MOST_SCENARIO_BYTES),
            Command::ShowValue | Command::ShowStream => read_all(alloc, input, MOST_SHOWN_BYTES),
        }
    }
}
