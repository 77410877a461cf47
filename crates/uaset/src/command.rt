//! What the program does.

ghost use Rattle.std.specs.Prelude.{◌≡◌, ◌↔◌, ◌+◌, ◌<◌, List, ℕ, Some, None, Ok, Err, ◌⊎◌, length, map, IsTrue, IsSome};
ghost use Rattle.ua_edge.specs.Calls.{Rose};
ghost use Rattle.scenario.specs.declared.fault.FaultKind.{FaultKind};
ghost use Rattle.uaset.specs.declared.answer.Refusal.TheVariants as refusals;
ghost use Rattle.uaset.specs.Commands.{answer_to, reads, reads_of};
ghost use Rattle.uaset.specs.Edges.{HadMore, IsDrained};
ghost use Rattle.uaset.specs.Run.{Answers, AnswersInPart, Gets, IsRefused, IsUntroubled, KeepsPromise};
ghost use Rattle.uaset.specs.Run.{is_silent, judges, listeners, status_after};
ghost use Rattle.uaset.specs.Words.{command_of};

use crate::answer::Refusal;
use crate::reading::ReadStop;
use crate::status::Status;
use crate::words::Command;
use crate::writing::{WriteStop, write_all};
use std::alloc::Global;
use ua_edge::{Sink, Source};

/// How many listeners a run may attach: there are none yet.
const LISTENERS: usize = 0;

/// Does what the words say: reads the input to its end, where the command reads, and writes what it answers. Nothing is
/// written before the whole answer is known.
pub fn run<I: Source, O: Sink>(
    alloc: Global,
    words: &[&str],
    input: &mut I,
    output: &mut O,
) -> Status
    ensures usage { (place : ℕ)
        → (result ≡ Status.Usage place) ↔ (command_of (map (λ w. w.now) words.now) ≡ Err place) }
    ensures ok { (c : Command) → command_of (map (λ w. w.now) words.now) ≡ Ok c → result ≡ Status.Ok
        → Answers listeners c (I.left input.old) (O.written output.old) (O.written output.new) }
    ensures means { (c : Command) → command_of (map (λ w. w.now) words.now) ≡ Ok c → result ≡ Status.Ok
        → KeepsPromise listeners c (I.left input.old) (O.written output.old) (O.written output.new) }
    ensures scenario { (c : Command) (line : ℕ) (kind : FaultKind) → command_of (map (λ w. w.now) words.now) ≡ Ok c
        → result ≡ Status.Scenario line kind
        → IsRefused listeners c (refusals.Scenario line kind) (I.left input.old) }
    ensures show { (c : Command) (place code : ℕ) → command_of (map (λ w. w.now) words.now) ≡ Ok c
        → result ≡ Status.Show place code
        → IsRefused listeners c (refusals.Show place code) (I.left input.old) }
    ensures read { result ≡ Status.ReadFault → IsSome (reads_of (command_of (map (λ w. w.now) words.now)))
        × Rose (I.faults input.old) (I.faults input.new) }
    ensures write { result ≡ Status.WriteFault → Rose (O.faults output.old) (O.faults output.new) }
    ensures long { (bytes : ℕ) → result ≡ Status.TooLong bytes
        → (most : ℕ) × (reads_of (command_of (map (λ w. w.now) words.now)) ≡ Some most) × (bytes ≡ most + 1)
        × HadMore (I.left input.old) most }
    ensures part { (c : Command) → command_of (map (λ w. w.now) words.now) ≡ Ok c → result ≡ Status.WriteFault
        → AnswersInPart listeners c (I.left input.old) (O.written output.old) (O.written output.new) }
    ensures memory { (c : Command) → command_of (map (λ w. w.now) words.now) ≡ Ok c → result ≡ Status.Memory
        → (output.new ≡ output.old)
        ⊎ AnswersInPart listeners c (I.left input.old) (O.written output.old) (O.written output.new) }
    ensures silent { IsTrue (is_silent result) → output.new ≡ output.old }
    ensures unread { reads_of (command_of (map (λ w. w.now) words.now)) ≡ None → input.new ≡ input.old }
    ensures drained { IsSome (reads_of (command_of (map (λ w. w.now) words.now))) → IsTrue (judges result)
        → IsDrained (I.left input.old) (I.left input.new) }

    // What comes where no fault is counted, or want of memory.
    ensures completes { (c : Command) (bytes text : List ℕ) → command_of (map (λ w. w.now) words.now) ≡ Ok c
        → Gets c (I.left input.old) bytes → answer_to listeners c bytes ≡ Ok text
        → IsUntroubled c (I.faults input.old) (I.faults input.new)
        → ¬ Rose (O.faults output.old) (O.faults output.new) → (result ≡ Status.Ok) ⊎ (result ≡ Status.Memory) }
    ensures refuses { (c : Command) (bytes : List ℕ) (refusal : Refusal)
        → command_of (map (λ w. w.now) words.now) ≡ Ok c
        → Gets c (I.left input.old) bytes → answer_to listeners c bytes ≡ Err refusal
        → IsUntroubled c (I.faults input.old) (I.faults input.new)
        → (result ≡ status_after refusal) ⊎ (result ≡ Status.Memory) }
    ensures ends_early { (c : Command) (most : ℕ) (bytes : List ℕ)
        → command_of (map (λ w. w.now) words.now) ≡ Ok c → reads c ≡ Some most
        → I.left input.old ≡ Some bytes → most < length bytes → ¬ Rose (I.faults input.old) (I.faults input.new)
        → (result ≡ Status.TooLong (most + 1)) ⊎ (result ≡ Status.Memory) }
{
    let command = match Command::of(words) {
        Ok(command) => command,
        Err(place) => return Status::Usage { place },
    };
    let bytes = match command.read(alloc, input) {
        Ok(bytes) => bytes,
        Err(ReadStop::Failed) => return Status::ReadFault,
        Err(ReadStop::TooLong { bytes }) => return Status::TooLong { bytes },
        Err(ReadStop::OutOfMemory) => return Status::Memory,
    };
    let text = match command.answer(alloc, bytes.as_slice(), LISTENERS) {
        Ok(text) => text,
        Err(Refusal::Scenario { line, kind }) => return Status::Scenario { line, kind },
        Err(Refusal::Show { place, code }) => return Status::Show { place, code },
        Err(Refusal::OutOfMemory) => return Status::Memory,
    };
    match write_all(output, text.as_slice()) {
        Ok(()) => Status::Ok,
        Err(WriteStop::Failed) => Status::WriteFault,
        Err(WriteStop::OutOfMemory) => Status::Memory,
    }
}
