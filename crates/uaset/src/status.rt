ghost use Rattle.std.specs.Prelude.{◌≡◌, IfOk, string_bytes};
ghost use Rattle.uaset.specs.Status.{code_of, status_text};

use scenario::{FaultKind, ScenarioFault};
use std::alloc::Global;
use std::fmt;
use ua_base::OutOfMemory;

/// How a command ended.
#[derive(Clone, Copy, Debug, PartialEq, Eq)]
pub enum Status {
    /// The work is done and all is written.
    Ok,
    /// The words are no command: the place of the first word that fits none, from 0, or the count of words where they
    /// end early.
    Usage { place: usize },
    /// The input is no scenario: its first faulty line, from 1, and what is wrong with it.
    Scenario { line: u64, kind: FaultKind },
    /// The input isn't what is to be shown: the place of the first fault, from 0, and its code (OPC 10000-4, 7.34).
    Show { place: u64, code: u32 },
    /// The source failed.
    ReadFault,
    /// The sink failed; what is written is a front of the answer.
    WriteFault,
    /// The source gave more than the command reads: that limit and 1.
    TooLong { bytes: u64 },
    /// There was no memory; what is written is a front of the answer.
    Memory,
}

/// A status code of OPC UA in eight hexadecimal digits.
#[derive(Clone, Copy)]
struct CodeText(u32);

impl fmt::Display for CodeText {
    ghost use Rattle.std.specs.Prelude.{Some};
    ghost use Rattle.uaset.specs.Status.{code_text};

    ghost output = { λ code. Some (code_text code.0) };

    fn fmt<W: fmt::Write>(&self, f: &mut fmt::Formatter<W>) -> fmt::Result {
        write!(f, "{:08X}", self.0)
    }
}

impl fmt::Display for Status {
    ghost use Rattle.std.specs.Prelude.{Some};
    ghost use Rattle.uaset.specs.Status.{status_text};

    ghost output = { λ status. Some (status_text status) };

    fn fmt<W: fmt::Write>(&self, f: &mut fmt::Formatter<W>) -> fmt::Result {
        match *self {
            Status::Ok => Ok(()),
            Status::Usage { place } => write!(f, "usage: word {place}"),
            Status::Scenario { line, kind } => write!(f, "line {line}: {kind}"),
            Status::Show { place, code } => { write!(f, "byte {place}: {}", CodeText(code)) },
            Status::ReadFault => f.write_str("read fault"),
            Status::WriteFault => f.write_str("write fault"),
            Status::TooLong { bytes } => write!(f, "too long: {bytes}"),
            Status::Memory => f.write_str("out of memory"),
        }
    }
}

/// The exit status of the program.
pub fn code_of(status: &Status) -> u8
    ensures { result ≡ code_of status.now }
{
    match *status {
        Status::Ok => 0,
        Status::Usage { .. } => 2,
        Status::Scenario { .. } => 3,
        Status::Show { .. } => 6,
        Status::ReadFault => 4,
        Status::WriteFault => 5,
        Status::TooLong { .. } => 7,
        Status::Memory => 12,
    }
}

/// What the program says of the status; nothing of `Ok`.
pub fn words_of(alloc: Global, status: &Status) -> Result<String, OutOfMemory>
    ensures { IfOk result (λ words. string_bytes words ≡ status_text status.now) }
{
    Ok(status.to_string(alloc)?)
}
