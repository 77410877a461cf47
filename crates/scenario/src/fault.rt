use std::alloc::{AllocError, AllocFailed};
use std::error::Error;
use std::fmt;
use thiserror::Error as ErrorText;
use ua_base::OutOfMemory;

/// What is wrong with a line. Of several, the first in this order is told.
#[derive(Clone, Copy, Debug, PartialEq, Eq)]
pub enum FaultKind {
    /// The first line is missing, or its first word is not `set`; or the second line's is not `items`.
    MissingSet,
    /// There are more lines than a scenario may have.
    TooLong,
    /// The line has none of the forms, or not one that may stand here.
    BadLine,
    /// A number is outside its range.
    OutOfRange,
    /// The set has no server of this number.
    NoSuchServer,
    /// There is no item of this number.
    NoSuchItem,
    /// The server is stopped.
    NotRunning,
    /// The server is running.
    AlreadyRunning,
    /// The server's boot number can't rise any more.
    TooManyStarts,
    /// The source is full.
    TooMany,
    /// The change is not later than the item's last one.
    TimeNotRising,
    /// The item has this value already.
    SameValue,
    /// No listener is left, or as many listen as may, or all ids are used.
    NoListener,
    /// No listener of this id listens.
    NoSuchListener,
    /// The last line is not `end`.
    NoEnd,
}

impl fmt::Display for FaultKind {
    ghost use Rattle.std.specs.Prelude.{Some};
    ghost use Rattle.scenario.specs.Texts.{kind_text};

    ghost output = { λ kind. Some (kind_text kind) };

    fn fmt<W: fmt::Write>(&self, f: &mut fmt::Formatter<W>) -> fmt::Result {
        f.write_str(match self {
            FaultKind::MissingSet => "missing set",
            FaultKind::TooLong => "too long",
            FaultKind::BadLine => "bad line",
            FaultKind::OutOfRange => "out of range",
            FaultKind::NoSuchServer => "no such server",
            FaultKind::NoSuchItem => "no such item",
            FaultKind::NotRunning => "not running",
            FaultKind::AlreadyRunning => "already running",
            FaultKind::TooManyStarts => "too many starts",
            FaultKind::TooMany => "too many changes",
            FaultKind::TimeNotRising => "time not rising",
            FaultKind::SameValue => "same value",
            FaultKind::NoListener => "no listener",
            FaultKind::NoSuchListener => "no such listener",
            FaultKind::NoEnd => "no end",
        })
    }
}

impl Error for FaultKind {}

/// The first faulty line of a scenario, counted from 1, and what is wrong with it.
#[derive(Clone, Copy, Debug, PartialEq, Eq)]
pub struct ScenarioFault {
    pub line: u64,
    pub kind: FaultKind,
}

impl fmt::Display for ScenarioFault {
    ghost use Rattle.std.specs.Prelude.{Some};
    ghost use Rattle.scenario.specs.Texts.{fault_text};

    ghost output = { λ fault. Some (fault_text fault) };

    fn fmt<W: fmt::Write>(&self, f: &mut fmt::Formatter<W>) -> fmt::Result {
        let line = self.line;
        let kind = self.kind;
        write!(f, "line {line}: {kind}")
    }
}

impl Error for ScenarioFault {}

/// Why a scenario was not read.
#[derive(Clone, Copy, Debug, PartialEq, Eq, ErrorText)]
pub enum ReadError {
    /// The text is no scenario.
    #[error("{0}")]
    Fault(ScenarioFault),
    /// Memory was refused.
    #[error("out of memory")]
    OutOfMemory,
}

impl From<OutOfMemory> for ReadError {
    ghost use Rattle.std.specs.Prelude.{◌≡◌};
    ghost use Rattle.scenario.specs.declared.fault.ReadError.TheVariants as errors;

    ghost from_gives = { λ _ error. error ≡ errors.OutOfMemory };

    fn from(_error: OutOfMemory) -> ReadError {
        ReadError::OutOfMemory
    }
}
