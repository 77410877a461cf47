ghost use Rattle.std.specs.Prelude.{◌≡◌, ◌++◌, List, ℕ, OnOk, OnErr, IfOk, Some};
ghost use Rattle.set_model.specs.Line.{line_text};

use crate::stamp::Stamp;
use std::alloc::Global;
use std::fmt;
use std::marker::Model;
use ua_base::OutOfMemory;
use ua_base::status::OVERFLOW_BITS;

/// The written bytes of a value that is no whole number of 64 bits.
#[derive(Debug, Drop)]
pub struct UaRaw {
    bytes: Vec<u8>,
}

impl Model for UaRaw {
    ghost use Rattle.std.specs.Prelude.{List, ℕ};

    ghost Value = { List ℕ };

    ghost view = { λ r. r.bytes.items };
}

impl UaRaw {
    /// These bytes, as they are. It takes no memory.
    pub fn new(bytes: Vec<u8>) -> UaRaw
        ensures { result ≡ bytes.items }
    {
        UaRaw { bytes }
    }

    /// An equal value with bytes of its own.
    pub fn copy(&self, alloc: Global) -> Result<UaRaw, OutOfMemory>
        ensures { IfOk result (λ raw. raw ≡ self.now) }
    {
        let bytes = Vec::from_slice(alloc, self.as_bytes())?;
        Ok(UaRaw { bytes })
    }

    /// The bytes.
    pub fn as_bytes(&self) -> &[u8]
        ensures { result.now ≡ self.now }
    {
        self.bytes.as_slice()
    }
}

/// A value as the client delivers it.
#[derive(Debug, Drop)]
pub enum Seen {
    /// A Boolean or a whole number that fits 64 bits with sign.
    Whole(i64),
    /// Everything else: the written bytes of the Variant (OPC 10000-6, 5.2.2.16).
    Raw(UaRaw),
}

impl Seen {
    /// An equal value with bytes of its own.
    pub fn copy(&self, alloc: Global) -> Result<Seen, OutOfMemory>
        ensures { IfOk result (λ value. value ≡ self.now) }
    {
        match self {
            Seen::Whole(number) => Ok(Seen::Whole(*number)),
            Seen::Raw(raw) => Ok(Seen::Raw(raw.copy(alloc)?)),
        }
    }
}

/// One entry that reached the client (OPC 10000-4, 7.7, DataValue).
#[derive(Debug, Drop)]
pub struct Arrived {
    /// The source time with its picoseconds, if the entry has one.
    pub time: Option<Stamp>,
    /// The value; an absent one counts as the null Variant.
    pub value: Seen,
    /// The status code; an absent one is 0.
    pub status: u32,
}

/// Why values may be missing before a data line.
#[derive(Clone, Copy, Debug, PartialEq, Eq)]
pub enum GapCause {
    /// The server's stream began after the last data line may have been taken from another one.
    Late,
    /// The item's monitoring was off at a warm backup.
    Warm,
    /// The server was connected only after the others were lost.
    Cold,
    /// Messages of the subscription were lost.
    Lost,
    /// An entry before came without a source time.
    NoTime,
    /// The server's queue dropped values.
    Overflow,
}

impl fmt::Display for GapCause {
    ghost use Rattle.std.specs.Prelude.{Some};
    ghost use Rattle.set_model.specs.Line.{cause_text};

    ghost output = { λ cause. Some (cause_text cause) };

    fn fmt<W: fmt::Write>(&self, f: &mut fmt::Formatter<W>) -> fmt::Result {
        f.write_str(match self {
            GapCause::Late => "late",
            GapCause::Warm => "warm",
            GapCause::Cold => "cold",
            GapCause::Lost => "lost",
            GapCause::NoTime => "notime",
            GapCause::Overflow => "overflow",
        })
    }
}

/// One line of the client's log, or of the report that it becomes.
#[derive(Debug, Drop)]
pub enum LogLine {
    /// A change of the item was delivered.
    Delivered {
        item: u8,
        time: i64,
        pico: u16,
        value: Seen,
        status: u32,
    },
    /// Between the item's data lines before and after this one, values may be missing.
    Gap {
        item: u8,
        cause: GapCause,
    },
    /// The active server changed; 0 is none.
    Switch {
        from: u8,
        to: u8,
    },
    /// The server's link became ready.
    Ready {
        server: u8,
    },
    /// The server's link was lost.
    Lost {
        server: u8,
    },
    /// The server is of a redundancy that this client does not use.
    Unsupported {
        server: u8,
    },
    /// A listener was detached, after it heard so many data and gap lines.
    Heard {
        listener: u8,
        changes: u64,
        gaps: u64,
    },
    /// The end of a report, with the number of its data lines.
    Done {
        changes: u64,
    },
}

impl fmt::Display for Seen {
    ghost use Rattle.std.specs.Prelude.{Some};
    ghost use Rattle.set_model.specs.Line.{seen_text};

    ghost output = { λ value. Some (seen_text value) };

    fn fmt<W: fmt::Write>(&self, f: &mut fmt::Formatter<W>) -> fmt::Result {
        match self {
            Seen::Whole(number) => write!(f, "{number}"),
            Seen::Raw(raw) => write!(f, "x{raw}"),
        }
    }
}

impl fmt::Display for UaRaw {
    ghost use Rattle.std.specs.Prelude.{Some};
    ghost use Rattle.set_model.specs.Line.{raw_text};

    ghost output = { λ bytes. Some (raw_text bytes) };

    fn fmt<W: fmt::Write>(&self, f: &mut fmt::Formatter<W>) -> fmt::Result {
        for byte in self.bytes.as_slice() {
            let shown = HexByte(*byte);
            write!(f, "{shown}")?;
        }
        Ok(())
    }
}

/// A byte in two hexadecimal digits.
#[derive(Clone, Copy)]
struct HexByte(u8);

impl fmt::Display for HexByte {
    ghost use Rattle.std.specs.Prelude.{Some, false};
    ghost use Rattle.set_model.specs.Line.{hex};

    ghost output = { λ byte. Some (hex 2 false byte.0) };

    fn fmt<W: fmt::Write>(&self, f: &mut fmt::Formatter<W>) -> fmt::Result {
        write!(f, "{:02x}", self.0)
    }
}

/// The end of a data line: a space and the status in eight hexadecimal digits, where it says anything beside overflow.
#[derive(Clone, Copy)]
struct StatusSuffix(u32);

impl fmt::Display for StatusSuffix {
    ghost use Rattle.std.specs.Prelude.{Some};
    ghost use Rattle.set_model.specs.Line.{status_text};

    ghost output = { λ suffix. Some (status_text suffix.0) };

    fn fmt<W: fmt::Write>(&self, f: &mut fmt::Formatter<W>) -> fmt::Result {
        let shown = self.0 & !OVERFLOW_BITS;
        if shown == 0 {
            Ok(())
        } else {
            write!(f, " {shown:08X}")
        }
    }
}

impl fmt::Display for LogLine {
    ghost use Rattle.std.specs.Prelude.{Some};
    ghost use Rattle.set_model.specs.Line.{line_text};

    ghost output = { λ line. Some (line_text line) };

    fn fmt<W: fmt::Write>(&self, f: &mut fmt::Formatter<W>) -> fmt::Result {
        match self {
            LogLine::Delivered {
                item,
                time,
                pico,
                value,
                status,
            } => {
                let stamp = Stamp {
                    time: *time,
                    pico: *pico,
                };
                let suffix = StatusSuffix(*status);
                write!(f, "data {item} {stamp} {value}{suffix}\n")
            }
            LogLine::Gap { item, cause } => write!(f, "gap {item} {cause}\n"),
            LogLine::Switch { from, to } => write!(f, "switch {from} {to}\n"),
            LogLine::Ready { server } => write!(f, "ready {server}\n"),
            LogLine::Lost { server } => write!(f, "lost {server}\n"),
            LogLine::Unsupported { server } => write!(f, "unsupported {server}\n"),
            LogLine::Heard {
                listener,
                changes,
                gaps,
            } => write!(f, "heard {listener} {changes} {gaps}\n"),
            LogLine::Done { changes } => write!(f, "done {changes}\n"),
        }
    }
}

/// Appends the line's text with its line feed, or nothing where memory is refused.
pub fn write_line(alloc: Global, line: &LogLine, to: &mut Vec<u8>) -> Result<(), OutOfMemory>
    ensures ok { OnOk result (to.new.items ≡ to.old.items ++ line_text line.now) }
    ensures refused { OnErr result (to.new.items ≡ to.old.items) }
{
    let text = line.to_string(alloc)?;
    to.extend_from_slice(text.as_bytes())?;
    Ok(())
}
