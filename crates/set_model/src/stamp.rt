ghost use Rattle.std.specs.Prelude.{◌≡◌};
ghost use Rattle.set_model.specs.Stamp.{is_before, IsOrder};

use std::fmt;

/// The most that `Stamp::pico` may be: one less than the steps of 10 ps in the 100 ns of a DateTime.
pub const MOST_PICO: u16 = 9999;

/// When a source's value changed: a DateTime, and what of the next 100 ns had passed.
#[derive(Clone, Copy, Debug, PartialEq, Eq)]
pub struct Stamp {
    /// The DateTime, in steps of 100 ns since 1601-01-01 (OPC 10000-6, 5.2.2.5).
    pub time: i64,
    /// The picoseconds in steps of ten, from 0 to 9999 (OPC 10000-4, 7.7.3).
    pub pico: u16,
}

impl Stamp {
    /// Whether it is earlier than the other one: by time, then by picoseconds.
    pub fn is_before(self, other: Stamp) -> bool
        ensures { result ≡ is_before self other }
    {
        self.time < other.time || (self.time == other.time && self.pico < other.pico)
    }
}

impl fmt::Display for Stamp {
    ghost use Rattle.std.specs.Prelude.{Some};
    ghost use Rattle.set_model.specs.Stamp.{stamp_text};

    ghost output = { λ stamp. Some (stamp_text stamp) };

    fn fmt<W: fmt::Write>(&self, f: &mut fmt::Formatter<W>) -> fmt::Result {
        let suffix = PicoSuffix(self.pico);
        let time = self.time;
        write!(f, "{time}{suffix}")
    }
}

/// The end of a stamp's text: a dot and the picoseconds, where there are any.
#[derive(Clone, Copy)]
struct PicoSuffix(u16);

impl fmt::Display for PicoSuffix {
    ghost use Rattle.std.specs.Prelude.{Some};
    ghost use Rattle.set_model.specs.Stamp.{pico_text};

    ghost output = { λ suffix. Some (pico_text suffix.0) };

    fn fmt<W: fmt::Write>(&self, f: &mut fmt::Formatter<W>) -> fmt::Result {
        let pico = self.0;
        if pico == 0 {
            Ok(())
        } else {
            write!(f, ".{pico}")
        }
    }
}

#[tactic(auto, using(crate::proofs::StampLemmas::stamp_order))]
/// Law: stamps are totally ordered by which is before which.
pub fn stamps_are_ordered()
    ensures { IsOrder is_before }
{}
