ghost use Rattle.std.specs.Prelude.{◌≡◌};
ghost use Rattle.fanout.specs.Hearing.{counted, no_tally};

use crate::hearing::{Listener, Stop, Tally};
use set_model::LogLine;

/// A listener that counts its lines and keeps none. It stops at a line whose count stands at `u64::MAX`.
#[derive(Debug, Drop)]
pub struct Counting {
    tally: Tally,
}

impl Counting {
    /// It was told nothing yet.
    pub fn new() -> Counting
        ensures { ⟦<Counting as Listener>⟧.heard result ≡ counted no_tally }
    {
        Counting {
            tally: Tally {
                changes: 0,
                gaps: 0,
            },
        }
    }
}

impl Listener for Counting {
    ghost heard = { λ counting. counted counting.tally };

    fn told(&mut self, line: &LogLine) -> Result<(), Stop> {
        match line {
            LogLine::Delivered { .. } => {
                if self.tally.changes == u64::MAX {
                    return Err(Stop);
                }
                self.tally.changes += 1;
                Ok(())
            }
            LogLine::Gap { .. } => {
                if self.tally.gaps == u64::MAX {
                    return Err(Stop);
                }
                self.tally.gaps += 1;
                Ok(())
            }
            LogLine::Switch { .. }
            | LogLine::Ready { .. }
            | LogLine::Lost { .. }
            | LogLine::Unsupported { .. }
            | LogLine::Heard { .. }
            | LogLine::Done { .. } => Ok(()),
        }
    }

    fn summary(&self) -> Tally {
        self.tally
    }
}
