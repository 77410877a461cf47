ghost use Rattle.std.specs.Prelude.{◌≡◌, ◌≤◌, ◌<◌, ◌+◌, ◌^◌};
ghost use Rattle.fanout.specs.Hearing.{limited, no_tally};

use crate::hearing::{Listener, Stop, Tally};
use set_model::LogLine;

/// A listener that takes so many lines and stops at the next one. It keeps none.
#[derive(Debug, Drop)]
pub struct Limited {
    tally: Tally,
    spare: u64,
    ghost changes_fit: { tally.changes + spare < 2 ^ 64 },
    ghost gaps_fit: { tally.gaps + spare < 2 ^ 64 },
}

impl Limited {
    /// It was told nothing yet, and takes so many lines.
    pub fn new(spare: u64) -> Limited
        ensures { ⟦<Limited as Listener>⟧.heard result ≡ limited no_tally spare }
    {
        Limited {
            tally: Tally {
                changes: 0,
                gaps: 0,
            },
            spare,
        }
    }
}

impl Listener for Limited {
    ghost heard = { λ l. limited l.tally l.spare };

    fn told(&mut self, line: &LogLine) -> Result<(), Stop> {
        if self.spare == 0 {
            return Err(Stop);
        }
        self.spare -= 1;
        match line {
            LogLine::Delivered { .. } => self.tally.changes += 1,
            LogLine::Gap { .. } => self.tally.gaps += 1,
            LogLine::Switch { .. }
            | LogLine::Ready { .. }
            | LogLine::Lost { .. }
            | LogLine::Unsupported { .. }
            | LogLine::Heard { .. }
            | LogLine::Done { .. } => {}
        }
        Ok(())
    }

    fn summary(&self) -> Tally {
        self.tally
    }
}
