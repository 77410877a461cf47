ghost use Rattle.std.specs.Prelude.{◌≡◌, ℕ, ◌≤◌};
ghost use Rattle.ua_edge.specs.Calls.{is_failing, counted};

use std::marker::Model;

/// Counts the calls of an object in memory, some of which are to fail.
#[derive(Debug, Drop)]
pub(crate) struct Calls {
    made: u64,
    failing: Vec<u64>,
    faults: u64,
}

impl Model for Calls {
    ghost use Rattle.ua_edge.specs.Calls.{Counted};

    ghost Value = { Counted };

    ghost view = { λ c. record { calls = c.made; failing = c.failing.items; faults = c.faults } };
}

impl Calls {
    /// No call was made; those of these numbers, counted from 1, will fail.
    pub(crate) fn new(failing: Vec<u64>) -> Calls
        ensures { result ≡ record { calls = 0; failing = failing.items; faults = 0 } }
    {
        Calls {
            made: 0,
            failing,
            faults: 0,
        }
    }

    /// Counts one call, and its fault where it is to fail.
    pub(crate) fn next_fails(&mut self) -> bool
        ensures fails { result ≡ is_failing self.old }
        ensures counted { self.new ≡ counted self.old }
        ensures count { self.old.faults ≤ self.new.faults }
    {
        self.made = self.made.saturating_add(1);
        let fails = self.failing.contains(&self.made);
        if fails {
            self.faults = self.faults.saturating_add(1);
        }
        fails
    }
}
