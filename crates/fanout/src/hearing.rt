ghost use Rattle.std.specs.Prelude.{◌≡◌, OnOk, OnErr};
ghost use Rattle.fanout.specs.Hearing.{Hearing, Hears, Stops};

use set_model::LogLine;

/// How many lines a listener was told.
#[derive(Clone, Copy, Debug, PartialEq, Eq)]
pub struct Tally {
    /// The data lines.
    pub changes: u64,
    /// The gap lines.
    pub gaps: u64,
}

/// A listener that stopped, with what it was told till then.
#[derive(Clone, Copy, Debug, PartialEq, Eq)]
pub struct Stopped {
    /// The listener's id.
    pub id: u8,
    /// How many lines it was told.
    pub tally: Tally,
}

/// A listener's answer to a line that it does not take. It is told nothing more.
#[derive(Clone, Copy, Debug, PartialEq, Eq)]
pub struct Stop;

/// No listener of this id is attached.
#[derive(Clone, Copy, Debug, PartialEq, Eq)]
pub struct NoSuch;

/// Who is told the lines of an item.
pub trait Listener: Drop {
    /// What the listener heard so far.
    ghost heard: { Self → Hearing };

    /// Tells the listener one line.
    fn told(&mut self, line: &LogLine) -> Result<(), Stop>
        ensures ok { OnOk result (Hears line.now (heard self.old) (heard self.new)) }
        ensures stop { OnErr result (Stops (heard self.old) (heard self.new)) };

    /// How many lines it was told.
    fn summary(&self) -> Tally
        ensures { result ≡ (heard self.now).tally };
}
