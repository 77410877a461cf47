//! How items are monitored and which timestamps are sent, each with its number on the wire; and how a client uses a set.

ghost use Rattle.std.specs.Prelude.{◌≡◌, Some};
ghost use Rattle.ua_base.specs.declared.modes.Mode.{Mode};
ghost use Rattle.ua_base.specs.declared.modes.Timestamps.{Timestamps};
ghost use Rattle.ua_base.specs.Modes.{mode_number, mode_of, timestamps_number, timestamps_of};

/// How a monitored item is monitored (OPC 10000-4, 5.12.1.3).
#[derive(Clone, Copy, Debug, PartialEq, Eq)]
pub enum Mode {
    /// Neither sampled nor reported; on the wire 0.
    Disabled,
    /// Sampled into its queue, not reported; on the wire 1.
    Sampling,
    /// Sampled and reported; on the wire 2.
    Reporting,
}

impl Mode {
    /// Its number on the wire.
    pub fn number(self) -> u32
        ensures { result ≡ mode_number self }
    {
        match self {
            Mode::Disabled => 0,
            Mode::Sampling => 1,
            Mode::Reporting => 2,
        }
    }

    /// The mode of a number on the wire; `None` where it is the number of none, which a server answers by
    /// `Bad_MonitoringModeInvalid`.
    pub fn of_number(number: u32) -> Option<Mode>
        ensures { result ≡ mode_of number }
    {
        match number {
            0 => Some(Mode::Disabled),
            1 => Some(Mode::Sampling),
            2 => Some(Mode::Reporting),
            _ => None,
        }
    }
}

/// Which of a value's two times are asked for (OPC 10000-4, 7.35).
#[derive(Clone, Copy, Debug, PartialEq, Eq)]
pub enum Timestamps {
    /// The source's; on the wire 0.
    Source,
    /// The server's; on the wire 1.
    Server,
    /// Both; on the wire 2.
    Both,
    /// Neither; on the wire 3.
    Neither,
}

impl Timestamps {
    /// Its number on the wire.
    pub fn number(self) -> u32
        ensures { result ≡ timestamps_number self }
    {
        match self {
            Timestamps::Source => 0,
            Timestamps::Server => 1,
            Timestamps::Both => 2,
            Timestamps::Neither => 3,
        }
    }

    /// The choice of a number on the wire; `None` where it is the number of none, which a server answers by
    /// `Bad_TimestampsToReturnInvalid`.
    pub fn of_number(number: u32) -> Option<Timestamps>
        ensures { result ≡ timestamps_of number }
    {
        match number {
            0 => Some(Timestamps::Source),
            1 => Some(Timestamps::Server),
            2 => Some(Timestamps::Both),
            3 => Some(Timestamps::Neither),
            _ => None,
        }
    }
}

/// Law: the number of a mode or of a choice of timestamps gives it again.
pub fn numbers_are_read_again()
    ensures modes { (mode : Mode) → mode_of (mode_number mode) ≡ Some mode }
    ensures timestamps { (stamps : Timestamps) → timestamps_of (timestamps_number stamps) ≡ Some stamps }
{}

/// How the client uses the servers of a set (OPC 10000-4, 6.6.2).
#[derive(Clone, Copy, Debug, PartialEq, Eq)]
pub enum SetMode {
    /// The client takes entries from the servers' queues, with no bytes between.
    Direct,
    /// Each backup samples; the active server reports.
    Hot,
    /// Each backup is connected and its items are disabled.
    Warm,
    /// The client is connected to one server at a time.
    Cold,
}
