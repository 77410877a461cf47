ghost use Rattle.std.specs.Prelude.{◌≡◌};
ghost use Rattle.server_rules.specs.Trigger.{trigger_of};

/// Which changes of a monitored item are told (OPC 10000-4, 7.22.2).
#[derive(Clone, Copy, Debug, PartialEq, Eq)]
pub enum DataChangeTrigger {
    /// Those of the status; on the wire 0.
    Status,
    /// Those of the status or the value; on the wire 1.
    StatusValue,
    /// Those of the status, the value or the source's time; on the wire 2.
    StatusValueTimestamp,
}

impl DataChangeTrigger {
    /// The trigger of a number on the wire; `None` where it is the number of none.
    pub fn of_number(number: i32) -> Option<DataChangeTrigger>
        ensures { result ≡ trigger_of number }
    {
        match number {
            0 => Some(DataChangeTrigger::Status),
            1 => Some(DataChangeTrigger::StatusValue),
            2 => Some(DataChangeTrigger::StatusValueTimestamp),
            _ => None,
        }
    }
}
