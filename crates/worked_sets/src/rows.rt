//! Worked scenarios.
ghost use Rattle.std.specs.List.{AllByRecursion};
ghost use Rattle.worked_sets.specs.Rows.{IsAsWorked, rows};

/// What the definition of a set over messages says of small scenarios, from the first connection on: each report is the
/// one that was worked out. In a hot set changes are delivered, a switch carries over what the backup's queue holds and tells
/// where a value may be missing, and a message that a cut took is sent once more; in a cold set the client connects to the
/// next server; and in a warm set items report after a switch, there and back.
pub fn worked_sets_have_their_reports()
    ensures { AllByRecursion IsAsWorked rows }
{}
