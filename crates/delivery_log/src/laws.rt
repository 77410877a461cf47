//! What the rule of the log comes to over whole histories. Each law is the contract of a function that does nothing.
ghost use Rattle.std.specs.Prelude.{◌≡◌, ◌++◌, ℕ, List};
ghost use Rattle.set_model.specs.declared.line.LogLine.{LogLine};
ghost use Rattle.set_model.specs.declared.source.Change.{Change};
ghost use Rattle.set_model.specs.Source.{IsSource};
ghost use Rattle.delivery_log.specs.Caused.{Caused};
ghost use Rattle.delivery_log.specs.History.{Act, AreWithin, StandsFor, joined, lines_of, log_after, log_of, log_of_both};
ghost use Rattle.delivery_log.specs.Log.{taken_over};
ghost use Rattle.delivery_log.specs.Reading.{Tells};
ghost use Rattle.delivery_log.specs.Safe.{InOrder, Safe};
ghost use Rattle.delivery_log.specs.State.{LogState};
ghost use Rattle.delivery_log.specs.WellFed.{AreNotes, IsFed, WellFed, WellFedAfter};

/// After any acts on the servers and items of a log, what it keeps is what the acts say: its lines, each joint, and
/// the stamp of each item's last data line.
pub fn log_stands_for_its_history()
    ensures { (servers items : ℕ) (history : List Act) → AreWithin servers items history
        → StandsFor servers items history (log_of servers items history) }
{}

/// A log that begins with the stamps and joints of another one goes on as that other one would: whatever befalls both,
/// the lines of the first, then those of the second, are what the first would have come to alone.
pub fn a_log_can_be_taken_over()
    ensures { (log : LogState) (acts : List Act) → log_after acts log ≡ joined log (log_after acts (taken_over log)) }
{}

/// The logs of two clients, of which the second took over from the first, are together what the acts of both say.
pub fn logs_of_both_stand_for_both_histories()
    ensures { (servers items : ℕ) (first second : List Act) → AreWithin servers items first
        → AreWithin servers items second
        → StandsFor servers items (second ++ first) (log_of_both servers items first second) }
{}

/// The law of the log: where each entry is a change of the source, is linked to the one before it of its server and
/// item wherever it finds their joint `Joined`, and noted lines tell of no entry, the lines are safe. So each item's
/// data lines are its changes in order, and no change is missing between two of them without a gap line directly before
/// the later one. Of stamps it needs that they are totally ordered, and nothing else.
pub fn well_fed_is_safe()
    ensures { (source : List Change) (history : List Act) → IsSource source → WellFed source history
        → Safe source (lines_of history) }
{}

/// The same of two clients, of which the second took over from the first: where the first is well fed, and the second
/// after it, their lines together are safe.
pub fn logs_of_both_are_safe()
    ensures { (servers items : ℕ) (source : List Change) (first second : List Act)
        → AreWithin servers items first → AreWithin servers items second
        → IsSource source → WellFed source first → WellFedAfter source first second
        → Safe source (log_of_both servers items first second).lines }
{}

/// Where each entry is a change of the source, each item's data lines are its changes in order, no place twice. This
/// asks nothing of joints.
pub fn fed_is_in_order()
    ensures { (source : List Change) (history : List Act) → IsSource source → IsFed source history
        → InOrder source (lines_of history) }
{}

/// Each gap line stands before the data line of the entry that it was written for, and tells the cause that the joint
/// of that entry's server and item had, or overflow where the joint was `Joined` and the entry has the overflow bit.
pub fn gaps_have_true_causes()
    ensures { (history : List Act) → AreNotes history → Caused history (lines_of history) }
{}

/// The same of two clients, of which the second took over from the first.
pub fn gaps_of_both_have_true_causes()
    ensures { (servers items : ℕ) (first second : List Act)
        → AreWithin servers items first → AreWithin servers items second → AreNotes first → AreNotes second
        → Caused (second ++ first) (log_of_both servers items first second).lines }
{}

/// What a safe log tells its reader: each data line is a change of the source, the stamps of an item's data lines rise,
/// and where a change of the item lies between two neighbouring ones, a gap line of the item stands directly before
/// the later one, but for lines of what listeners heard.
pub fn safe_log_tells()
    ensures { (source : List Change) (log : List LogLine) → IsSource source → Safe source log → Tells source log }
{}
