//! What any calls of a fanout come to. Nothing here runs.
ghost use Rattle.std.specs.Prelude.{◌≡◌, ◌≤◌, ◌<◌, ◌++◌, ◌∷◌, ℕ, List, Some, length};
ghost use Rattle.set_model.specs.declared.line.LogLine.{LogLine};
ghost use Rattle.fanout.specs.Calls.{Call, Detach, Outcome, Tell, stopping};
ghost use Rattle.fanout.specs.History.{AreGone, AreRising, AreToldTheirLines, Beginning, CanBe, History, IsGone, begins, state_after};

/// After any calls each attached listener was told exactly the data and gap lines of its item that were told to the
/// fanout since it was attached, each once and in order: its tally grew by their numbers, and if it tells its lines,
/// these were appended. It has no fewer lines to spare than it had at first without one for each.
pub fn each_is_told_its_lines()
    ensures { (history : History) → CanBe history → AreToldTheirLines history (state_after history).attached }
{}

/// No more than 16 are attached at a time, by rising ids from 1 on, of which none is above the one given last, nor is
/// that above 255.
pub fn limits_are_kept()
    ensures most { (history : History) → CanBe history → length (state_after history).attached ≤ 16 }
    ensures ids { (history : History) → CanBe history → (state_after history).last ≤ 255 }
    ensures rising { (history : History) → CanBe history → AreRising 0 (state_after history).attached (state_after history).last }
{}

/// A listener that was detached or that stopped is gone, and no call brings back its id: an id that was given and isn't
/// attached stays so, and each attaching gives a higher one than those before.
pub fn who_left_is_gone()
    ensures detached { (id : ℕ) (earlier : History) → CanBe earlier → IsGone id (state_after (Detach id ∷ earlier)).attached }
    ensures stopped { (line : LogLine) (outcomes : List Outcome) (earlier : History) → CanBe (Tell line outcomes ∷ earlier)
        → AreGone (stopping outcomes) (state_after (Tell line outcomes ∷ earlier)).attached }
    ensures stays { (id : ℕ) (later earlier : History) → CanBe (later ++ earlier) → id ≤ (state_after earlier).last
        → IsGone id (state_after earlier).attached → IsGone id (state_after (later ++ earlier)).attached }
    ensures once { (first second : Beginning) (call other : Call) (later earlier : History)
        → begins other (state_after earlier) ≡ Some first
        → begins call (state_after (later ++ other ∷ earlier)) ≡ Some second
        → first.id < second.id }
{}
