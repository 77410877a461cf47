//! What the definitions come to. Nothing here runs.
ghost use Rattle.std.specs.Prelude.{◌≡◌, ◌<◌, ◌↔◌, ℕ, List, Option, Some, None, All};
ghost use Rattle.failover_core.specs.declared.choice.Candidate.{Candidate};
ghost use Rattle.failover_core.specs.State.{CoreState};
ghost use Rattle.failover_core.specs.Choice.{choose, decided, number_of, switch_of};
ghost use Rattle.failover_core.specs.Laws.{IsAmong, IsBest};

/// A chosen server is ready and has data, none that is ready has a higher level, and of several of that level it is the
/// active one, if that is among them, and else the one of the lowest number. No server is chosen exactly where none that
/// is ready has data (OPC 10000-4, 6.6.2.4.2).
pub fn choices_are_best()
    ensures best { (ready : List Candidate) (active : Option ℕ) (server : ℕ)
        → choose ready active ≡ Some server → IsBest ready active server }
    ensures none { (ready : List Candidate) (active : Option ℕ)
        → (choose ready active ≡ None) ↔ ((one : Candidate) → IsAmong one ready → one.level < 2) }
{}

/// Where a choice tells a switch, the active server was the first one told, and the second one is active then, which is
/// the best one that is ready; 0 stands for none.
pub fn switches_are_choices()
    ensures { (ready : List Candidate) (core : CoreState) (before after : ℕ)
        → switch_of ready core ≡ Some (before, after)
        → (number_of core.active ≡ before) × (number_of (decided ready core).active ≡ after)
        × ((server : ℕ) → (decided ready core).active ≡ Some server → IsBest ready core.active server) }
{}
