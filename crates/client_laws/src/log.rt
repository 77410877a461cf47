//! The client's log.

ghost use Rattle.std.specs.Prelude.{◌≡◌, ◌≤◌, ℕ, true, List};
ghost use Rattle.ua_base.specs.declared.modes.SetMode.TheVariants.{Warm};
ghost use Rattle.set_model.specs.declared.line.LogLine.{LogLine};
ghost use Rattle.set_model.specs.declared.stamp.Stamp.{Stamp};
ghost use Rattle.set_model.specs.Stamp.{is_before};
ghost use Rattle.delivery_log.specs.Caused.{Caused};
ghost use Rattle.delivery_log.specs.History.{AreWithin, StandsFor, joint_of, log_of};
ghost use Rattle.delivery_log.specs.Reading.{AreNeighbours};
ghost use Rattle.delivery_log.specs.WellFed.{AreNotes};
ghost use Rattle.client_rules.specs.declared.config.ClientConfig.{ClientConfig};
ghost use Rattle.client_rules.specs.State.{servers_of};
ghost use Rattle.client_rules.specs.Step.{Moment};
ghost use Rattle.client_laws.specs.Life.{acts_of, client_after, history_of};
ghost use Rattle.client_laws.specs.Windows.{IsShownBy, no_window, window_after};

/// A client's log is what its acts come to, which are of its own servers and items; so its lines, its joints and the
/// stamps last delivered are what the acts say.
pub fn logs_are_of_their_acts()
    ensures log { (config : ClientConfig) (moments : List Moment)
        → (client_after config moments).log ≡ log_of (servers_of config) config.items (history_of config moments) }
    ensures within { (config : ClientConfig) (moments : List Moment)
        → AreWithin (servers_of config) config.items (history_of config moments) }
    ensures stands { (config : ClientConfig) (moments : List Moment)
        → StandsFor (servers_of config) config.items (history_of config moments) (client_after config moments).log }
    ensures notes { (config : ClientConfig) (moments : List Moment) → AreNotes (history_of config moments) }
{}

/// Each gap line of a client's log stands before the data line of the entry that it was written for, and tells the cause
/// that the joint of that entry's server and item had, or overflow where the joint was `Joined` and the entry has the
/// overflow bit.
pub fn gaps_have_true_causes()
    ensures { (config : ClientConfig) (moments : List Moment)
        → Caused (history_of config moments) (client_after config moments).log.lines }
{}

/// The stamps of an item's data lines strictly rise: of any two that have none of the item between them the later one
/// has the later stamp.
pub fn stamps_rise()
    ensures { (config : ClientConfig) (moments : List Moment) (item : ℕ) (first second : Stamp) (between : List LogLine)
        → AreNeighbours item (client_after config moments).log.lines first between second
        → is_before first second ≡ true }
{}

/// In a warm set an item is held from the moment on at which its server has a new subscription, or is asked to keep the
/// item off, until it is confirmed that it reports; and it is joined exactly where, since then and since messages were
/// missing last, values of it came, the last one with a source time (OPC 10000-4, 6.6.2.4.5.3).
pub fn items_are_held_until_they_report()
    ensures { (config : ClientConfig) (moments : List Moment) (server item : ℕ)
        → config.mode ≡ Warm → 1 ≤ item → item ≤ config.items
        → (window_after server item (acts_of config moments) no_window).begun ≡ true
        → IsShownBy (window_after server item (acts_of config moments) no_window)
        (joint_of server item (history_of config moments)) }
{}
