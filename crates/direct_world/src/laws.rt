//! What the world of direct servers comes to, whatever lines come. Each law is the contract of a function that does
//! nothing; worlds here are of fewer than 256 servers and items, with queues of at least two entries.
ghost use Rattle.std.specs.Prelude.{◌≡◌, ℕ, ◌≤◌, ◌+◌, ◌<◌, All, Bool, List, length, map, min};
ghost use Rattle.set_model.specs.Source.{IsSource};
ghost use Rattle.delivery_log.specs.Caused.{Caused};
ghost use Rattle.delivery_log.specs.History.{lines_of};
ghost use Rattle.delivery_log.specs.Safe.{InOrder, Safe};
ghost use Rattle.delivery_log.specs.WellFed.{WellFed};
ghost use Rattle.scenario.specs.Past.{boot_of, changes_in};
ghost use Rattle.scenario.specs.declared.line.Line.{Line};
ghost use Rattle.direct_world.specs.History.{history_of, lives_of};
ghost use Rattle.direct_world.specs.Lives.{AreLivesOf, Life, down_from};
ghost use Rattle.direct_world.specs.Plain.{IsPlain};
ghost use Rattle.direct_world.specs.World.{server_at, world_of};

/// The log's lines are those of its history, which is what the lines' acts come to one after another; and the history
/// is well fed by the world's source, which is a source.
pub fn history_is_well_fed()
    ensures source { (servers items : ℕ) (oldest : Bool) (queue : ℕ) (lines : List Line)
        → IsSource (world_of servers items oldest queue lines).source }
    ensures lines { (servers items : ℕ) (oldest : Bool) (queue : ℕ) (lines : List Line) → 2 ≤ queue
        → let w = world_of servers items oldest queue lines in
        w.log.lines ≡ lines_of (history_of servers items oldest queue lines) }
    ensures fed { (servers items : ℕ) (oldest : Bool) (queue : ℕ) (lines : List Line) → 2 ≤ queue
        → WellFed (world_of servers items oldest queue lines).source (history_of servers items oldest queue lines) }
{}

/// Each server's boot number is one more than its starts, up to the last value of its type, which no scenario passes.
pub fn starts_give_boot_numbers()
    ensures { (servers items : ℕ) (oldest : Bool) (queue : ℕ) (lines : List Line) (place : ℕ) → place < servers
        → let server = server_at place (world_of servers items oldest queue lines).servers in
        server.boot ≡ min (boot_of (place + 1) lines) 65535 }
{}

/// A life of a server begins after some of the source's changes: with the last one of each item among these as its
/// current values. From there on it is fed the source's changes one after another: its k-th feed, from 0, is the change
/// at place `first + k`. The lives of a server, the newest first, have the boot numbers from that of its starts down to
/// 1, as far as a scenario can start it: so no two are alike.
pub fn lives_are_of_the_source()
    ensures lives { (servers items : ℕ) (oldest : Bool) (queue : ℕ) (lines : List Line) (place : ℕ) → place < servers
        → let source = (world_of servers items oldest queue lines).source in
        AreLivesOf source items (lives_of servers items oldest queue (place + 1) lines) }
    ensures boots { (servers items : ℕ) (oldest : Bool) (queue : ℕ) (lines : List Line) (place : ℕ) → place < servers
        → boot_of (place + 1) lines ≤ 65535
        → map (λ (life : Life). life.boot) (lives_of servers items oldest queue (place + 1) lines)
        ≡ down_from (boot_of (place + 1) lines) }
{}

/// Where all changes of the lines together are a source that is not too long, they are the world's one source.
pub fn changes_are_the_source()
    ensures { (servers items : ℕ) (oldest : Bool) (queue : ℕ) (lines : List Line)
        → IsSource (changes_in lines) → length (changes_in lines) ≤ 200000
        → (world_of servers items oldest queue lines).source ≡ changes_in lines }
{}

/// The log is safe: each item's data lines are changes of the source in order, no place twice; and where a change is
/// missing between two of them, a gap line of the item stands directly before the later one. Each data line's status is
/// 0 but for the two bits of an overflow.
pub fn log_is_safe()
    ensures safe { (servers items : ℕ) (oldest : Bool) (queue : ℕ) (lines : List Line) → 2 ≤ queue
        → let w = world_of servers items oldest queue lines in Safe w.source w.log.lines }
    ensures order { (servers items : ℕ) (oldest : Bool) (queue : ℕ) (lines : List Line) → 2 ≤ queue
        → let w = world_of servers items oldest queue lines in InOrder w.source w.log.lines }
    ensures plain { (servers items : ℕ) (oldest : Bool) (queue : ℕ) (lines : List Line) → 2 ≤ queue
        → All IsPlain (world_of servers items oldest queue lines).log.lines }
{}

/// Each gap line of the log stands before the data line that it is there for, and tells its true cause.
pub fn gaps_have_true_causes()
    ensures { (servers items : ℕ) (oldest : Bool) (queue : ℕ) (lines : List Line) → 2 ≤ queue
        → Caused (history_of servers items oldest queue lines) (world_of servers items oldest queue lines).log.lines }
{}
