//! An entry as it is sent, and as the log takes it.
ghost use Rattle.std.specs.Prelude.{◌≡◌, ◌≤◌, ℕ, ℤ, List, Some, true, slice_get};
ghost use Rattle.ua_base.specs.declared.modes.Timestamps.{Timestamps};
ghost use Rattle.set_model.specs.declared.source.Change.{Change};
ghost use Rattle.set_model.specs.Source.{IsSource, of_item};
ghost use Rattle.item_queue.specs.declared.queue.Entry.{Entry};
ghost use Rattle.delivery_log.specs.Judge.{has_overflow};
ghost use Rattle.delivery_log.specs.WellFed.{IsFedEntry, Linked};
ghost use Rattle.subscription.specs.Linked.{AreLinked, IsLinked};
ghost use Rattle.subscription.specs.Message.{has_source, value_of};
ghost use Rattle.client_rules.specs.Arrival.{arrived_of};
ghost use Rattle.arriving_entries.specs.Arrivals.{AllLinked, arrival_of};

/// An entry that is sent with its source time is taken by the log with the stamp and the value of its change, whatever
/// the server's time is and whether that is sent too; so is each entry of a change of a source. And its status says
/// exactly of a marked entry that the queue dropped values before it.
pub fn entries_arrive()
    ensures arrives { (now : ℤ) (stamps : Timestamps) (entry : Entry) → has_source stamps ≡ true
        → entry.change.pico ≤ 9999 → arrived_of (value_of now stamps entry) ≡ arrival_of entry }
    ensures of_source { (now : ℤ) (stamps : Timestamps) (source : List Change) (item place : ℕ) (entry : Entry)
        → has_source stamps ≡ true → IsSource source → slice_get (of_item item source) place ≡ Some entry.change
        → arrived_of (value_of now stamps entry) ≡ arrival_of entry }
    ensures marks { (entry : Entry) → has_overflow (arrival_of entry).status ≡ entry.marked }
{}

/// An entry of a change of an item is, as the log takes it, a change of that item. And of two entries that a queue of two
/// places or more tells one after the other, the later one is a later change of the item to the log as well, and the very
/// next one where its status doesn't tell of an overflow: so of each two neighbours of a list.
pub fn linked_entries_arrive_linked()
    ensures fed { (source : List Change) (item place : ℕ) (entry : Entry)
        → slice_get (of_item item source) place ≡ Some entry.change → IsFedEntry source item (arrival_of entry) }
    ensures linked { (source : List Change) (item size : ℕ) (former later : Entry) → 2 ≤ size
        → IsLinked size (of_item item source) former later → Linked source item (arrival_of former) (arrival_of later) }
    ensures all { (source : List Change) (item size : ℕ) (entries : List Entry) → 2 ≤ size
        → AreLinked size (of_item item source) entries → AllLinked source item entries }
{}
