//! The laws of a set's source, and of what its lives are fed.
ghost use Rattle.std.specs.Prelude.{◌≡◌, ◌≤◌, ◌+◌, ℕ, Bool, List, [], Some, length, slice_get};
ghost use Rattle.ua_base.specs.declared.modes.SetMode.{SetMode};
ghost use Rattle.set_model.specs.declared.source.Change.{Change};
ghost use Rattle.set_model.specs.Source.{IsSource, of_item};
ghost use Rattle.item_queue.specs.declared.queue.Entry.{Entry};
ghost use Rattle.scenario.specs.declared.line.Line.{Line};
ghost use Rattle.scenario.specs.Past.{changes_in};
ghost use Rattle.subscription.specs.Linked.{AreLinked};
ghost use Rattle.set_histories.specs.Histories.{lives_after, recorded_after};
ghost use Rattle.set_feeds.specs.Feeds.{AllFedFrom, sourced};
ghost use Rattle.set_feeds.specs.Known.{AreNeighbours, known_of};

/// After any lines of a scenario, each life of each server, those that are over too, began behind the first changes of the
/// source, with the last one of each item among these as its current value, and was fed the changes that follow them, one
/// after another and none twice.
pub fn lives_are_fed_from_the_source()
    ensures { (mode : SetMode) (servers items queue : ℕ) (oldest : Bool) (lines : List Line) (place : ℕ) → place + 1 ≤ servers
        → AllFedFrom items (recorded_after mode servers items queue oldest lines).source
        (lives_after mode servers items queue oldest lines place) }
{}

/// The source of a set is what the changes of the lines come to, one after another; and where all of them together are a
/// source that is not too long, it is these.
pub fn the_source_is_the_lines_changes()
    ensures sourced { (mode : SetMode) (servers items queue : ℕ) (oldest : Bool) (lines : List Line)
        → (recorded_after mode servers items queue oldest lines).source ≡ sourced (changes_in lines) [] }
    ensures whole { (mode : SetMode) (servers items queue : ℕ) (oldest : Bool) (lines : List Line)
        → IsSource (changes_in lines) → length (changes_in lines) ≤ 200000
        → (recorded_after mode servers items queue oldest lines).source ≡ changes_in lines }
{
    direct_world::laws::changes_are_the_source();
}

/// What a life knows are the current values with which it began and what it was fed. Of each item these are neighbours among
/// the source's changes, in order. So entries that are linked as known changes are linked as changes of the source, and what
/// stands among the known changes of an item stands among the source's: of any item, also of one that the set doesn't have.
pub fn known_changes_end_the_source()
    ensures neighbours { (items : ℕ) (source : List Change) (first count item : ℕ)
        → AreNeighbours item source (known_of items source first count) }
    ensures linked { (items : ℕ) (source : List Change) (first count item : ℕ)
        → (size : ℕ) (entries : List Entry) → AreLinked size (of_item item (known_of items source first count)) entries
        → AreLinked size (of_item item source) entries }
    ensures found { (items : ℕ) (source : List Change) (first count item : ℕ)
        → (place : ℕ) (change : Change) → slice_get (of_item item (known_of items source first count)) place ≡ Some change
        → (there : ℕ) × (slice_get (of_item item source) there ≡ Some change) }
{}
