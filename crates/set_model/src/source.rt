ghost use Rattle.std.specs.Prelude.{◌≡◌, ◌≢◌, ◌<◌, ◌≤◌, None, Some, [], ◌∷◌, ◌++◌, OnOk, OnErr, IfErr};
ghost use Rattle.set_model.specs.Source.{end_after, last_at, last_of, no_change, no_end, refusal, refusal_after, refusal_at, stamp_of, IsSource};

use crate::stamp::Stamp;
use std::alloc::{AllocFailed, Global};
use std::marker::Model;
use thiserror::Error;

/// The most changes that a source holds.
pub const MOST_CHANGES: usize = 200_000;

/// One change of one item's value.
#[derive(Clone, Copy, Debug, PartialEq, Eq)]
pub struct Change {
    /// The item's number, from 1.
    pub item: u8,
    /// The source time: a DateTime, in steps of 100 ns since 1601-01-01 (OPC 10000-6, 5.2.2.5).
    pub time: i64,
    /// The picoseconds of the source time, in steps of ten, from 0 to 9999 (OPC 10000-4, 7.7.3).
    pub pico: u16,
    /// The value from then on.
    pub value: i64,
}

impl Change {
    /// When the value changed.
    pub fn stamp(self) -> Stamp
        ensures { result ≡ stamp_of self }
    {
        Stamp {
            time: self.time,
            pico: self.pico,
        }
    }
}

/// Why a change was refused. The source is then as it was.
#[derive(Clone, Copy, Debug, PartialEq, Eq, Error)]
pub enum SourceFault {
    /// The source holds `MOST_CHANGES`.
    #[error("the source is full")]
    Full,
    /// The item's last change, at `last`, is not earlier.
    #[error("time not above {last}")]
    TimeNotRising { last: Stamp },
    /// The item has this value already.
    #[error("same value")]
    SameValue,
    /// There is no memory for one more change.
    #[error("out of memory")]
    OutOfMemory,
}

impl<T: Drop> From<AllocFailed<T>> for SourceFault {
    ghost use Rattle.set_model.specs.declared.source.SourceFault.TheVariants as faults;

    ghost from_gives = { λ _ fault. fault ≡ faults.OutOfMemory };

    fn from(_failed: AllocFailed<T>) -> SourceFault {
        SourceFault::OutOfMemory
    }
}

/// The end of a source: how many changes it has, and each item's last one. It judges the next change and keeps no
/// other.
#[derive(Debug, Drop)]
pub struct SourceEnd {
    count: usize,
    lasts: [Option<Change>; 256],
}

impl Model for SourceEnd {
    ghost use Rattle.set_model.specs.Source.{End};

    ghost Value = { End };

    ghost view = { λ e. record { count = e.count; lasts = e.lasts } };
}

fn no_lasts() -> [Option<Change>; 256]
    ensures { result ≡ no_change }
{
    [None; 256]
}

fn refusal_after(last: Option<Change>, change: Change) -> Option<SourceFault>
    ensures { result ≡ refusal_after last change }
{
    match last {
        None => None,
        Some(last) if !last.stamp().is_before(change.stamp()) => Some(SourceFault::TimeNotRising {
            last: last.stamp(),
        }),
        Some(last) if change.value == last.value => Some(SourceFault::SameValue),
        Some(_) => None,
    }
}

impl SourceEnd {
    /// The end of a source without a change. It takes no memory.
    pub fn new() -> SourceEnd
        ensures { result ≡ no_end }
    {
        SourceEnd {
            count: 0,
            lasts: no_lasts(),
        }
    }

    /// The item's last change, if it has one.
    pub fn last_of(&self, item: u8) -> Option<Change>
        ensures { result ≡ last_at item self.now }
    {
        self.lasts[item as usize]
    }

    /// Why the source would refuse this change now.
    pub fn refusal(&self, change: Change) -> Option<SourceFault>
        ensures { result ≡ refusal_at self.now change }
    {
        if self.count >= MOST_CHANGES {
            Some(SourceFault::Full)
        } else {
            refusal_after(self.last_of(change.item), change)
        }
    }

    /// One change more. Whether the source would refuse it is not asked again.
    pub fn add(&mut self, change: Change)
        requires { self.old.count < 200000 }
        ensures { self.new ≡ end_after self.old change }
    {
        self.lasts[change.item as usize] = Some(change);
        self.count += 1;
    }
}

/// The one source of a set: all changes of all items in their order. For each item the stamps rise strictly, and each
/// value differs from the one before.
#[derive(Debug, Drop)]
pub struct SourceLog {
    changes: Vec<Change>,
    end: SourceEnd,
}

impl Model for SourceLog {
    ghost use Rattle.std.specs.Prelude.{List};
    ghost use Rattle.set_model.specs.declared.source.Change.{Change};
    ghost use Rattle.set_model.specs.Source.{IsEndOf, IsSource};

    ghost Value = { List Change };

    ghost view = { λ s. s.changes.items };

    ghost invariant = { λ s. IsEndOf s.end s.changes.items × IsSource s.changes.items };
}

impl SourceLog {
    /// An empty source. It takes no memory.
    pub fn new(alloc: Global) -> SourceLog
        ensures { result ≡ [] }
    {
        SourceLog {
            changes: Vec::new(alloc),
            end: SourceEnd::new(),
        }
    }

    /// All changes, in the order in which they were appended.
    pub fn changes(&self) -> &[Change]
        ensures changes { result.now ≡ self.now }
        ensures source { IsSource self.now }
    {
        let _ = &self.end;
        self.changes.as_slice()
    }

    /// The item's last change, if it has one.
    pub fn last_of(&self, item: u8) -> Option<Change>
        ensures { result ≡ last_of item self.now }
    {
        self.end.last_of(item)
    }

    /// Why the source would refuse this change now.
    pub fn refusal(&self, change: Change) -> Option<SourceFault>
        ensures { result ≡ refusal self.now change }
    {
        self.end.refusal(change)
    }

    /// Appends a change, unless the source is full, the item's stamp does not rise or its value stays the same.
    pub fn append(&mut self, change: Change) -> Result<(), SourceFault>
        requires { change.pico ≤ 9999 }
        ensures taken { OnOk result (self.new ≡ self.old ++ change ∷ []) }
        ensures allowed { OnOk result (refusal self.old change ≡ None) }
        ensures refused { IfErr result (λ fault. fault ≢ SourceFault.OutOfMemory
            → refusal self.old change ≡ Some fault) }
        ensures unchanged { OnErr result (self.new ≡ self.old) }
    {
        if let Some(fault) = self.refusal(change) {
            return Err(fault);
        }
        self.changes.push(change)?;
        self.end.add(change);
        Ok(())
    }
}
