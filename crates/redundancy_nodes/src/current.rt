ghost use Rattle.std.specs.Prelude.{◌≡◌, IsOk, IsSome, OnErr, OnOk, map};
ghost use Rattle.set_model.specs.Source.{last_of};
ghost use Rattle.redundancy_nodes.specs.Current.{renewed, with_newest};

use set_model::Change;
use std::marker::Model;
use ua_base::OutOfMemory;

/// The changes that are the items' current values. Where an item has several, its last one counts.
#[derive(Debug, Drop)]
pub struct CurrentChanges {
    list: Vec<Change>,
}

impl Model for CurrentChanges {
    ghost use Rattle.std.specs.Prelude.{List};
    ghost use Rattle.set_model.specs.declared.source.Change.{Change};

    ghost Value = { List Change };

    ghost view = { λ c. c.list.items };
}

/// Puts a change in the place of one, where that is of the same item.
fn renew(known: &mut Change, change: Change)
    ensures { known.new ≡ renewed change known.old }
{
    if known.item == change.item {
        *known = change;
    }
}

/// Puts a change in the place of those of its item.
fn renew_each(list: &mut Vec<Change>, change: Change)
    ensures { list.new.items ≡ map (renewed change) list.old.items }
{
    for known in list.iter_mut() {
        renew(known, change);
    }
}

impl CurrentChanges {
    /// These changes. It takes no memory.
    pub fn new(list: Vec<Change>) -> CurrentChanges
        ensures { result ≡ list.items }
    {
        CurrentChanges { list }
    }

    /// The changes.
    pub fn as_slice(&self) -> &[Change]
        ensures { result.now ≡ self.now }
    {
        self.list.as_slice()
    }

    /// The changes. It takes no memory.
    pub fn into_vec(self) -> Vec<Change>
        ensures { result.items ≡ self }
    {
        self.list
    }

    /// Puts an item's newest change in the place of the one before, or behind all others where the item had none. Only
    /// then the list grows, and takes memory.
    pub fn put(&mut self, change: Change) -> Result<(), OutOfMemory>
        ensures put { OnOk result (self.new ≡ with_newest change self.old) }
        ensures in_place { IsSome (last_of change.item self.old) → IsOk result }
        ensures unchanged { OnErr result (self.new ≡ self.old) }
    {
        if self.of_item(change.item).is_some() {
            renew_each(&mut self.list, change);
        } else {
            self.list.push(change)?;
        }
        Ok(())
    }

    /// The current change of an item, if it has one.
    pub fn of_item(&self, item: u8) -> Option<Change>
        ensures { result ≡ last_of item self.now }
    {
        self.list
            .iter()
            .rev()
            .copied()
            .find(|change| change.item == item)
    }
}
