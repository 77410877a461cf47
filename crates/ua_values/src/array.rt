ghost use Rattle.std.specs.Prelude.{◌≡◌, ◌++◌, List, ℕ, OnOk};
ghost use Rattle.std.specs.List.{flat_map};
ghost use Rattle.ua_values.specs.Reading.{Moves, Reader};
ghost use Rattle.ua_values.specs.Readers.{array_within_at, array_at, elements_at};
ghost use Rattle.ua_values.specs.Written.{written_array};

use crate::cursor::Cursor;
use crate::fault::{MOST_ITEMS, ValueFault};
use crate::writing::write_uint32;
use std::alloc::Global;
use ua_base::OutOfMemory;

/// What an array may have as its elements.
pub trait Element: Sized + Drop {
    ghost at: { Reader Self };

    ghost written: { Self → List ℕ };

    /// Reads one element.
    fn read(alloc: Global, from: &mut Cursor<'_>) -> Result<Self, ValueFault>
        ensures { Moves (λ element. element) result from.new (at from.old) };

    /// Appends the element. Want of memory leaves what was appended by then.
    fn put(&self, to: &mut Vec<u8>) -> Result<(), OutOfMemory>
        ensures { OnOk result (to.new.items ≡ to.old.items ++ written self.now) };
}

/// So many elements.
fn elements<T: Element>(
    alloc: Global,
    count: u32,
    from: &mut Cursor<'_>,
) -> Result<Vec<T>, ValueFault>
    ensures { Moves (λ items. items.items) result from.new (elements_at count T.at from.old) }
{
    let mut items = Vec::new(alloc);
    for _i in 0..count {
        let element = T::read(alloc, from)?;
        items.push(element)?;
    }
    Ok(items)
}

/// Reads an array of at most `most` elements: its length, and the elements. A negative length is an empty array.
pub fn read_array_within<T: Element>(
    alloc: Global,
    most: u32,
    from: &mut Cursor<'_>,
) -> Result<Vec<T>, ValueFault>
    ensures { Moves (λ items. items.items) result from.new (array_within_at most T.at from.old) }
{
    let count = from.count(most)?;
    elements(alloc, count, from)
}

/// Reads an array (OPC 10000-6, 5.2.5) of at most [`MOST_ITEMS`] elements.
pub fn read_array<T: Element>(alloc: Global, from: &mut Cursor<'_>) -> Result<Vec<T>, ValueFault>
    ensures { Moves (λ items. items.items) result from.new (array_at T.at from.old) }
{
    read_array_within(alloc, MOST_ITEMS, from)
}

fn put_elements<T: Element>(items: &[T], to: &mut Vec<u8>) -> Result<(), OutOfMemory>
    ensures { OnOk result (to.new.items ≡ to.old.items ++ flat_map T.written items.now) }
{
    for item in items {
        item.put(to)?;
    }
    Ok(())
}

/// Appends an array, an empty one with the length 0. Want of memory leaves what was appended by then.
pub fn put_array<T: Element>(items: &[T], to: &mut Vec<u8>) -> Result<(), OutOfMemory>
    ensures { OnOk result (to.new.items ≡ to.old.items ++ written_array T.written items.now) }
{
    write_uint32((items.len() as u64 & 0xFFFF_FFFF) as u32, to)?;
    put_elements(items, to)
}
