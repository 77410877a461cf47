//! What every world does alike: the source grows, a server is found by its number, and changes are fed in their order.

ghost use Rattle.std.specs.Prelude.{◌≡◌, ◌+◌, ◌<◌, ◌≤◌, drop, IfSome, length, max, OnOk, take};
ghost use Rattle.direct_world.specs.Server.{place_in};
ghost use Rattle.direct_world.specs.World.{appended};

use set_model::{Change, MOST_PICO, SourceFault, SourceLog};
use ua_base::OutOfMemory;

/// Appends a change to the source, unless it can't be one of it: a full source, picoseconds above 9999, a stamp that
/// doesn't rise or a value that stays the same leave the source as it was.
///
/// # Errors
/// Want of memory alone.
pub fn append(source: &mut SourceLog, change: Change) -> Result<(), OutOfMemory>
    ensures { OnOk result (source.new ≡ appended change source.old) }
{
    if change.pico > MOST_PICO {
        return Ok(());
    }
    match source.append(change) {
        Err(SourceFault::OutOfMemory) => Err(OutOfMemory),
        _ => Ok(()),
    }
}

/// The place of the server or item of a number: they are numbered from 1.
pub fn place_in(number: u8, count: usize) -> Option<usize>
    ensures place { result ≡ place_in number count }
    ensures within { IfSome result (λ place. place < count) }
{
    let number = usize::from(number);
    if 1 <= number && number <= count {
        Some(number - 1)
    } else {
        None
    }
}

/// The changes from a place on, up to so many.
pub fn next_changes(changes: &[Change], place: usize, count: usize) -> &[Change]
    ensures changes { result.now ≡ take count (drop place changes.now) }
    ensures within { place + length result.now ≤ max place (length changes.now) }
{
    if place <= changes.len() {
        let (_, next) = changes.split_at(place);
        next.split_at(count.min(next.len())).0
    } else {
        &[]
    }
}
