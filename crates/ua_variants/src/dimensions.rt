//! The dimensions of an array.

ghost use Rattle.std.specs.Prelude.{◌≡◌, ◌==◌, ◌&&◌, ◌-◌, ◌^◌, min};
ghost use Rattle.ua_values.specs.Reading.{Moves};
ghost use Rattle.ua_variants.specs.Grammar.{product};
ghost use Rattle.ua_variants.specs.Reader.{none_negative, dimensions_at, shape_at};

use sqlite_items::Items;
use std::alloc::Global;
use ua_base::status::BAD_DECODING_ERROR;
use ua_values::{Cursor, ValueFault, read_array_within};

/// How many dimensions an array may have.
pub const MOST_DIMENSIONS: u32 = 16;

/// The product of the sizes, up to the largest number of 128 bits.
fn product(sizes: &[u32]) -> u128
    ensures { result ≡ min (product sizes.now) (2 ^ 128 - 1) }
{
    let mut total = 1_u128;
    for size in sizes {
        total = total.saturating_mul(u128::from(*size));
    }
    total
}

/// Whether all sizes are numbers that an Int32 holds.
fn none_negative(sizes: &[u32]) -> bool
    ensures { result ≡ none_negative sizes.now }
{
    match sizes {
        [] => true,
        [first, more @ ..] => *first < 1 << 31 && none_negative(more),
    }
}

/// The sizes of the dimensions of so many elements.
fn dimensions(alloc: Global, count: usize, from: &mut Cursor<'_>) -> Result<Items<u32>, ValueFault>
    ensures { Moves (λ sizes. sizes) result from.new (dimensions_at count from.old) }
{
    let place = from.place();
    let sizes: Vec<u32> = read_array_within(alloc, MOST_DIMENSIONS, from)?;
    if none_negative(&sizes) && product(&sizes) == count as u128 {
        Ok(Items::from_vec(sizes))
    } else {
        Err(ValueFault::Bad {
            place,
            code: BAD_DECODING_ERROR,
        })
    }
}

/// The dimensions, where the array has some.
pub(crate) fn shape(
    alloc: Global,
    count: usize,
    is_there: bool,
    from: &mut Cursor<'_>,
) -> Result<Option<Items<u32>>, ValueFault>
    ensures { Moves (λ shape. shape) result from.new (shape_at count is_there from.old) }
{
    if is_there {
        let sizes = dimensions(alloc, count, from)?;
        Ok(Some(sizes))
    } else {
        Ok(None)
    }
}
