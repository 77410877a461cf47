//! Variants and DataValues, read.

ghost use Rattle.std.specs.Prelude.{Some, None};
ghost use Rattle.std.specs.Int.{w64};
ghost use Rattle.ua_values.specs.Reading.{Moves, number_at, field_at};
ghost use Rattle.ua_values.specs.Readers.{signed_at, optional_at, array_at, elements_at};
ghost use Rattle.ua_variants.specs.Kinds.{head_of};
ghost use Rattle.ua_variants.specs.Reader.{making, diagnostic_at, variant_by_at, variant_at, stamps_at, data_value_by_at, data_value_at, body_at};

use crate::diagnostic::{diagnostic, too_deep};
use crate::dimensions::shape;
use crate::flat::{flat_array, scalar};
use crate::head::{Head, Kind};
use crate::variant::{DataValue, DiagnosticInfo, MOST_DEPTH, Stamps, Variant};
use sqlite_items::{Boxed, Items};
use std::alloc::Global;
use ua_base::status::BAD_DECODING_ERROR;
use ua_values::{Cursor, MOST_ITEMS, ValueFault, has_bit};

/// The first byte of a Variant.
fn head(from: &mut Cursor<'_>) -> Result<Head, ValueFault>
    ensures { Moves (λ h. h) result from.new (field_at 1 head_of from.old) }
{
    let place = from.place();
    Head::of(from.byte()?).ok_or(ValueFault::Bad {
        place,
        code: BAD_DECODING_ERROR,
    })
}

fn some_uint16(is_there: bool, from: &mut Cursor<'_>) -> Result<Option<u16>, ValueFault>
    ensures { Moves (λ n. n) result from.new (optional_at is_there None (making Some (number_at 2)) from.old) }
{
    if is_there {
        let number = from.uint16()?;
        Ok(Some(number))
    } else {
        Ok(None)
    }
}

fn some_uint32(is_there: bool, from: &mut Cursor<'_>) -> Result<Option<u32>, ValueFault>
    ensures { Moves (λ n. n) result from.new (optional_at is_there None (making Some (number_at 4)) from.old) }
{
    if is_there {
        let number = from.uint32()?;
        Ok(Some(number))
    } else {
        Ok(None)
    }
}

fn some_int64(is_there: bool, from: &mut Cursor<'_>) -> Result<Option<i64>, ValueFault>
    ensures { Moves (λ n. n) result from.new (optional_at is_there None (making Some (signed_at 8 w64)) from.old) }
{
    if is_there {
        let number = from.int64()?;
        Ok(Some(number))
    } else {
        Ok(None)
    }
}

/// The fields of a DataValue after its value, those that the mask says are there.
fn stamps(mask: u8, from: &mut Cursor<'_>) -> Result<Stamps, ValueFault>
    ensures { Moves (λ s. s) result from.new (stamps_at mask from.old) }
{
    let status = some_uint32(has_bit(2, mask), from)?;
    let source_timestamp = some_int64(has_bit(4, mask), from)?;
    let source_picoseconds = some_uint16(has_bit(16, mask), from)?;
    let server_timestamp = some_int64(has_bit(8, mask), from)?;
    let server_picoseconds = some_uint16(has_bit(32, mask), from)?;
    Ok(Stamps {
        status,
        source_timestamp,
        source_picoseconds,
        server_timestamp,
        server_picoseconds,
    })
}

/// So many DiagnosticInfos.
fn diagnostics(
    alloc: Global,
    count: u32,
    from: &mut Cursor<'_>,
) -> Result<Vec<DiagnosticInfo>, ValueFault>
    ensures { Moves (λ items. items.items) result from.new (elements_at count (diagnostic_at 101) from.old) }
{
    let mut items = Vec::new(alloc);
    for _i in 0..count {
        let element = diagnostic(alloc, MOST_DEPTH, from)?;
        items.push(element)?;
    }
    Ok(items)
}

/// So many Variants.
#[cycle(reads)]
fn variants(
    alloc: Global,
    levels: u8,
    count: u32,
    from: &mut Cursor<'_>,
) -> Result<Items<Variant>, ValueFault>
    ensures { Moves (λ items. items) result from.new (elements_at count (variant_at levels) from.old) }
{
    let mut items = Items::new(alloc);
    for _i in 0..count {
        let element = variant(alloc, levels, from)?;
        items.push(element)?;
    }
    Ok(items)
}

/// So many DataValues.
#[cycle(reads)]
fn data_values(
    alloc: Global,
    levels: u8,
    count: u32,
    from: &mut Cursor<'_>,
) -> Result<Items<DataValue>, ValueFault>
    ensures { Moves (λ items. items) result from.new (elements_at count (data_value_at levels) from.old) }
{
    let mut items = Items::new(alloc);
    for _i in 0..count {
        let element = data_value(alloc, levels, from)?;
        items.push(element)?;
    }
    Ok(items)
}

/// What follows the first byte of a Variant, in which `levels` more may stand inside each other.
#[cycle(reads)]
fn body(alloc: Global, levels: u8, head: Head, from: &mut Cursor<'_>) -> Result<Variant, ValueFault>
    ensures { Moves (λ v. v) result from.new (body_at (variant_at levels) (data_value_at levels) head from.old) }
{
    match head {
        Head::Null => Ok(Variant::Null),
        Head::One(Kind::Flat(flat)) => {
            let value = scalar(alloc, flat, from)?;
            Ok(Variant::Scalar(value))
        }
        Head::One(Kind::DataValue) => {
            let value = data_value(alloc, levels, from)?;
            Ok(Variant::DataValue(Boxed::new(alloc, value)?))
        }
        Head::One(Kind::Variant) => {
            let value = variant(alloc, levels, from)?;
            Ok(Variant::Variant(Boxed::new(alloc, value)?))
        }
        Head::One(Kind::DiagnosticInfo) => {
            diagnostic(alloc, MOST_DEPTH, from)?;
            Ok(Variant::DiagnosticInfo)
        }
        Head::Many(Kind::Flat(flat), is_there) => {
            let items = flat_array(alloc, flat, from)?;
            let sizes = shape(alloc, items.len(), is_there, from)?;
            Ok(Variant::Array(items, sizes))
        }
        Head::Many(Kind::DataValue, is_there) => {
            let count = from.count(MOST_ITEMS)?;
            let items = data_values(alloc, levels, count, from)?;
            let sizes = shape(alloc, items.len(), is_there, from)?;
            Ok(Variant::DataValues(items, sizes))
        }
        Head::Many(Kind::Variant, is_there) => {
            let count = from.count(MOST_ITEMS)?;
            let items = variants(alloc, levels, count, from)?;
            let sizes = shape(alloc, items.len(), is_there, from)?;
            Ok(Variant::Variants(items, sizes))
        }
        Head::Many(Kind::DiagnosticInfo, is_there) => {
            let count = from.count(MOST_ITEMS)?;
            let items = diagnostics(alloc, count, from)?;
            let sizes = shape(alloc, items.len(), is_there, from)?;
            Ok(Variant::DiagnosticInfos(items.len(), sizes))
        }
    }
}

/// A Variant in which `levels` more may stand inside each other.
#[cycle(reads)]
fn variant_in(alloc: Global, levels: u8, from: &mut Cursor<'_>) -> Result<Variant, ValueFault>
    ensures { Moves (λ v. v) result from.new (variant_by_at (variant_at levels) (data_value_at levels) from.old) }
{
    let head = head(from)?;
    body(alloc, levels, head, from)
}

/// A Variant, where `levels` of them may stand inside each other, this one among them.
#[cycle(reads)]
pub(crate) fn variant(
    alloc: Global,
    levels: u8,
    from: &mut Cursor<'_>,
) -> Result<Variant, ValueFault>
    ensures { Moves (λ v. v) result from.new (variant_at levels from.old) }
{
    if levels == 0 {
        return Err(too_deep(from.place()));
    }
    variant_in(alloc, levels - 1, from)
}

#[cycle(reads)]
fn some_variant(
    alloc: Global,
    levels: u8,
    is_there: bool,
    from: &mut Cursor<'_>,
) -> Result<Option<Variant>, ValueFault>
    ensures { Moves (λ v. v) result from.new (optional_at is_there None (making Some (variant_at levels)) from.old) }
{
    if is_there {
        let value = variant(alloc, levels, from)?;
        Ok(Some(value))
    } else {
        Ok(None)
    }
}

/// A DataValue in which `levels` more may stand inside each other.
#[cycle(reads)]
fn data_value_in(alloc: Global, levels: u8, from: &mut Cursor<'_>) -> Result<DataValue, ValueFault>
    ensures { Moves (λ d. d) result from.new (data_value_by_at (variant_at levels) from.old) }
{
    let mask = from.byte()?;
    let value = some_variant(alloc, levels, has_bit(1, mask), from)?;
    let fields = stamps(mask, from)?;
    Ok(fields.with(value))
}

/// A DataValue, where `levels` of them may stand inside each other, this one among them.
#[cycle(reads)]
pub(crate) fn data_value(
    alloc: Global,
    levels: u8,
    from: &mut Cursor<'_>,
) -> Result<DataValue, ValueFault>
    ensures { Moves (λ d. d) result from.new (data_value_at levels from.old) }
{
    if levels == 0 {
        return Err(too_deep(from.place()));
    }
    data_value_in(alloc, levels - 1, from)
}
