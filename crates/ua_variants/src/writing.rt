//! Variants and DataValues, written.

ghost use Rattle.std.specs.Prelude.{◌≡◌, ◌++◌, ◌<◌, ◌%◌, ◌^◌, length, replicate, OnOk, OnErr};
ghost use Rattle.std.specs.List.{flat_map};
ghost use Rattle.std.specs.Option.{is_some};
ghost use Rattle.std.specs.Int.{w64};
ghost use Rattle.byteorder.specs.Endian.{little_bytes};
ghost use Rattle.ua_values.specs.Written.{written_signed};
ghost use Rattle.ua_variants.specs.Spelling.{written_shape, written_head, written_some, mask_of, written_stamps, written_variant, written_data_value};

use crate::flat::{put_flat_array, put_scalar};
use crate::head::{Head, Kind};
use crate::variant::{DataValue, Variant};
use sqlite_items::Items;
use std::alloc::Global;
use ua_base::OutOfMemory;
use ua_values::{flag, put_array, write_byte, write_int64, write_uint16, write_uint32};

fn put_shape(sizes: &Option<Items<u32>>, to: &mut Vec<u8>) -> Result<(), OutOfMemory>
    ensures { OnOk result (to.new.items ≡ to.old.items ++ written_shape sizes.now) }
{
    match sizes {
        None => Ok(()),
        Some(sizes) => put_array(sizes.as_slice(), to),
    }
}

/// The first byte of an array's Variant, which says whether dimensions follow.
fn put_head(kind: Kind, sizes: &Option<Items<u32>>, to: &mut Vec<u8>) -> Result<(), OutOfMemory>
    ensures { OnOk result (to.new.items ≡ to.old.items ++ written_head kind sizes.now) }
{
    write_byte(Head::Many(kind, sizes.is_some()).number(), to)
}

/// A number of elements.
fn put_count(count: usize, to: &mut Vec<u8>) -> Result<(), OutOfMemory>
    ensures { OnOk result (to.new.items ≡ to.old.items ++ little_bytes 4 (count % 2 ^ 32)) }
{
    write_uint32((count as u64 & 0xFFFF_FFFF) as u32, to)
}

fn put_some_uint16(value: Option<u16>, to: &mut Vec<u8>) -> Result<(), OutOfMemory>
    ensures { OnOk result (to.new.items ≡ to.old.items ++ written_some (little_bytes 2) value) }
{
    match value {
        None => Ok(()),
        Some(value) => write_uint16(value, to),
    }
}

fn put_some_uint32(value: Option<u32>, to: &mut Vec<u8>) -> Result<(), OutOfMemory>
    ensures { OnOk result (to.new.items ≡ to.old.items ++ written_some (little_bytes 4) value) }
{
    match value {
        None => Ok(()),
        Some(value) => write_uint32(value, to),
    }
}

fn put_some_int64(value: Option<i64>, to: &mut Vec<u8>) -> Result<(), OutOfMemory>
    ensures { OnOk result (to.new.items ≡ to.old.items ++ written_some (written_signed 8 w64) value) }
{
    match value {
        None => Ok(()),
        Some(value) => write_int64(value, to),
    }
}

/// Which fields are there.
fn mask(value: &DataValue) -> u8
    ensures { result ≡ mask_of value.now }
{
    flag(1, value.value.is_some())
        + flag(2, value.status.is_some())
        + flag(4, value.source_timestamp.is_some())
        + flag(16, value.source_picoseconds.is_some())
        + flag(8, value.server_timestamp.is_some())
        + flag(32, value.server_picoseconds.is_some())
}

/// The fields after the value.
fn put_stamps(value: &DataValue, to: &mut Vec<u8>) -> Result<(), OutOfMemory>
    ensures { OnOk result (to.new.items ≡ to.old.items ++ written_stamps value.now) }
{
    put_some_uint32(value.status, to)?;
    put_some_int64(value.source_timestamp, to)?;
    put_some_uint16(value.source_picoseconds, to)?;
    put_some_int64(value.server_timestamp, to)?;
    put_some_uint16(value.server_picoseconds, to)
}

/// DiagnosticInfos that say nothing, so many.
fn put_diagnostics(count: usize, to: &mut Vec<u8>) -> Result<(), OutOfMemory>
    ensures { OnOk result (to.new.items ≡ to.old.items ++ flat_map (little_bytes 1) (replicate count 0)) }
{
    for _i in 0..count {
        write_byte(0, to)?;
    }
    Ok(())
}

#[cycle(writes)]
fn put_variants(items: &[Variant], to: &mut Vec<u8>) -> Result<(), OutOfMemory>
    ensures { OnOk result (to.new.items ≡ to.old.items ++ flat_map written_variant items.now) }
{
    for item in items {
        put_variant(item, to)?;
    }
    Ok(())
}

#[cycle(writes)]
fn put_data_values(items: &[DataValue], to: &mut Vec<u8>) -> Result<(), OutOfMemory>
    ensures { OnOk result (to.new.items ≡ to.old.items ++ flat_map written_data_value items.now) }
{
    for item in items {
        put_data_value(item, to)?;
    }
    Ok(())
}

#[cycle(writes)]
fn put_some_variant(value: &Option<Variant>, to: &mut Vec<u8>) -> Result<(), OutOfMemory>
    ensures { OnOk result (to.new.items ≡ to.old.items ++ written_some written_variant value.now) }
{
    match value {
        None => Ok(()),
        Some(value) => put_variant(value, to),
    }
}

/// Appends a DataValue (OPC 10000-6, 5.2.2.17). Want of memory leaves what was appended by then.
#[cycle(writes)]
pub fn put_data_value(value: &DataValue, to: &mut Vec<u8>) -> Result<(), OutOfMemory>
    ensures { OnOk result (to.new.items ≡ to.old.items ++ written_data_value value.now) }
{
    write_byte(mask(value), to)?;
    put_some_variant(&value.value, to)?;
    put_stamps(value, to)
}

/// Appends a Variant (OPC 10000-6, 5.2.2.16). Want of memory leaves what was appended by then.
#[cycle(writes)]
pub fn put_variant(value: &Variant, to: &mut Vec<u8>) -> Result<(), OutOfMemory>
    ensures { OnOk result (to.new.items ≡ to.old.items ++ written_variant value.now) }
{
    match value {
        Variant::Null => write_byte(0, to),
        Variant::Scalar(value) => {
            write_byte(Head::One(Kind::Flat(value.flat())).number(), to)?;
            put_scalar(value, to)
        }
        Variant::DataValue(value) => {
            write_byte(23, to)?;
            put_data_value(value.get(), to)
        }
        Variant::Variant(value) => {
            write_byte(24, to)?;
            put_variant(value.get(), to)
        }
        Variant::DiagnosticInfo => {
            write_byte(25, to)?;
            write_byte(0, to)
        }
        Variant::Array(items, sizes) => {
            put_head(Kind::Flat(items.flat()), sizes, to)?;
            put_flat_array(items, to)?;
            put_shape(sizes, to)
        }
        Variant::DataValues(items, sizes) => {
            put_head(Kind::DataValue, sizes, to)?;
            put_count(items.len(), to)?;
            put_data_values(items.as_slice(), to)?;
            put_shape(sizes, to)
        }
        Variant::Variants(items, sizes) => {
            put_head(Kind::Variant, sizes, to)?;
            put_count(items.len(), to)?;
            put_variants(items.as_slice(), to)?;
            put_shape(sizes, to)
        }
        Variant::DiagnosticInfos(count, sizes) => {
            put_head(Kind::DiagnosticInfo, sizes, to)?;
            put_count(*count, to)?;
            put_diagnostics(*count, to)?;
            put_shape(sizes, to)
        }
    }
}
