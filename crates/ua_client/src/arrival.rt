//! Values that a subscription reports.

ghost use Rattle.std.specs.Prelude.{◌≡◌, IfOk};
ghost use Rattle.client_rules.specs.Arrival.{arrived_of, seen_by, seen_of, stamp_at, stamp_of, whole_boolean, whole_in, whole_long, whole_of};
ghost use Rattle.ua_variants.specs.declared.variant.Variant.{out-Variant};

use set_model::{Arrived, MOST_PICO, Seen, Stamp, UaRaw};
use std::alloc::Global;
use ua_base::OutOfMemory;
use ua_variants::{DataValue, Scalar, Variant, put_variant};

/// The whole number that an unsigned one of 64 bits is, if it fits.
fn whole_long(number: u64) -> Option<i64>
    ensures { result ≡ whole_long number }
{
    if number <= 0x7FFF_FFFF_FFFF_FFFF {
        Some(number as i64)
    } else {
        None
    }
}

fn whole_boolean(is: bool) -> i64
    ensures { result ≡ whole_boolean is }
{
    if is { 1 } else { 0 }
}

/// The whole number that a value is, if it is one that fits.
fn whole_of(value: &Scalar) -> Option<i64>
    ensures { result ≡ whole_of value.now }
{
    match value {
        Scalar::Boolean(is) => Some(whole_boolean(*is)),
        Scalar::SByte(number) => Some(i64::from(*number)),
        Scalar::Byte(number) => Some(i64::from(*number)),
        Scalar::Int16(number) => Some(i64::from(*number)),
        Scalar::UInt16(number) => Some(i64::from(*number)),
        Scalar::Int32(number) => Some(i64::from(*number)),
        Scalar::UInt32(number) => Some(i64::from(*number)),
        Scalar::Int64(number) => Some(*number),
        Scalar::UInt64(number) => whole_long(*number),
        _ => None,
    }
}

fn whole_in(value: &Variant) -> Option<i64>
    ensures { result ≡ whole_in (out-Variant value.now) }
{
    match value {
        Variant::Scalar(number) => whole_of(number),
        _ => None,
    }
}

/// The written bytes of a value.
fn raw(alloc: Global, value: &Variant) -> Result<Seen, OutOfMemory>
    ensures { IfOk result (λ seen. seen ≡ seen_by None value.now) }
{
    let mut bytes = Vec::new(alloc);
    put_variant(value, &mut bytes)?;
    Ok(Seen::Raw(UaRaw::new(bytes)))
}

fn seen_some(alloc: Global, value: &Variant) -> Result<Seen, OutOfMemory>
    ensures { IfOk result (λ seen. seen ≡ seen_by (whole_in (out-Variant value.now)) value.now) }
{
    match whole_in(value) {
        Some(number) => Ok(Seen::Whole(number)),
        None => raw(alloc, value),
    }
}

/// The byte 0, which is written of the null Variant.
#[tactic(auto, unfolding(client_rules::specs::Arrival::seen_of))]
fn null(alloc: Global) -> Result<Seen, OutOfMemory>
    ensures { IfOk result (λ seen. seen ≡ seen_of None) }
{
    let bytes = vec![in alloc; 0]?;
    Ok(Seen::Raw(UaRaw::new(bytes)))
}

#[tactic(auto, unfolding(client_rules::specs::Arrival::seen_of))]
fn seen(alloc: Global, value: &Option<Variant>) -> Result<Seen, OutOfMemory>
    ensures { IfOk result (λ seen. seen ≡ seen_of value.now) }
{
    match value {
        Some(value) => seen_some(alloc, value),
        None => null(alloc),
    }
}

fn stamp_at(time: i64, pico: Option<u16>) -> Stamp
    ensures { result ≡ stamp_at time pico }
{
    Stamp {
        time,
        pico: pico.unwrap_or(0).min(MOST_PICO),
    }
}

fn stamp(time: Option<i64>, pico: Option<u16>) -> Option<Stamp>
    ensures { result ≡ stamp_of time pico }
{
    match time {
        Some(time) => Some(stamp_at(time, pico)),
        None => None,
    }
}

/// A value as the log takes it: its source time, its value and its status (OPC 10000-4, 7.7).
///
/// # Errors
///
/// Want of memory.
#[tactic(auto, unfolding(client_rules::specs::Arrival::arrived_of))]
pub fn arrived(alloc: Global, value: &DataValue) -> Result<Arrived, OutOfMemory>
    ensures { IfOk result (λ entry. entry ≡ arrived_of value.now) }
{
    let time = stamp(value.source_timestamp, value.source_picoseconds);
    let status = value.status.unwrap_or(0);
    let seen = seen(alloc, &value.value)?;
    Ok(Arrived {
        time,
        value: seen,
        status,
    })
}
