//! The built-in types that are numbers.

use crate::types::{Type, tell_type};
use rows::{Kind, Stop, Verb};
use std::alloc::Global;
use ua_base::OutOfMemory;
use ua_values::{
    ValueFault, read_boolean, read_byte, read_date_time, read_double, read_float, read_guid,
    read_int16, read_int32, read_int64, read_sbyte, read_status_code, read_uint16, read_uint32,
    read_uint64, write_boolean, write_byte, write_date_time, write_double, write_float, write_guid,
    write_int16, write_int32, write_int64, write_sbyte, write_status_code, write_uint16,
    write_uint32, write_uint64,
};
use uuid::Uuid;

struct Booleans;

impl Kind for Booleans {
    type Value = bool;

    fn write(_alloc: Global, value: &bool, to: &mut Vec<u8>) -> Result<(), OutOfMemory> {
        write_boolean(*value, to)
    }
}

impl Type for Booleans {
    fn read(_alloc: Global, bytes: &[u8]) -> Result<(bool, usize), ValueFault> {
        read_boolean(bytes)
    }
}

struct SBytes;

impl Kind for SBytes {
    type Value = i8;

    fn write(_alloc: Global, value: &i8, to: &mut Vec<u8>) -> Result<(), OutOfMemory> {
        write_sbyte(*value, to)
    }
}

impl Type for SBytes {
    fn read(_alloc: Global, bytes: &[u8]) -> Result<(i8, usize), ValueFault> {
        read_sbyte(bytes)
    }
}

struct Bytes;

impl Kind for Bytes {
    type Value = u8;

    fn write(_alloc: Global, value: &u8, to: &mut Vec<u8>) -> Result<(), OutOfMemory> {
        write_byte(*value, to)
    }
}

impl Type for Bytes {
    fn read(_alloc: Global, bytes: &[u8]) -> Result<(u8, usize), ValueFault> {
        read_byte(bytes)
    }
}

struct Int16s;

impl Kind for Int16s {
    type Value = i16;

    fn write(_alloc: Global, value: &i16, to: &mut Vec<u8>) -> Result<(), OutOfMemory> {
        write_int16(*value, to)
    }
}

impl Type for Int16s {
    fn read(_alloc: Global, bytes: &[u8]) -> Result<(i16, usize), ValueFault> {
        read_int16(bytes)
    }
}

struct UInt16s;

impl Kind for UInt16s {
    type Value = u16;

    fn write(_alloc: Global, value: &u16, to: &mut Vec<u8>) -> Result<(), OutOfMemory> {
        write_uint16(*value, to)
    }
}

impl Type for UInt16s {
    fn read(_alloc: Global, bytes: &[u8]) -> Result<(u16, usize), ValueFault> {
        read_uint16(bytes)
    }
}

struct Int32s;

impl Kind for Int32s {
    type Value = i32;

    fn write(_alloc: Global, value: &i32, to: &mut Vec<u8>) -> Result<(), OutOfMemory> {
        write_int32(*value, to)
    }
}

impl Type for Int32s {
    fn read(_alloc: Global, bytes: &[u8]) -> Result<(i32, usize), ValueFault> {
        read_int32(bytes)
    }
}

struct UInt32s;

impl Kind for UInt32s {
    type Value = u32;

    fn write(_alloc: Global, value: &u32, to: &mut Vec<u8>) -> Result<(), OutOfMemory> {
        write_uint32(*value, to)
    }
}

impl Type for UInt32s {
    fn read(_alloc: Global, bytes: &[u8]) -> Result<(u32, usize), ValueFault> {
        read_uint32(bytes)
    }
}

struct Int64s;

impl Kind for Int64s {
    type Value = i64;

    fn write(_alloc: Global, value: &i64, to: &mut Vec<u8>) -> Result<(), OutOfMemory> {
        write_int64(*value, to)
    }
}

impl Type for Int64s {
    fn read(_alloc: Global, bytes: &[u8]) -> Result<(i64, usize), ValueFault> {
        read_int64(bytes)
    }
}

struct UInt64s;

impl Kind for UInt64s {
    type Value = u64;

    fn write(_alloc: Global, value: &u64, to: &mut Vec<u8>) -> Result<(), OutOfMemory> {
        write_uint64(*value, to)
    }
}

impl Type for UInt64s {
    fn read(_alloc: Global, bytes: &[u8]) -> Result<(u64, usize), ValueFault> {
        read_uint64(bytes)
    }
}

struct Floats;

impl Kind for Floats {
    type Value = u32;

    fn write(_alloc: Global, value: &u32, to: &mut Vec<u8>) -> Result<(), OutOfMemory> {
        write_float(*value, to)
    }
}

impl Type for Floats {
    fn read(_alloc: Global, bytes: &[u8]) -> Result<(u32, usize), ValueFault> {
        read_float(bytes)
    }
}

struct Doubles;

impl Kind for Doubles {
    type Value = u64;

    fn write(_alloc: Global, value: &u64, to: &mut Vec<u8>) -> Result<(), OutOfMemory> {
        write_double(*value, to)
    }
}

impl Type for Doubles {
    fn read(_alloc: Global, bytes: &[u8]) -> Result<(u64, usize), ValueFault> {
        read_double(bytes)
    }
}

struct DateTimes;

impl Kind for DateTimes {
    type Value = i64;

    fn write(_alloc: Global, value: &i64, to: &mut Vec<u8>) -> Result<(), OutOfMemory> {
        write_date_time(*value, to)
    }
}

impl Type for DateTimes {
    fn read(_alloc: Global, bytes: &[u8]) -> Result<(i64, usize), ValueFault> {
        read_date_time(bytes)
    }
}

struct Guids;

impl Kind for Guids {
    type Value = Uuid;

    fn write(_alloc: Global, value: &Uuid, to: &mut Vec<u8>) -> Result<(), OutOfMemory> {
        write_guid(*value, to)
    }
}

impl Type for Guids {
    fn read(_alloc: Global, bytes: &[u8]) -> Result<(Uuid, usize), ValueFault> {
        read_guid(bytes)
    }
}

struct StatusCodes;

impl Kind for StatusCodes {
    type Value = u32;

    fn write(_alloc: Global, value: &u32, to: &mut Vec<u8>) -> Result<(), OutOfMemory> {
        write_status_code(*value, to)
    }
}

impl Type for StatusCodes {
    fn read(_alloc: Global, bytes: &[u8]) -> Result<(u32, usize), ValueFault> {
        read_status_code(bytes)
    }
}

/// Tells a number of a type with this name.
pub(crate) fn tell_number(
    alloc: Global,
    verb: Verb,
    name: &str,
    bytes: &[u8],
    to: &mut String,
) -> Result<(), Stop> {
    match name {
        "Boolean" => tell_type::<Booleans>(alloc, verb, bytes, to),
        "SByte" => tell_type::<SBytes>(alloc, verb, bytes, to),
        "Byte" => tell_type::<Bytes>(alloc, verb, bytes, to),
        "Int16" => tell_type::<Int16s>(alloc, verb, bytes, to),
        "UInt16" => tell_type::<UInt16s>(alloc, verb, bytes, to),
        "Int32" => tell_type::<Int32s>(alloc, verb, bytes, to),
        "UInt32" => tell_type::<UInt32s>(alloc, verb, bytes, to),
        _ => tell_long_number(alloc, verb, name, bytes, to),
    }
}

/// The same, of the other types.
fn tell_long_number(
    alloc: Global,
    verb: Verb,
    name: &str,
    bytes: &[u8],
    to: &mut String,
) -> Result<(), Stop> {
    match name {
        "Int64" => tell_type::<Int64s>(alloc, verb, bytes, to),
        "UInt64" => tell_type::<UInt64s>(alloc, verb, bytes, to),
        "Float" => tell_type::<Floats>(alloc, verb, bytes, to),
        "Double" => tell_type::<Doubles>(alloc, verb, bytes, to),
        "DateTime" => tell_type::<DateTimes>(alloc, verb, bytes, to),
        "Guid" => tell_type::<Guids>(alloc, verb, bytes, to),
        "StatusCode" => tell_type::<StatusCodes>(alloc, verb, bytes, to),
        _ => Err(Stop::BadLine),
    }
}
