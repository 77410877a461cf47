//! How a value at the front of bytes is told.

use rows::{Kind, Stop, Verb, put, put_place, tell_front};
use std::alloc::Global;
use ua_base::OutOfMemory;
use ua_values::{Cursor, ValueFault, put_array, read_array_within};

/// A kind of values that stand at the front of bytes.
pub(crate) trait Type: Kind {
    /// Reads a value, and says how many bytes it takes.
    fn read(alloc: Global, bytes: &[u8]) -> Result<(Self::Value, usize), ValueFault>;
}

/// A kind of values that can be copied.
pub(crate) trait Copied: Type {
    /// Copies a value.
    fn copy(alloc: Global, value: &Self::Value) -> Result<Self::Value, OutOfMemory>;
}

/// Appends a fault.
pub(crate) fn put_fault(alloc: Global, fault: ValueFault, to: &mut String) -> Result<(), Stop> {
    match fault {
        ValueFault::Short => put(to, "short"),
        ValueFault::Bad { place, code } => put_place(alloc, place as u64, code, to),
        ValueFault::OutOfMemory => Err(Stop::OutOfMemory),
    }
}

/// Tells what was read at the front of these bytes, behind how many it takes; or the fault.
fn tell_read<T: Kind>(
    alloc: Global,
    verb: Verb,
    read: &Result<(T::Value, usize), ValueFault>,
    bytes: &[u8],
    to: &mut String,
) -> Result<(), Stop> {
    match read {
        Ok((value, size)) => tell_front::<T>(alloc, verb, value, *size, bytes, to),
        Err(fault) => put_fault(alloc, *fault, to),
    }
}

/// Tells the value at the front of the bytes.
pub(crate) fn tell_type<T: Type>(
    alloc: Global,
    verb: Verb,
    bytes: &[u8],
    to: &mut String,
) -> Result<(), Stop> {
    tell_read::<T>(alloc, verb, &T::read(alloc, bytes), bytes, to)
}

/// A copy of the value at the front of the bytes, and how many bytes that takes.
fn copy_of<T: Copied>(alloc: Global, bytes: &[u8]) -> Result<(T::Value, usize), ValueFault> {
    let (value, size) = T::read(alloc, bytes)?;
    Ok((T::copy(alloc, &value)?, size))
}

/// Writes a copy of the value that stands at the front of the bytes.
pub(crate) fn tell_copy<T: Copied>(
    alloc: Global,
    bytes: &[u8],
    to: &mut String,
) -> Result<(), Stop> {
    tell_read::<T>(alloc, Verb::Again, &copy_of::<T>(alloc, bytes), bytes, to)
}

/// Arrays of Bytes.
struct ByteArrays;

impl Kind for ByteArrays {
    type Value = Vec<u8>;

    fn write(_alloc: Global, value: &Vec<u8>, to: &mut Vec<u8>) -> Result<(), OutOfMemory> {
        put_array(value, to)
    }
}

fn read_within(alloc: Global, most: u32, bytes: &[u8]) -> Result<(Vec<u8>, usize), ValueFault> {
    let mut from = Cursor::new(bytes);
    let read = read_array_within(alloc, most, &mut from);
    from.sized(read)
}

/// Tells an array of at most `most` Bytes at the front of the bytes.
pub(crate) fn tell_within(
    alloc: Global,
    most: u32,
    bytes: &[u8],
    to: &mut String,
) -> Result<(), Stop> {
    let read = read_within(alloc, most, bytes);
    tell_read::<ByteArrays>(alloc, Verb::Read, &read, bytes, to)
}
