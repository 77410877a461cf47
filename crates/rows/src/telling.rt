//! What is said of something that was read.

use crate::digits::put_bytes;
use crate::stop::Stop;
use crate::words::{put, put_number};
use std::alloc::Global;
use std::fmt::Debug;
use ua_base::OutOfMemory;

/// What is done with bytes.
#[derive(Clone, Copy, Debug, PartialEq, Eq)]
pub enum Verb {
    /// They are read; the value's fields are told by their names.
    Read,
    /// They are read, and what was read is written.
    Again,
    /// They are read.
    Size,
}

/// A kind of values: they are told as their `Debug` has them, and written.
pub trait Kind {
    /// What is read.
    type Value: Debug + Drop;

    /// Appends the value's bytes.
    fn write(alloc: Global, value: &Self::Value, to: &mut Vec<u8>) -> Result<(), OutOfMemory>;
}

/// Appends a value as its type's `Debug` has it.
pub fn put_debug<T: Debug>(
    alloc: Global,
    head: &str,
    value: &T,
    to: &mut String,
) -> Result<(), Stop> {
    put(to, format!(in alloc; "{head}{value:?}")?.as_str())
}

/// Appends the place and the code of a fault.
pub fn put_place(alloc: Global, place: u64, code: u32, to: &mut String) -> Result<(), Stop> {
    put(to, format!(in alloc; "byte {place}: {code:08X}")?.as_str())
}

/// A byte that stands before what is written.
pub const BEFORE: u8 = 0x55;

/// A list in which that byte stands.
pub fn begun(alloc: Global) -> Result<Vec<u8>, Stop> {
    let mut bytes = Vec::new(alloc);
    bytes.push(BEFORE)?;
    Ok(bytes)
}

/// Appends what was written behind that byte.
pub fn put_behind(alloc: Global, written: &[u8], to: &mut String) -> Result<(), Stop> {
    match written.split_first() {
        Some((&BEFORE, own)) => put_bytes(alloc, own, to),
        _ => put(to, "what stood there is gone"),
    }
}

/// Appends what was written of a value: `same` where that is what was read.
fn put_again<K: Kind>(
    alloc: Global,
    value: &K::Value,
    read: &[u8],
    to: &mut String,
) -> Result<(), Stop> {
    let mut written = begun(alloc)?;
    K::write(alloc, value, &mut written)?;
    if written.strip_prefix(&[BEFORE]) == Some(read) {
        put(to, " same")
    } else {
        put(to, " ")?;
        put_behind(alloc, &written, to)
    }
}

/// Tells a value that stood in these bytes.
pub fn tell<K: Kind>(
    alloc: Global,
    verb: Verb,
    value: &K::Value,
    bytes: &[u8],
    to: &mut String,
) -> Result<(), Stop> {
    match verb {
        Verb::Size => Ok(()),
        Verb::Read => put_debug(alloc, " ", value, to),
        Verb::Again => put_again::<K>(alloc, value, bytes, to),
    }
}

/// The first so many bytes, or all.
fn front(bytes: &[u8], size: usize) -> &[u8] {
    match bytes.split_at_checked(size) {
        Some((front, _)) => front,
        None => bytes,
    }
}

/// Tells a value that stood at the front of these bytes, behind how many it takes.
pub fn tell_front<K: Kind>(
    alloc: Global,
    verb: Verb,
    value: &K::Value,
    size: usize,
    bytes: &[u8],
    to: &mut String,
) -> Result<(), Stop> {
    put_number(alloc, to, size as u64)?;
    tell::<K>(alloc, verb, value, front(bytes, size), to)
}
