//! Lines that ask of bytes: a verb, a name, and the bytes in words of digits.

use crate::digits::bytes_of;
use crate::fronts::tell_fronts;
use crate::stop::Stop;
use crate::telling::Verb;
use crate::words::{number, put_number};
use std::alloc::Global;

/// The types that a driver knows by name.
pub trait Types {
    /// Tells what the bytes are as the type of this name.
    fn tell(
        alloc: Global,
        verb: Verb,
        name: &str,
        bytes: &[u8],
        to: &mut String,
    ) -> Result<(), Stop>;

    /// Answers what else is asked of bytes.
    fn ask(
        alloc: Global,
        verb: &str,
        name: &str,
        bytes: &[u8],
        to: &mut String,
    ) -> Result<(), Stop>;
}

fn answer_once<T: Types>(
    alloc: Global,
    verb: &str,
    name: &str,
    bytes: &[u8],
    to: &mut String,
) -> Result<(), Stop> {
    match verb {
        "read" => T::tell(alloc, Verb::Read, name, bytes, to),
        "again" => T::tell(alloc, Verb::Again, name, bytes, to),
        "size" => T::tell(alloc, Verb::Size, name, bytes, to),
        "fronts" => tell_fronts::<T>(alloc, name, bytes, to),
        _ => T::ask(alloc, verb, name, bytes, to),
    }
}

/// Answers so many times, the last time for good.
fn answer_often<T: Types>(
    alloc: Global,
    count: u32,
    verb: &str,
    name: &str,
    bytes: &[u8],
    to: &mut String,
) -> Result<(), Stop> {
    for _ in 0..count {
        to.clear();
        answer_once::<T>(alloc, verb, name, bytes, to)?;
    }
    Ok(())
}

/// Copies bytes so many times, and says how many they are.
fn copy_often(alloc: Global, count: u32, bytes: &[u8], to: &mut String) -> Result<(), Stop> {
    let mut size: usize = 0;
    for _ in 0..count {
        size = Vec::from_slice(alloc, bytes)?.len();
    }
    put_number(alloc, to, size as u64)
}

/// Answers a line that asks of bytes, and maybe again and again: `VERB NAME DIGITS..`, `repeat COUNT VERB NAME
/// DIGITS..`, or `repeat COUNT copied DIGITS..`, which says how many bytes were copied.
pub fn answer_asked<T: Types>(alloc: Global, words: &[&str], to: &mut String) -> Result<(), Stop> {
    match words {
        ["repeat", count, "copied", digits @ ..] => {
            copy_often(alloc, number(count)?, &bytes_of(alloc, digits)?, to)
        }
        ["repeat", count, verb, name, digits @ ..] => {
            let count = number(count)?;
            answer_often::<T>(alloc, count, verb, name, &bytes_of(alloc, digits)?, to)
        }
        [verb, name, digits @ ..] => {
            answer_once::<T>(alloc, verb, name, &bytes_of(alloc, digits)?, to)
        }
        _ => Err(Stop::BadLine),
    }
}
