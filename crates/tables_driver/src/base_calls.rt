//! Durations, sequence numbers, and the numbers of modes.

use rows::{Stop, number, put, put_number};
use std::alloc::Global;
use ua_base::{
    LAST_CHUNK, MOST_MS, Mode, Timestamps, bits_of_ms, ms_of_bits, next_chunk, next_message,
};

/// The bits of a Double in hexadecimal digits.
fn bits(word: &str) -> Result<u64, Stop> {
    match u64::from_str_radix(word, 16) {
        Ok(bits) => Ok(bits),
        Err(_) => Err(Stop::BadLine),
    }
}

fn put_ms(alloc: Global, to: &mut String, bits: u64) -> Result<(), Stop> {
    let ms = ms_of_bits(bits);
    put(to, format!(in alloc; "{ms}")?.as_str())
}

fn put_bits(alloc: Global, to: &mut String, ms: u64) -> Result<(), Stop> {
    if ms > MOST_MS {
        return Err(Stop::BadLine);
    }
    let bits = bits_of_ms(ms);
    put(to, format!(in alloc; "{bits:016x}")?.as_str())
}

fn put_chunk(alloc: Global, to: &mut String, number: u32) -> Result<(), Stop> {
    if number > LAST_CHUNK {
        return Err(Stop::BadLine);
    }
    put_number(alloc, to, u64::from(next_chunk(number)))
}

fn put_mode(alloc: Global, to: &mut String, number: u32) -> Result<(), Stop> {
    let Some(mode) = Mode::of_number(number) else {
        return put(to, "none");
    };
    let again = mode.number();
    put(to, format!(in alloc; "{mode:?} {again}")?.as_str())
}

fn put_timestamps(alloc: Global, to: &mut String, number: u32) -> Result<(), Stop> {
    let Some(stamps) = Timestamps::of_number(number) else {
        return put(to, "none");
    };
    let again = stamps.number();
    put(to, format!(in alloc; "{stamps:?} {again}")?.as_str())
}

/// Answers a line of these words.
pub(crate) fn answer(alloc: Global, words: &[&str], to: &mut String) -> Result<(), Stop> {
    match words {
        ["ms", digits] => put_ms(alloc, to, bits(digits)?),
        ["bits", ms] => put_bits(alloc, to, number(ms)?),
        ["next_message", last] => put_number(alloc, to, u64::from(next_message(number(last)?))),
        ["next_chunk", last] => put_chunk(alloc, to, number(last)?),
        ["mode", word] => put_mode(alloc, to, number(word)?),
        ["timestamps", word] => put_timestamps(alloc, to, number(word)?),
        _ => Err(Stop::BadLine),
    }
}
