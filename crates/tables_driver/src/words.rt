//! What the words of a line say.

ghost use Rattle.std.specs.Prelude.{◌≤◌, IfOk};

use rows::{Stop, decode, number, put};
use set_model::{Change, MOST_PICO, Stamp};
use std::alloc::Global;
use ua_values::{UaBytes, UaText};

/// The text that a word is; `null` is the one that isn't there.
pub(crate) fn text(alloc: Global, word: &str) -> Result<UaText, Stop> {
    if word == "null" {
        return Ok(UaText::null());
    }
    let bytes = Vec::from_slice(alloc, word.as_bytes())?;
    Ok(UaText::new(bytes))
}

/// The bytes of hexadecimal digits; `-` are none.
pub(crate) fn bytes(alloc: Global, word: &str) -> Result<Vec<u8>, Stop> {
    match word {
        "-" => Ok(Vec::new(alloc)),
        digits => decode(alloc, digits),
    }
}

/// The ByteString of hexadecimal digits; `null` is the one that isn't there.
pub(crate) fn byte_string(alloc: Global, word: &str) -> Result<UaBytes, Stop> {
    if word == "null" {
        Ok(UaBytes::null())
    } else {
        Ok(UaBytes::new(bytes(alloc, word)?))
    }
}

/// The stamp of a word: a time, or a time and picoseconds behind a dot.
pub(crate) fn stamp(word: &str) -> Result<Stamp, Stop>
    ensures { IfOk result (λ stamp. stamp.pico ≤ 9999) }
{
    let (time, pico) = word.split_once('.').unwrap_or((word, "0"));
    let time = number(time)?;
    let pico = number(pico)?;
    if pico > MOST_PICO {
        return Err(Stop::BadLine);
    }
    Ok(Stamp { time, pico })
}

/// The stamp of a word; `none` is none.
pub(crate) fn some_stamp(word: &str) -> Result<Option<Stamp>, Stop> {
    if word == "none" {
        Ok(None)
    } else {
        Ok(Some(stamp(word)?))
    }
}

/// The change of an item at a stamp.
pub(crate) fn change(item: &str, at: &str, value: &str) -> Result<Change, Stop>
    ensures { IfOk result (λ change. change.pico ≤ 9999) }
{
    let item = number(item)?;
    let value = number(value)?;
    let Stamp { time, pico } = stamp(at)?;
    Ok(Change {
        item,
        time,
        pico,
        value,
    })
}

/// Appends a text; `null` is the one that isn't there.
pub(crate) fn put_text(to: &mut String, text: &UaText) -> Result<(), Stop> {
    let Some(bytes) = text.bytes() else {
        return put(to, "null");
    };
    match std::str::from_utf8(bytes) {
        Ok(text) => put(to, text),
        Err(_) => put(to, "no text"),
    }
}

/// Appends bytes as hexadecimal digits; none are `-`.
pub(crate) fn put_digits(alloc: Global, to: &mut String, bytes: &[u8]) -> Result<(), Stop> {
    if bytes.is_empty() {
        return put(to, "-");
    }
    put(to, hex::encode(alloc, bytes)?.as_str())
}

/// Appends a number, if there is one.
pub(crate) fn put_some(alloc: Global, to: &mut String, some: Option<u32>) -> Result<(), Stop> {
    match some {
        Some(number) => put(to, format!(in alloc; "{number}")?.as_str()),
        None => put(to, "none"),
    }
}
