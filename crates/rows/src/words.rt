//! What the words of a line say, and words of an answer.

ghost use Rattle.std.specs.Prelude.{◌<◌, IfOk};

use crate::stop::Stop;
use std::alloc::Global;

/// The number that a word is.
pub fn number<T: std::str::FromStr + Drop>(word: &str) -> Result<T, Stop>
where
    T::Err: Drop,
{
    match word.parse::<T>() {
        Ok(number) => Ok(number),
        Err(_) => Err(Stop::BadLine),
    }
}

/// The number that a word is, where it isn't 0.
pub fn positive(word: &str) -> Result<usize, Stop>
    ensures { IfOk result (λ size. 0 < size) }
{
    let size = number::<usize>(word)?;
    if size == 0 {
        Err(Stop::BadLine)
    } else {
        Ok(size)
    }
}

/// `true` or `false`.
pub fn truth(word: &str) -> Result<bool, Stop> {
    match word {
        "true" => Ok(true),
        "false" => Ok(false),
        _ => Err(Stop::BadLine),
    }
}

/// Appends a text.
pub fn put(to: &mut String, text: &str) -> Result<(), Stop> {
    to.push_str(text)?;
    Ok(())
}

/// Appends what parts an answer: nothing before its first part.
pub fn put_bar(to: &mut String) -> Result<(), Stop> {
    if to.is_empty() {
        Ok(())
    } else {
        put(to, " / ")
    }
}

/// Appends a number.
pub fn put_number(alloc: Global, to: &mut String, number: u64) -> Result<(), Stop> {
    put(to, format!(in alloc; "{number}")?.as_str())
}

/// Appends `true` or `false`.
pub fn put_truth(to: &mut String, is: bool) -> Result<(), Stop> {
    put(to, if is { "true" } else { "false" })
}

/// Appends a text whose line feeds are `/`.
pub fn put_lines(alloc: Global, to: &mut String, text: &[u8]) -> Result<(), Stop> {
    let Ok(text) = std::str::from_utf8(text) else {
        return put(to, "no text");
    };
    for part in text.split_inclusive('\n') {
        put_line(alloc, to, part)?;
    }
    Ok(())
}

fn put_line(alloc: Global, to: &mut String, part: &str) -> Result<(), Stop> {
    match part.strip_suffix('\n') {
        Some(line) => put(to, format!(in alloc; "{line}/")?.as_str()),
        None => put(to, part),
    }
}
