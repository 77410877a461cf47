//! What `show value` and `show stream` print.

use rows::{Stop, Verb, put};
use show::{ShowFault, show_stream, show_value};
use std::alloc::Global;

/// A line that comes so often.
#[derive(Clone, Copy)]
struct Row<'a> {
    line: &'a str,
    count: u64,
}

impl Row<'_> {
    /// Appends the line and a slash, and how often it comes where that is several times.
    fn put(self, alloc: Global, to: &mut String) -> Result<(), Stop> {
        let Row { line, count } = self;
        match count {
            0 => Ok(()),
            1 => put(to, format!(in alloc; "{line}/")?.as_str()),
            _ => put(to, format!(in alloc; "{line}, {count} times/")?.as_str()),
        }
    }
}

/// Appends lines, each ended by a slash.
fn put_rows(alloc: Global, text: &str, to: &mut String) -> Result<(), Stop> {
    let mut row = Row { line: "", count: 0 };
    for line in text.split('\n') {
        if row.line == line {
            row.count = row.count.saturating_add(1);
        } else {
            row.put(alloc, to)?;
            row = Row { line, count: 1 };
        }
    }
    row.put(alloc, to)
}

/// Appends a text, with a slash in place of each line feed; no line is `-`.
fn put_text(alloc: Global, text: &[u8], to: &mut String) -> Result<(), Stop> {
    match std::str::from_utf8(text) {
        Ok("") => put(to, "-"),
        Ok(text) => put_rows(alloc, text.strip_suffix('\n').unwrap_or(text), to),
        Err(_) => put(to, "no text"),
    }
}

/// Appends what is shown, or the fault.
fn put_shown(
    alloc: Global,
    verb: Verb,
    shown: &Result<Vec<u8>, ShowFault>,
    to: &mut String,
) -> Result<(), Stop> {
    match shown {
        Ok(text) if verb == Verb::Read => put_text(alloc, text, to),
        Ok(_) => put(to, "shown"),
        Err(fault) => put(to, format!(in alloc; "{fault}")?.as_str()),
    }
}

/// Tells what is shown of the bytes as a thing with this name.
pub(crate) fn tell_shown(
    alloc: Global,
    verb: Verb,
    name: &str,
    bytes: &[u8],
    to: &mut String,
) -> Result<(), Stop> {
    match name {
        "show.value" => put_shown(alloc, verb, &show_value(alloc, bytes), to),
        "show.stream" => put_shown(alloc, verb, &show_stream(alloc, bytes), to),
        _ => Err(Stop::BadLine),
    }
}
