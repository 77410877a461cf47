//! Scenarios on one line.

use rows::{Driver, Stop, number, put, put_lines};
use scenario::{Allowed, Line, ReadError, Rules, Sets, generate, read, read_by, write};
use std::alloc::Global;

/// Answers lines that speak of scenarios.
#[derive(Clone, Copy, Debug)]
pub(crate) struct Scenarios;

/// The rules of a command that has neither links, servers nor listeners to befall, few lines and few changes.
fn narrow_rules(sets: Sets) -> Rules {
    let allowed = Allowed {
        links: false,
        servers: false,
        listeners: false,
        newest: false,
    };
    Rules {
        sets,
        allowed,
        lines: 7,
        changes: 2,
        ..Rules::replay(0)
    }
}

fn put_word(text: &mut Vec<u8>, word: &str) -> Result<(), Stop> {
    for byte in word.as_bytes() {
        text.push(if *byte == b'/' { b'\n' } else { *byte })?;
    }
    Ok(())
}

/// The text of these words, with a line feed for each `/`.
fn text_of(alloc: Global, words: &[&str]) -> Result<Vec<u8>, Stop> {
    let mut text = Vec::new(alloc);
    for (place, word) in words.iter().enumerate() {
        if place > 0 {
            text.push(b' ')?;
        }
        put_word(&mut text, word)?;
    }
    Ok(text)
}

fn put_written(alloc: Global, lines: &[Line], to: &mut String) -> Result<(), Stop> {
    let mut text = Vec::new(alloc);
    write(alloc, lines, &mut text)?;
    put_lines(alloc, to, &text)
}

fn put_read(
    alloc: Global,
    lines: &Result<Vec<Line>, ReadError>,
    to: &mut String,
) -> Result<(), Stop> {
    match lines {
        Ok(lines) => put_written(alloc, lines, to),
        Err(ReadError::OutOfMemory) => Err(Stop::OutOfMemory),
        Err(fault) => put(to, format!(in alloc; "{fault}")?.as_str()),
    }
}

/// What is written of the scenario that these rules read, or its fault.
fn answer_by(alloc: Global, rules: Rules, words: &[&str], to: &mut String) -> Result<(), Stop> {
    put_read(alloc, &read_by(alloc, &text_of(alloc, words)?, rules), to)
}

/// What is written of the scenario of `replay`, or its fault.
fn answer_replay(alloc: Global, pool: usize, words: &[&str], to: &mut String) -> Result<(), Stop> {
    put_read(alloc, &read(alloc, &text_of(alloc, words)?, pool), to)
}

fn answer_generated(alloc: Global, seed: u64, lines: u64, to: &mut String) -> Result<(), Stop> {
    if !(3..=200_000).contains(&lines) {
        return Err(Stop::BadLine);
    }
    put_written(alloc, &generate(alloc, seed, lines)?, to)
}

impl Driver for Scenarios {
    fn answer(&mut self, alloc: Global, words: &[&str], to: &mut String) -> Result<(), Stop> {
        match words {
            ["scenario", pool, text @ ..] => answer_replay(alloc, number(pool)?, text, to),
            ["all", pool, text @ ..] => answer_by(alloc, Rules::replay(number(pool)?), text, to),
            ["bytes", text @ ..] => answer_by(alloc, narrow_rules(Sets::OverBytes), text, to),
            ["one", text @ ..] => answer_by(alloc, narrow_rules(Sets::OneHot), text, to),
            ["generate", seed, lines] => {
                answer_generated(alloc, number(seed)?, number(lines)?, to)
            }
            _ => Err(Stop::BadLine),
        }
    }
}
