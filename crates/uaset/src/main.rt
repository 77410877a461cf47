//! `uaset`: replays the servers of a redundant set and their client, and shows values and streams of OPC UA.
#![tactic(auto)]

mod answer;
mod command;
mod laws;
mod reading;
mod replay;
mod status;
#[cfg(test)]
mod tests;
mod words;
mod worked;
mod writing;

use command::run;
use status::{Status, code_of, words_of};
use std::env::{Env, FillError};
use std::process::ExitCode;
use std::{io, str};
use ua_base::OutOfMemory;
use ua_edge::{ReadSource, WriteSink};

/// The most bytes of a word that a command may have. Today's longest has six; the numeral of a `u64` has 20 at most.
const MOST_WORD: usize = 20;

/// The word that these bytes are. What is no text is the empty word, which is no word of a command either.
fn word_of(rt: &HostRuntime, bytes: &[u8]) -> Result<String, OutOfMemory> {
    match str::from_utf8(bytes) {
        Ok(text) => Ok(String::from_str(rt.alloc(), text)?),
        Err(_) => Ok(String::new(rt.alloc())),
    }
}

/// The program's argument at a place, if there is one. What is longer than any word of a command is the empty word.
fn word_at(rt: &HostRuntime, place: usize) -> Result<Option<String>, OutOfMemory> {
    let mut word = [0u8; MOST_WORD];
    match rt.arg(place, &mut word) {
        Ok(count) => Ok(Some(word_of(rt, &word[..count])?)),
        Err(FillError::TooLong) => Ok(Some(String::new(rt.alloc()))),
        Err(FillError::NotPresent) => Ok(None),
    }
}

/// The program's arguments. Its name, which stands before them, may be any bytes.
fn arguments(rt: &HostRuntime) -> Result<Vec<String>, OutOfMemory> {
    let mut words = Vec::new(rt.alloc());
    for place in 1..usize::MAX {
        match word_at(rt, place)? {
            Some(word) => words.push(word)?,
            None => break,
        }
    }
    Ok(words)
}

/// Runs the command of these words over standard input and output.
fn run_words(rt: &HostRuntime, arguments: &[String]) -> Result<Status, OutOfMemory> {
    let mut words = Vec::new(rt.alloc());
    for argument in arguments {
        words.push(argument.as_str())?;
    }
    let mut input = ReadSource::new(rt.reader());
    let mut output = WriteSink::new(io::writer(rt));
    Ok(run(rt.alloc(), words.as_slice(), &mut input, &mut output))
}

/// Runs the command of the program's arguments.
fn run_arguments(rt: &HostRuntime) -> Result<Status, OutOfMemory> {
    let words = arguments(rt)?;
    run_words(rt, words.as_slice())
}

fn main(rt: HostRuntime) -> ExitCode {
    let status = run_arguments(&rt).unwrap_or(Status::Memory);
    if status != Status::Ok {
        match words_of(rt.alloc(), &status) {
            Ok(words) => {
                let _ = eprintln!(&rt; "{words}");
            }
            Err(_) => {
                let _ = eprintln!(&rt; "out of memory");
            }
        }
    }
    ExitCode::from(code_of(&status))
}
