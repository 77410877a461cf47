//! Lines of standard input, each of which is answered before the next is read.

use crate::stop::Stop;
use std::alloc::Global;
use std::io::{BufRead, BufReader};
use std::process::ExitCode;

/// What answers lines.
pub trait Driver {
    /// Appends the answer to a line of these words.
    fn answer(&mut self, alloc: Global, words: &[&str], to: &mut String) -> Result<(), Stop>;
}

/// The answer to a line, whose words a single space parts.
fn answer_of<D: Driver>(alloc: Global, driver: &mut D, line: &str) -> Result<String, Stop> {
    let mut words = Vec::new(alloc);
    for word in line.split(' ') {
        words.push(word)?;
    }
    let mut text = String::new(alloc);
    driver.answer(alloc, &words, &mut text)?;
    Ok(text)
}

/// The text of a line, of which a carriage return at its end is a part.
fn text_of(line: &[u8]) -> Result<&str, Stop> {
    match str::from_utf8(line) {
        Ok(text) => Ok(text),
        Err(_) => Err(Stop::BadLine),
    }
}

/// Answers each line of standard input before it reads the next.
pub fn answer_all<D: Driver>(rt: &HostRuntime, driver: &mut D) -> Result<(), Stop> {
    let alloc = rt.alloc();
    for line in BufReader::new(alloc, rt.reader())?.split(alloc, b'\n') {
        let text = answer_of(alloc, driver, text_of(&line?)?)?;
        println!(rt; "{text}")?;
    }
    Ok(())
}

/// Says why there are no further answers, and gives the exit code that tells it.
pub fn end(rt: &HostRuntime, answers: Result<(), Stop>) -> ExitCode {
    let (status, text) = match answers {
        Ok(()) => return ExitCode::SUCCESS,
        Err(Stop::BadLine) => (1, "bad line"),
        Err(Stop::Outside) => (4, "standard input or output failed"),
        Err(Stop::OutOfMemory) => (12, "out of memory"),
    };
    let _ = eprintln!(rt; "{text}");
    ExitCode::from(status)
}
