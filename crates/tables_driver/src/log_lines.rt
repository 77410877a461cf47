//! What the words of a line say of a client's log: joints, turns, entries and lines.

use crate::words::{bytes, some_stamp, stamp};
use delivery_log::{Joint, Turn};
use rows::{Stop, number};
use set_model::{Arrived, GapCause, LogLine, Seen, UaRaw};
use std::alloc::Global;

pub(crate) fn cause(word: &str) -> Result<GapCause, Stop> {
    match word {
        "late" => Ok(GapCause::Late),
        "warm" => Ok(GapCause::Warm),
        "cold" => Ok(GapCause::Cold),
        "lost" => Ok(GapCause::Lost),
        "notime" => Ok(GapCause::NoTime),
        "overflow" => Ok(GapCause::Overflow),
        _ => Err(Stop::BadLine),
    }
}

/// A joint: `joined`, `held`, or the cause for which it is open.
pub(crate) fn joint(word: &str) -> Result<Joint, Stop> {
    match word {
        "joined" => Ok(Joint::Joined),
        "held" => Ok(Joint::Held),
        _ => Ok(Joint::Open(cause(word)?)),
    }
}

/// What befalls a joint.
pub(crate) fn turn(words: &[&str]) -> Result<Turn, Stop> {
    match words {
        ["become", after] => Ok(Turn::Become(joint(after)?)),
        ["loosen", why] => Ok(Turn::Loosen(cause(why)?)),
        ["confirm"] => Ok(Turn::Confirm),
        _ => Err(Stop::BadLine),
    }
}

/// A value: a whole number, or `x` and hexadecimal digits.
fn seen(alloc: Global, word: &str) -> Result<Seen, Stop> {
    match word.strip_prefix('x') {
        Some(digits) => Ok(Seen::Raw(UaRaw::new(bytes(alloc, digits)?))),
        None => Ok(Seen::Whole(number(word)?)),
    }
}

/// A status in hexadecimal digits.
fn status(word: &str) -> Result<u32, Stop> {
    match u32::from_str_radix(word, 16) {
        Ok(status) => Ok(status),
        Err(_) => Err(Stop::BadLine),
    }
}

pub(crate) fn arrived(alloc: Global, words: [&str; 3]) -> Result<Arrived, Stop> {
    let [time, value, bits] = words;
    let time = some_stamp(time)?;
    let status = status(bits)?;
    let value = seen(alloc, value)?;
    Ok(Arrived {
        time,
        value,
        status,
    })
}

/// A data line.
fn data(alloc: Global, words: [&str; 4]) -> Result<LogLine, Stop> {
    let [item, at, value, bits] = words;
    let item = number(item)?;
    let at = stamp(at)?;
    let status = status(bits)?;
    let value = seen(alloc, value)?;
    Ok(LogLine::Delivered {
        item,
        time: at.time,
        pico: at.pico,
        value,
        status,
    })
}

/// A line of the log.
pub(crate) fn line(alloc: Global, words: &[&str]) -> Result<LogLine, Stop> {
    match words {
        ["data", item, at, value, bits] => data(alloc, [item, at, value, bits]),
        ["gap", item, why] => Ok(LogLine::Gap {
            item: number(item)?,
            cause: cause(why)?,
        }),
        ["switch", from, to] => Ok(LogLine::Switch {
            from: number(from)?,
            to: number(to)?,
        }),
        ["ready", server] => Ok(LogLine::Ready {
            server: number(server)?,
        }),
        ["lost", server] => Ok(LogLine::Lost {
            server: number(server)?,
        }),
        ["unsupported", server] => Ok(LogLine::Unsupported {
            server: number(server)?,
        }),
        ["heard", listener, changes, gaps] => Ok(LogLine::Heard {
            listener: number(listener)?,
            changes: number(changes)?,
            gaps: number(gaps)?,
        }),
        _ => Err(Stop::BadLine),
    }
}
