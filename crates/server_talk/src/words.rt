//! What the words of a line say.

use rows::{Stop, decode, number};
use set_model::{Change, MOST_PICO, Stamp};
use std::alloc::Global;
use std::str::FromStr;
use ua_server::{Piece, ServerEvent};

/// Whether digits begin as those of a number do: without a sign before 0, and without a 0 before others.
fn is_plain(digits: &[u8]) -> bool {
    match digits {
        [b'0'] => true,
        [b'-', first, ..] | [first, ..] => (b'1'..=b'9').contains(first),
        [] => false,
    }
}

/// The number that a word is.
pub(crate) fn plain<T: FromStr + Drop>(word: &str) -> Result<T, Stop>
where
    T::Err: Drop,
{
    if is_plain(word.as_bytes()) {
        number(word)
    } else {
        Err(Stop::BadLine)
    }
}

/// The stamp of a word: a time, or a time and picoseconds behind a dot.
fn stamp(word: &str) -> Result<Stamp, Stop> {
    let (time, pico) = word.split_once('.').unwrap_or((word, "0"));
    let time = plain::<i64>(time)?;
    let pico = plain(pico)?;
    if time < 0 || pico > MOST_PICO {
        return Err(Stop::BadLine);
    }
    Ok(Stamp { time, pico })
}

/// The change of an item at a stamp.
pub(crate) fn change(item: &str, at: &str, value: &str) -> Result<Change, Stop> {
    let item = plain(item)?;
    let value = plain(value)?;
    let Stamp { time, pico } = stamp(at)?;
    Ok(Change {
        item,
        time,
        pico,
        value,
    })
}

/// Some bytes of a connection.
fn bytes(alloc: Global, conn: u32, digits: &str) -> Result<ServerEvent, Stop> {
    let bytes = decode(alloc, digits)?;
    if bytes.is_empty() {
        return Err(Stop::BadLine);
    }
    Ok(ServerEvent::Bytes {
        conn,
        bytes: Piece::new(bytes),
    })
}

/// The event that a line tells.
pub(crate) fn event(alloc: Global, words: &[&str]) -> Result<ServerEvent, Stop> {
    match words {
        ["open", conn] => Ok(ServerEvent::Opened { conn: plain(conn)? }),
        ["bytes", conn, digits] => bytes(alloc, plain(conn)?, digits),
        ["closed", conn] => Ok(ServerEvent::Closed { conn: plain(conn)? }),
        ["feed", item, at, value] => Ok(ServerEvent::Feed {
            change: change(item, at, value)?,
        }),
        ["tick", ms] => Ok(ServerEvent::Tick { ms: plain(ms)? }),
        ["level", level] => Ok(ServerEvent::Level {
            level: plain(level)?,
        }),
        _ => Err(Stop::BadLine),
    }
}
