//! What the words of a line say.

use rows::{Stop, decode, number};
use std::alloc::Global;
use std::str::FromStr;
use ua_base::SetMode;
use ua_client::{ClientEvent, Piece};

/// Whether digits begin as those of a number do: without a 0 before others.
fn is_plain(digits: &[u8]) -> bool {
    match digits {
        [b'0'] => true,
        [first, ..] => (b'1'..=b'9').contains(first),
        [] => false,
    }
}

/// The number that a word is.
pub(crate) fn plain<T: FromStr + Drop>(word: &str) -> Result<T, Stop>
where
    T::Err: Drop,
{
    if is_plain(word.as_bytes()) {
        number(word)
    } else {
        Err(Stop::BadLine)
    }
}

/// How a set is used in which bytes pass.
pub(crate) fn mode(word: &str) -> Result<SetMode, Stop> {
    match word {
        "hot" => Ok(SetMode::Hot),
        "warm" => Ok(SetMode::Warm),
        "cold" => Ok(SetMode::Cold),
        _ => Err(Stop::BadLine),
    }
}

/// Whether the oldest value makes room in a full queue, or the newest.
pub(crate) fn oldest(word: &str) -> Result<bool, Stop> {
    match word {
        "oldest" => Ok(true),
        "newest" => Ok(false),
        _ => Err(Stop::BadLine),
    }
}

/// Some bytes of a server.
fn bytes(alloc: Global, server: u8, digits: &str) -> Result<ClientEvent, Stop> {
    let bytes = decode(alloc, digits)?;
    if bytes.is_empty() {
        return Err(Stop::BadLine);
    }
    Ok(ClientEvent::Bytes {
        server,
        bytes: Piece::new(bytes),
    })
}

/// The event that a line tells.
pub(crate) fn event(alloc: Global, words: &[&str]) -> Result<ClientEvent, Stop> {
    match words {
        ["opened", server] => Ok(ClientEvent::Opened {
            server: plain(server)?,
        }),
        ["refused", server] => Ok(ClientEvent::Refused {
            server: plain(server)?,
        }),
        ["bytes", server, digits] => bytes(alloc, plain(server)?, digits),
        ["closed", server] => Ok(ClientEvent::Closed {
            server: plain(server)?,
        }),
        ["tick", ms] => Ok(ClientEvent::Tick { ms: plain(ms)? }),
        _ => Err(Stop::BadLine),
    }
}
