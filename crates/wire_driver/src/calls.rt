//! Calls that no line of bytes makes: what they answer to what the words of a line say.

ghost use Rattle.std.specs.Prelude.{◌≤◌, length, IfSome};

use crate::greetings::MOST_URL;
use rows::{Stop, begun, bytes_of, number, put, put_bar, put_behind, put_bytes};
use std::alloc::Global;
use ua_chunks::{
    Greeting, Kind, ack_body, err_body, hello_body, write_ack, write_err, write_frame, write_hello,
};
use ua_values::{UaBytes, UaText};

/// How many bytes the body of a frame may have.
const MOST_BODY: usize = 65_528;

// ---- equality

/// The bytes of a word: `null`, or their digits behind an `x`.
fn some_bytes(alloc: Global, word: &str) -> Result<Option<Vec<u8>>, Stop> {
    match word.strip_prefix('x') {
        Some(digits) => Ok(Some(bytes_of(alloc, &[digits])?)),
        None if word == "null" => Ok(None),
        None => Err(Stop::BadLine),
    }
}

fn text_of(alloc: Global, word: &str) -> Result<UaText, Stop> {
    match some_bytes(alloc, word)? {
        Some(bytes) => Ok(UaText::new(bytes)),
        None => Ok(UaText::null()),
    }
}

fn byte_string_of(alloc: Global, word: &str) -> Result<UaBytes, Stop> {
    match some_bytes(alloc, word)? {
        Some(bytes) => Ok(UaBytes::new(bytes)),
        None => Ok(UaBytes::null()),
    }
}

/// Says whether two values of this type are equal.
fn answer_equal(alloc: Global, name: &str, words: [&str; 2], to: &mut String) -> Result<(), Stop> {
    let [one, other] = words;
    let is_equal = match name {
        "String" => text_of(alloc, one)?.equals(&text_of(alloc, other)?),
        "ByteString" => byte_string_of(alloc, one)?.equals(&byte_string_of(alloc, other)?),
        _ => return Err(Stop::BadLine),
    };
    put(to, if is_equal { "equal" } else { "other" })
}

// ---- frames

/// The frame of a kind with this body, behind the byte of `begun`.
fn framed(alloc: Global, kind: Kind, body: &[u8]) -> Result<Vec<u8>, Stop> {
    if body.len() > MOST_BODY {
        return Err(Stop::BadLine);
    }
    let mut bytes = begun(alloc)?;
    write_frame(alloc, kind, body, &mut bytes)?;
    Ok(bytes)
}

/// The kind of a frame.
pub(crate) fn kind_of(word: &str) -> Result<Kind, Stop> {
    match word {
        "HEL" => Ok(Kind::Hel),
        "ACK" => Ok(Kind::Ack),
        "ERR" => Ok(Kind::Err),
        "OPN" => Ok(Kind::Opn),
        "MSG" => Ok(Kind::Msg),
        "CLO" => Ok(Kind::Clo),
        _ => Err(Stop::BadLine),
    }
}

/// Writes a frame of this kind.
fn answer_frame(alloc: Global, kind: &str, digits: &[&str], to: &mut String) -> Result<(), Stop> {
    let body = bytes_of(alloc, digits)?;
    let bytes = framed(alloc, kind_of(kind)?, &body)?;
    put_behind(alloc, &bytes, to)
}

/// Appends a body, the frame that is made of it, and what was written at once: `same`, where that is the frame.
fn put_framed(
    alloc: Global,
    kind: Kind,
    body: &[u8],
    written: &[u8],
    to: &mut String,
) -> Result<(), Stop> {
    let frame = framed(alloc, kind, body)?;
    put_bytes(alloc, body, to)?;
    put_bar(to)?;
    put_behind(alloc, &frame, to)?;
    put_bar(to)?;
    if frame.as_slice() == written {
        put(to, "same")
    } else {
        put_behind(alloc, written, to)
    }
}

fn greeting_of(words: &[&str]) -> Result<Greeting, Stop> {
    let [version, receive, send, max_message, max_chunks] = words else {
        return Err(Stop::BadLine);
    };
    Ok(Greeting {
        version: number(version)?,
        receive: number(receive)?,
        send: number(send)?,
        max_message: number(max_message)?,
        max_chunks: number(max_chunks)?,
    })
}

fn put_hello(alloc: Global, greeting: &Greeting, url: &UaText, to: &mut String) -> Result<(), Stop>
    requires { IfSome url.now (λ run. length run ≤ 4091) }
{
    let body = hello_body(alloc, greeting, url)?;
    let mut written = begun(alloc)?;
    write_hello(alloc, greeting, url, &mut written)?;
    put_framed(alloc, Kind::Hel, &body, &written, to)
}

/// Appends a HEL whose URL is not too long.
fn put_short_hello(
    alloc: Global,
    greeting: &Greeting,
    url: &UaText,
    to: &mut String,
) -> Result<(), Stop> {
    match url.bytes() {
        None => put_hello(alloc, greeting, url, to),
        Some(bytes) if bytes.len() <= MOST_URL => put_hello(alloc, greeting, url, to),
        Some(_) => Err(Stop::BadLine),
    }
}

/// Writes a HEL.
fn answer_hello(alloc: Global, greeting: &[&str], url: &str, to: &mut String) -> Result<(), Stop> {
    put_short_hello(alloc, &greeting_of(greeting)?, &text_of(alloc, url)?, to)
}

fn put_ack(alloc: Global, greeting: &Greeting, to: &mut String) -> Result<(), Stop> {
    let body = ack_body(alloc, greeting)?;
    let mut written = begun(alloc)?;
    write_ack(alloc, greeting, &mut written)?;
    put_framed(alloc, Kind::Ack, &body, &written, to)
}

/// Writes an ACK.
fn answer_ack(alloc: Global, greeting: &[&str], to: &mut String) -> Result<(), Stop> {
    put_ack(alloc, &greeting_of(greeting)?, to)
}

/// Writes an ERR.
fn answer_err(alloc: Global, code: &str, to: &mut String) -> Result<(), Stop> {
    let code = number(code)?;
    let body = err_body(alloc, code)?;
    let mut written = begun(alloc)?;
    write_err(alloc, code, &mut written)?;
    put_framed(alloc, Kind::Err, &body, &written, to)
}

/// Answers `call` and these words.
pub(crate) fn answer_call(alloc: Global, words: &[&str], to: &mut String) -> Result<(), Stop> {
    match words {
        ["equals", name, one, other] => answer_equal(alloc, name, [one, other], to),
        ["frame", kind, digits @ ..] => answer_frame(alloc, kind, digits, to),
        ["hello", greeting @ .., url] => answer_hello(alloc, greeting, url, to),
        ["ack", greeting @ ..] => answer_ack(alloc, greeting, to),
        ["err", code] => answer_err(alloc, code, to),
        _ => Err(Stop::BadLine),
    }
}
