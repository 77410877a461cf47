//! Messages that are put into chunks.

ghost use Rattle.std.specs.Prelude.{◌<◌};

use crate::calls::kind_of;
use crate::frames::{feed, put_frame_fault};
use crate::messages::parts_of;
use rows::{BEFORE, Stop, begun, bytes_of, number, positive, put, put_bar, put_bytes};
use std::alloc::Global;
use ua_chunks::{Assembler, FrameFault, Framer, Kind, Message, PutFault, Sender};

/// Appends what a sender answered: the bytes that were put, or the size and the limit.
fn put_sent(
    alloc: Global,
    answer: Result<(), PutFault>,
    bytes: &[u8],
    to: &mut String,
) -> Result<(), Stop> {
    put_bar(to)?;
    let Some((&BEFORE, own)) = bytes.split_first() else {
        put(to, "what stood there is gone")?;
        return Ok(());
    };
    match answer {
        Ok(()) => put_bytes(alloc, own, to),
        Err(PutFault::TooLarge { size, limit }) if own.is_empty() => {
            put(to, format!(in alloc; "{size} of {limit}")?.as_str())
        }
        Err(PutFault::TooLarge { .. }) => { put(to, "put though refused") }
        Err(PutFault::OutOfMemory) => Err(Stop::OutOfMemory),
    }
}

/// Puts a message where it may be put.
fn put_kind(
    alloc: Global,
    sender: &mut Sender,
    kind: Kind,
    request: u32,
    body: &[u8],
    to: &mut Vec<u8>,
) -> Result<Result<(), PutFault>, Stop> {
    match kind {
        Kind::Msg => Ok(sender.put(alloc, Kind::Msg, request, body, to)),
        Kind::Opn if body.len() <= 4096 => Ok(sender.put(alloc, Kind::Opn, request, body, to)),
        Kind::Clo if body.len() <= 4096 => Ok(sender.put(alloc, Kind::Clo, request, body, to)),
        _ => Err(Stop::BadLine),
    }
}

/// Puts a message where it may be put, and appends the answer.
fn put_message(
    alloc: Global,
    sender: &mut Sender,
    kind: Kind,
    request: u32,
    body: &[u8],
    to: &mut String,
) -> Result<(), Stop> {
    let mut bytes = begun(alloc)?;
    let answer = put_kind(alloc, sender, kind, request, body, &mut bytes)?;
    put_sent(alloc, answer, &bytes, to)
}

fn renew(sender: &mut Sender, channel: u32, token: u32, to: &mut String) -> Result<(), Stop> {
    sender.renew(channel, token);
    put_bar(to)?;
    put(to, "renewed")
}

/// Appends how many bytes a message of a sender may have.
fn put_most(alloc: Global, sender: &Sender, to: &mut String) -> Result<(), Stop> {
    put_bar(to)?;
    let most = sender.most_body();
    put(to, format!(in alloc; "most {most}")?.as_str())
}

/// Gives a sender other limits.
fn limit(sender: &mut Sender, numbers: [u32; 3], to: &mut String) -> Result<(), Stop> {
    let [size, max_message, max_chunks] = numbers;
    if size < 8192 {
        return Err(Stop::BadLine);
    }
    sender.limit(size, max_message, max_chunks);
    put_bar(to)?;
    put(to, "limited")
}

/// Does what the words of a step say.
fn do_put(alloc: Global, sender: &mut Sender, words: &[&str], to: &mut String) -> Result<(), Stop> {
    match words {
        ["renew", channel, token] => renew(sender, number(channel)?, number(token)?, to),
        ["limit", size, max_message, max_chunks] => {
            let numbers = [number(size)?, number(max_message)?, number(max_chunks)?];
            limit(sender, numbers, to)
        }
        ["most"] => put_most(alloc, sender, to),
        [kind, request, body @ ..] => {
            let kind = kind_of(kind)?;
            let request = number(request)?;
            put_message(alloc, sender, kind, request, &bytes_of(alloc, body)?, to)
        }
        _ => Err(Stop::BadLine),
    }
}

/// Does the steps with this sender.
fn do_puts(
    alloc: Global,
    sender: &mut Sender,
    steps: &[&str],
    to: &mut String,
) -> Result<(), Stop> {
    for step in steps {
        do_put(alloc, sender, &parts_of(alloc, step)?, to)?;
    }
    Ok(())
}

/// The sender of these numbers: channel, token, size of a frame, and the other end's limits.
fn sender_of(words: [&str; 5]) -> Result<Sender, Stop> {
    let [channel, token, size, max_message, max_chunks] = words;
    let channel = number(channel)?;
    let token = number(token)?;
    let size = number(size)?;
    let max_message = number(max_message)?;
    let max_chunks = number(max_chunks)?;
    if size < 8192 {
        return Err(Stop::BadLine);
    }
    Ok(Sender::new(channel, token, size, max_message, max_chunks))
}

/// Answers `put`: does the steps with a sender of these numbers.
pub(crate) fn answer_puts(alloc: Global, words: &[&str], to: &mut String) -> Result<(), Stop> {
    let [channel, token, size, max_message, max_chunks, steps @ ..] = words else {
        return Err(Stop::BadLine);
    };
    let mut sender = sender_of([channel, token, size, max_message, max_chunks])?;
    do_puts(alloc, &mut sender, steps, to)
}

/// Whether the message has this body.
fn is_body(answer: &Result<Option<Message>, FrameFault>, body: &[u8]) -> bool {
    match answer {
        Ok(Some(message)) => message.body.bytes() == body,
        _ => false,
    }
}

/// How many messages with this body come of the bytes in pieces of so many.
fn count_passed(alloc: Global, bytes: &[u8], cut: usize, body: &[u8]) -> Result<u64, FrameFault>
    requires { 0 < cut }
{
    let mut framer = Framer::new(alloc);
    let mut frames = Vec::new(alloc);
    let mut assembler = Assembler::new(alloc, 1, 1);
    feed(alloc, &mut framer, cut, bytes, &mut frames)?;
    let mut count: u64 = 0;
    for frame in &frames {
        if is_body(&assembler.add(alloc, frame), body) {
            count = count.saturating_add(1);
        }
    }
    Ok(count)
}

fn put_passed(
    alloc: Global,
    passed: Result<u64, FrameFault>,
    size: usize,
    to: &mut String,
) -> Result<(), Stop> {
    match passed {
        Ok(count) => put(to, format!(in alloc; "{count} in {size}")?.as_str()),
        Err(fault) => put_frame_fault(alloc, fault, to),
    }
}

/// Puts the body as a MSG in frames of this size, takes the bytes in pieces of so many, and says how many messages
/// had this body.
fn tell_passed(
    alloc: Global,
    size: u32,
    cut: usize,
    body: &[u8],
    to: &mut String,
) -> Result<(), Stop>
    requires { 0 < cut }
{
    if size < 8192 {
        return Err(Stop::BadLine);
    }
    let mut bytes = Vec::new(alloc);
    match Sender::new(1, 1, size, 0, 0).put(alloc, Kind::Msg, 1, body, &mut bytes) {
        Ok(()) => put_passed(
            alloc,
            count_passed(alloc, &bytes, cut, body),
            bytes.len(),
            to,
        ),
        Err(_) => put(to, "refused"),
    }
}

/// Passes a body so many times.
fn pass_often(
    alloc: Global,
    count: u32,
    size: u32,
    cut: usize,
    body: &[u8],
    to: &mut String,
) -> Result<(), Stop>
    requires { 0 < cut }
{
    for _ in 0..count {
        to.clear();
        tell_passed(alloc, size, cut, body, to)?;
    }
    Ok(())
}

/// Answers `pass`, so many times.
pub(crate) fn answer_passed(
    alloc: Global,
    numbers: [&str; 3],
    digits: &[&str],
    to: &mut String,
) -> Result<(), Stop> {
    let [count, size, cut] = numbers;
    let count = number(count)?;
    let size = number(size)?;
    let cut = positive(cut)?;
    pass_often(alloc, count, size, cut, &bytes_of(alloc, digits)?, to)
}
