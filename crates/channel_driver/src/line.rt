//! One line and its answer.

ghost use Rattle.std.specs.Prelude.{length};
ghost use Rattle.ua_channel.specs.State.{MayCarry};

use crate::echo::Echo;
use crate::relay::Relay;
use rows::{Driver, Stop, bytes_of, number, put_bytes};
use std::alloc::Global;
use ua_base::OutOfMemory;
use ua_channel::{
    Channel, ChannelFault, Channels, Ear, Limits, Order, Rest, Side, Wire, take_bytes,
};
use ua_chunks::Kind;

/// An end with its core.
#[derive(Drop)]
struct End {
    echo: Echo,
    channel: Channel,
}

/// A side of a connection, by a word.
fn side_of(word: &str) -> Result<Side, Stop> {
    match word {
        "server" => Ok(Side::Server),
        "client" => Ok(Side::Client),
        _ => Err(Stop::BadLine),
    }
}

/// What an end takes first.
fn first_ear(side: Side) -> Ear {
    match side {
        Side::Server => Ear::Hello,
        Side::Client => Ear::Acknowledge,
    }
}

impl End {
    fn new(alloc: Global, side: Side) -> End {
        End {
            echo: Echo {
                ear: first_ear(side),
                channel: 0,
                token: 0,
            },
            channel: Channel::new(alloc, side),
        }
    }

    /// Takes a piece.
    fn take(&mut self, alloc: Global, bytes: &[u8]) -> Result<(), Stop> {
        take_bytes(alloc, &mut self.echo, 1, &mut self.channel, bytes)?;
        Ok(())
    }

    /// Says what was put, what is held and which frames are taken next.
    fn tell(&self, alloc: Global, to: &mut String) -> Result<(), Stop> {
        put_bytes(alloc, self.channel.out(), to)?;
        let held = self.channel.held(self.echo.ear);
        let ear = self.echo.ear;
        to.push_str(&format!(in alloc; " / held {held} {ear:?}")?)?;
        Ok(())
    }
}

/// What an end says of these pieces.
fn said(alloc: Global, side: Side, first: &[u8], second: &[u8]) -> Result<String, Stop> {
    let mut end = End::new(alloc, side);
    end.take(alloc, first)?;
    end.take(alloc, second)?;
    let mut text = String::new(alloc);
    end.tell(alloc, &mut text)?;
    Ok(text)
}

/// What an end says of these bytes one by one.
fn said_singly(alloc: Global, side: Side, bytes: &[u8]) -> Result<String, Stop> {
    let mut end = End::new(alloc, side);
    for byte in bytes {
        end.take(alloc, &[*byte])?;
    }
    let mut text = String::new(alloc);
    end.tell(alloc, &mut text)?;
    Ok(text)
}

/// Says what comes of all bytes at once, and at which cuts something else comes.
fn tell_cuts(alloc: Global, side: Side, bytes: &[u8], to: &mut String) -> Result<(), Stop> {
    let whole = said(alloc, side, bytes, &[])?;
    to.push_str(&whole)?;
    let singly = said_singly(alloc, side, bytes)?;
    if singly.as_str() != whole.as_str() {
        to.push_str(" / otherwise one by one")?;
    }
    for place in 0..bytes.len() {
        let (first, second) = bytes.split_at(place);
        let cut = said(alloc, side, first, second)?;
        if cut.as_str() != whole.as_str() {
            to.push_str(&format!(in alloc; " / otherwise at {place}")?)?;
        }
    }
    Ok(())
}

/// Takes the words as pieces.
fn tell_pieces(alloc: Global, side: Side, pieces: &[&str], to: &mut String) -> Result<(), Stop> {
    let mut end = End::new(alloc, side);
    for piece in pieces {
        let bytes = bytes_of(alloc, &[*piece])?;
        end.take(alloc, &bytes)?;
    }
    end.tell(alloc, to)
}

/// So many bytes.
fn sevens(alloc: Global, size: usize) -> Result<Vec<u8>, OutOfMemory> {
    let mut bytes = Vec::new(alloc);
    for _ in 0..size {
        bytes.push(7)?;
    }
    Ok(bytes)
}

/// The channel's answer to an order to put so many bytes with these limits: how many bytes were put, how many a body may
/// have, whether these were said to fit, and the size and the limit where they were refused.
fn tell_put(
    alloc: Global,
    kind: &str,
    numbers: [u32; 3],
    size: usize,
    to: &mut String,
) -> Result<(), Stop> {
    let [frame, max_message, max_chunks] = numbers;
    if frame < 8192 {
        return Err(Stop::BadLine);
    }
    let limits = Limits::new(frame, max_message, max_chunks);
    let body = sevens(alloc, size)?;
    match kind {
        "MSG" => put_limited(alloc, Kind::Msg, limits, body, to),
        "OPN" if body.len() <= 4096 => put_limited(alloc, Kind::Opn, limits, body, to),
        "CLO" if body.len() <= 4096 => put_limited(alloc, Kind::Clo, limits, body, to),
        "ERR" if body.len() <= 4096 => put_limited(alloc, Kind::Err, limits, body, to),
        _ => Err(Stop::BadLine),
    }
}

/// Puts a body with these limits, and tells the answer.
fn put_limited(
    alloc: Global,
    kind: Kind,
    limits: Limits,
    body: Vec<u8>,
    to: &mut String,
) -> Result<(), Stop>
    requires { MayCarry kind (length body.items) }
{
    let mut channel = Channel::new(alloc, Side::Server);
    if channel.obey(alloc, &Order::Limit(limits)).is_err() {
        return Err(Stop::OutOfMemory);
    }
    let most = channel.most_body();
    let fits = channel.fits(kind, body.len());
    let answer = channel.obey(alloc, &Order::Put(Wire::new(kind, 1, 1, 1, body)));
    let count = channel.out().len();
    to.push_str(&format!(in alloc; "{count} bytes, {most} at most, fits {fits}")?)?;
    match answer {
        Ok(()) => Ok(()),
        Err(ChannelFault::TooLarge { size, limit }) => {
            to.push_str(&format!(in alloc; ", {size} of {limit}")?)?;
            Ok(())
        }
        Err(ChannelFault::OutOfMemory) => Err(Stop::OutOfMemory),
    }
}

// ---- many connections

/// Puts a message of this request at the end of a number, by taking it out and putting it back.
fn put_at(alloc: Global, channels: &mut Channels, count: u32, to: &mut String) -> Result<(), Stop> {
    if !channels.contains(count) {
        to.push_str("none")?;
        return Ok(());
    }
    let mut channel = channels.swap(count, Channel::new(alloc, Side::Server));
    let mut echo = Echo {
        ear: Ear::Hello,
        channel: 0,
        token: 0,
    };
    take_bytes(alloc, &mut echo, count, &mut channel, &[0; 8])?;
    let size = channel.out().len();
    channels.swap(count, channel);
    to.push_str(&format!(in alloc; "{size}")?)?;
    Ok(())
}

/// Says how many bytes wait at the end of a number.
fn tell_at(alloc: Global, channels: &Channels, count: u32, to: &mut String) -> Result<(), Stop> {
    match channels.at(count) {
        Some(channel) => {
            let size = channel.out().len();
            to.push_str(&format!(in alloc; "{size}")?)?;
        }
        None => to.push_str("none")?,
    }
    Ok(())
}

fn do_step(
    alloc: Global,
    channels: &mut Channels,
    verb: &str,
    count: u32,
    to: &mut String,
) -> Result<(), Stop> {
    match verb {
        "open" => {
            if channels.contains(count) {
                to.push_str("there")?;
            } else {
                channels.open(count, Channel::new(alloc, Side::Server))?;
                to.push_str("opened")?;
            }
        }
        "close" => match channels.close(count) {
            Some(channel) => {
                let size = channel.out().len();
                to.push_str(&format!(in alloc; "closed {size}")?)?;
            }
            None => to.push_str("none")?,
        },
        "put" => put_at(alloc, channels, count, to)?,
        "at" => tell_at(alloc, channels, count, to)?,
        _ => return Err(Stop::BadLine),
    }
    Ok(())
}

/// Does the steps with the ends of a node: opens, closes, puts an error at one, or says how much waits there.
fn tell_ends(alloc: Global, steps: &[&str], to: &mut String) -> Result<(), Stop> {
    let mut channels = Channels::new(alloc);
    let mut is_first = true;
    for step in steps {
        let Some((verb, count)) = step.split_once(',') else {
            return Err(Stop::BadLine);
        };
        if !is_first {
            to.push_str(" / ")?;
        }
        is_first = false;
        do_step(alloc, &mut channels, verb, number(count)?, to)?;
    }
    Ok(())
}

/// The ends 0 to 3 of a relay: pieces come for them by their numbers, and what each has put is said at the end.
fn tell_relay(alloc: Global, steps: &[&str], to: &mut String) -> Result<(), Stop> {
    let mut channels = Channels::new(alloc);
    for number in 0..4 {
        if !channels.contains(number) {
            channels.open(number, Channel::new(alloc, Side::Server))?;
        }
    }
    let mut rest = Rest {
        hub: Relay { is_deaf: false },
        channels,
    };
    relay_all(alloc, &mut rest, steps)?;
    for number in 0..4 {
        if number > 0 {
            to.push_str(" / ")?;
        }
        tell_out(alloc, &rest.channels, number, to)?;
    }
    Ok(())
}

/// Gives pieces to the ends of a relay.
fn relay_all(alloc: Global, rest: &mut Rest<Relay>, steps: &[&str]) -> Result<(), Stop> {
    for step in steps {
        let Some((count, digits)) = step.split_once(',') else {
            return Err(Stop::BadLine);
        };
        let bytes = bytes_of(alloc, &[digits])?;
        rest.take(alloc, number(count)?, &bytes)?;
    }
    Ok(())
}

/// Says what the end of a number has put.
fn tell_out(alloc: Global, channels: &Channels, count: u32, to: &mut String) -> Result<(), Stop> {
    match channels.at(count) {
        Some(channel) => put_bytes(alloc, channel.out(), to)?,
        None => to.push_str("none")?,
    }
    Ok(())
}

/// Opens so many connections, and says how many then stand at their numbers, and how many after each second was closed.
fn tell_many(alloc: Global, count: u32, to: &mut String) -> Result<(), Stop> {
    let mut channels = Channels::new(alloc);
    for number in 0..count {
        if !channels.contains(number) {
            channels.open(number, Channel::new(alloc, Side::Server))?;
        }
    }
    let all = standing(&channels, count);
    for number in 0..count {
        if number % 2 == 1 {
            channels.close(number);
        }
    }
    let left = standing(&channels, count);
    to.push_str(&format!(in alloc; "{all} {left}")?)?;
    Ok(())
}

/// How many of the first numbers have a connection.
fn standing(channels: &Channels, count: u32) -> u32 {
    let mut found: u32 = 0;
    for number in 0..count {
        if channels.contains(number) {
            found = found.saturating_add(1);
        }
    }
    found
}

/// Answers lines that speak of ends of connections.
#[derive(Clone, Copy, Debug)]
pub(crate) struct Ends;

impl Driver for Ends {
    fn answer(&mut self, alloc: Global, words: &[&str], to: &mut String) -> Result<(), Stop> {
        match words {
            ["cuts", role, digits @ ..] => {
                let side = side_of(role)?;
                let bytes = bytes_of(alloc, digits)?;
                tell_cuts(alloc, side, &bytes, to)
            }
            ["pieces", role, pieces @ ..] => tell_pieces(alloc, side_of(role)?, pieces, to),
            ["put", kind, frame, max_message, max_chunks, size] => {
                let numbers = [number(frame)?, number(max_message)?, number(max_chunks)?];
                tell_put(alloc, kind, numbers, number(size)?, to)
            }
            ["ends", steps @ ..] => tell_ends(alloc, steps, to),
            ["relay", steps @ ..] => tell_relay(alloc, steps, to),
            ["many", count] => tell_many(alloc, number(count)?, to),
            _ => Err(Stop::BadLine),
        }
    }
}
