//! The bodies of HEL, ACK, ERR and OPN. What is written of one is the whole frame.

ghost use Rattle.std.specs.Prelude.{◌≤◌, length, IfSome};

use crate::types::put_fault;
use rows::{Kind, Stop, Verb, put, tell};
use std::alloc::Global;
use ua_base::OutOfMemory;
use ua_chunks::{
    Greeting, Kind as FrameKind, OpnChunk, PutFault, Sender, read_ack, read_err, read_hello,
    read_opn, read_policy, write_ack, write_err, write_hello,
};
use ua_values::{UaText, ValueFault, write_string};

/// How many bytes the URL of a HEL may have.
pub(crate) const MOST_URL: usize = 4091;

/// Writes a HEL whose URL is not too long.
fn write_greeting(
    alloc: Global,
    greeting: &Greeting,
    url: &UaText,
    to: &mut Vec<u8>,
) -> Result<(), OutOfMemory> {
    match url.bytes() {
        None => write_hello(alloc, greeting, url, to),
        Some(bytes) if bytes.len() <= MOST_URL => write_hello(alloc, greeting, url, to),
        Some(_) => Ok(()),
    }
}

/// Puts an OPN as the first frame of a channel, where it isn't too long.
fn put_opn(alloc: Global, opn: &OpnChunk, to: &mut Vec<u8>) -> Result<(), OutOfMemory> {
    if opn.body.len() > 4096 {
        return Ok(());
    }
    let mut sender = Sender::new(opn.channel, 0, 8192, 0, 0);
    match sender.put(alloc, FrameKind::Opn, opn.request, opn.body.bytes(), to) {
        Err(PutFault::OutOfMemory) => Err(OutOfMemory),
        _ => Ok(()),
    }
}

/// A kind of bodies, each of which is read of all its bytes.
trait Whole: Kind {
    fn read(alloc: Global, bytes: &[u8]) -> Result<Self::Value, ValueFault>;
}

struct Hellos;

impl Kind for Hellos {
    type Value = (Greeting, UaText);

    fn write(
        alloc: Global,
        value: &(Greeting, UaText),
        to: &mut Vec<u8>,
    ) -> Result<(), OutOfMemory> {
        write_greeting(alloc, &value.0, &value.1, to)
    }
}

impl Whole for Hellos {
    fn read(alloc: Global, bytes: &[u8]) -> Result<(Greeting, UaText), ValueFault> {
        read_hello(alloc, bytes)
    }
}

struct Acks;

impl Kind for Acks {
    type Value = Greeting;

    fn write(alloc: Global, value: &Greeting, to: &mut Vec<u8>) -> Result<(), OutOfMemory> {
        write_ack(alloc, value, to)
    }
}

impl Whole for Acks {
    fn read(_alloc: Global, bytes: &[u8]) -> Result<Greeting, ValueFault> {
        read_ack(bytes)
    }
}

struct Errs;

impl Kind for Errs {
    type Value = u32;

    fn write(alloc: Global, value: &u32, to: &mut Vec<u8>) -> Result<(), OutOfMemory> {
        write_err(alloc, *value, to)
    }
}

impl Whole for Errs {
    fn read(alloc: Global, bytes: &[u8]) -> Result<u32, ValueFault> {
        read_err(alloc, bytes)
    }
}

struct Opns;

impl Kind for Opns {
    type Value = OpnChunk;

    fn write(alloc: Global, value: &OpnChunk, to: &mut Vec<u8>) -> Result<(), OutOfMemory> {
        put_opn(alloc, value, to)
    }
}

impl Whole for Opns {
    fn read(alloc: Global, bytes: &[u8]) -> Result<OpnChunk, ValueFault> {
        read_opn(alloc, bytes)
    }
}

struct Policies;

impl Kind for Policies {
    type Value = UaText;

    fn write(_alloc: Global, value: &UaText, to: &mut Vec<u8>) -> Result<(), OutOfMemory> {
        write_string(value, to)
    }
}

impl Whole for Policies {
    fn read(alloc: Global, bytes: &[u8]) -> Result<UaText, ValueFault> {
        read_policy(alloc, bytes)
    }
}

/// Tells what was read, or the fault.
fn tell_read<T: Whole>(
    alloc: Global,
    verb: Verb,
    read: &Result<T::Value, ValueFault>,
    bytes: &[u8],
    to: &mut String,
) -> Result<(), Stop> {
    match read {
        Ok(value) => {
            put(to, "all")?;
            tell::<T>(alloc, verb, value, bytes, to)
        }
        Err(fault) => put_fault(alloc, *fault, to),
    }
}

fn tell_whole<T: Whole>(
    alloc: Global,
    verb: Verb,
    bytes: &[u8],
    to: &mut String,
) -> Result<(), Stop> {
    tell_read::<T>(alloc, verb, &T::read(alloc, bytes), bytes, to)
}

/// Tells the body of a frame with this name.
pub(crate) fn tell_greeting(
    alloc: Global,
    verb: Verb,
    name: &str,
    bytes: &[u8],
    to: &mut String,
) -> Result<(), Stop> {
    match name {
        "HEL" => tell_whole::<Hellos>(alloc, verb, bytes, to),
        "ACK" => tell_whole::<Acks>(alloc, verb, bytes, to),
        "ERR" => tell_whole::<Errs>(alloc, verb, bytes, to),
        "OPN" => tell_whole::<Opns>(alloc, verb, bytes, to),
        "OPN.policy" => tell_whole::<Policies>(alloc, verb, bytes, to),
        _ => Err(Stop::BadLine),
    }
}
