//! What the body of a message asks of a server, and what a reply is.

use crate::messages::put_fault;
use rows::{Kind, Stop, Verb, put, tell};
use std::alloc::Global;
use ua_base::OutOfMemory;
use ua_services::{
    Reply, Request, RequestFault, read_reply, read_request, write_reply, write_request,
};
use ua_structures::BodyFault;

/// A direction of messages.
trait Direction: Kind {
    /// Why nothing is read.
    type Fault: Drop;

    /// Reads the body that all of the bytes are.
    fn read(alloc: Global, bytes: &[u8]) -> Result<Self::Value, Self::Fault>;

    /// Appends what the header says.
    fn put_header(alloc: Global, value: &Self::Value, to: &mut String) -> Result<(), Stop>;

    /// Appends why nothing was read.
    fn put_refusal(alloc: Global, fault: &Self::Fault, to: &mut String) -> Result<(), Stop>;
}

fn tell_read<T: Direction>(
    alloc: Global,
    verb: Verb,
    read: &Result<T::Value, T::Fault>,
    bytes: &[u8],
    to: &mut String,
) -> Result<(), Stop> {
    match read {
        Ok(value) => {
            T::put_header(alloc, value, to)?;
            tell::<T>(alloc, verb, value, bytes, to)
        }
        Err(fault) => T::put_refusal(alloc, fault, to),
    }
}

fn tell_body<T: Direction>(
    alloc: Global,
    verb: Verb,
    bytes: &[u8],
    to: &mut String,
) -> Result<(), Stop> {
    tell_read::<T>(alloc, verb, &T::read(alloc, bytes), bytes, to)
}

struct Requests;

impl Kind for Requests {
    type Value = Request;

    fn write(_alloc: Global, value: &Request, to: &mut Vec<u8>) -> Result<(), OutOfMemory> {
        write_request(value, to)
    }
}

impl Direction for Requests {
    type Fault = RequestFault;

    fn read(alloc: Global, bytes: &[u8]) -> Result<Request, RequestFault> {
        read_request(alloc, bytes)
    }

    fn put_header(alloc: Global, value: &Request, to: &mut String) -> Result<(), Stop> {
        let handle = value.header().request_handle;
        put(to, format!(in alloc; "handle {handle}")?.as_str())
    }

    fn put_refusal(alloc: Global, fault: &RequestFault, to: &mut String) -> Result<(), Stop> {
        match *fault {
            RequestFault::Header => put(to, "no header"),
            RequestFault::Service { handle } => {
                put(to, format!(in alloc; "no service {handle}")?.as_str())
            }
            RequestFault::Body { handle } => put(
                to,
                format!(in alloc; "bad body {handle}")?.as_str(),
            ),
            RequestFault::OutOfMemory => Err(Stop::OutOfMemory),
        }
    }
}

struct Replies;

impl Kind for Replies {
    type Value = Reply;

    fn write(_alloc: Global, value: &Reply, to: &mut Vec<u8>) -> Result<(), OutOfMemory> {
        write_reply(value, to)
    }
}

impl Direction for Replies {
    type Fault = BodyFault;

    fn read(alloc: Global, bytes: &[u8]) -> Result<Reply, BodyFault> {
        read_reply(alloc, bytes)
    }

    fn put_header(alloc: Global, value: &Reply, to: &mut String) -> Result<(), Stop> {
        let header = value.header();
        let handle = header.request_handle;
        let result = header.service_result;
        put(
            to,
            format!(in alloc; "handle {handle} result {result:08X}")?.as_str(),
        )
    }

    fn put_refusal(alloc: Global, fault: &BodyFault, to: &mut String) -> Result<(), Stop> {
        put_fault(alloc, *fault, to)
    }
}

/// Tells what a message's body asks, or what a reply is.
pub(crate) fn tell_service(
    alloc: Global,
    verb: Verb,
    name: &str,
    bytes: &[u8],
    to: &mut String,
) -> Result<(), Stop> {
    match name {
        "request" => tell_body::<Requests>(alloc, verb, bytes, to),
        "reply" => tell_body::<Replies>(alloc, verb, bytes, to),
        _ => Err(Stop::BadLine),
    }
}
