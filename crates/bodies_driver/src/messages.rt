//! The bodies of messages.

use crate::elements::Elements;
use crate::sole::Sole;
use rows::{Kind, Stop, Verb, put, put_place, tell};
use std::alloc::Global;
use ua_base::OutOfMemory;
use ua_session_msgs::{SessionReply, SessionRequest};
use ua_structures::{Body, BodyFault, RequestHeader, read_body, read_header, write_body};
use ua_sub_msgs::{SubReply, SubRequest};

/// Appends a fault.
pub(crate) fn put_fault(alloc: Global, fault: BodyFault, to: &mut String) -> Result<(), Stop> {
    match fault {
        BodyFault::Unknown { id } => put(to, format!(in alloc; "unknown {id}")?.as_str()),
        BodyFault::Bad { place, code } => put_place(alloc, place as u64, code, to),
        BodyFault::OutOfMemory => Err(Stop::OutOfMemory),
    }
}

/// Tells a structure behind the number of its type, or the fault.
pub(crate) fn tell_numbered<T: Kind>(
    alloc: Global,
    verb: Verb,
    read: &Result<T::Value, BodyFault>,
    bytes: &[u8],
    to: &mut String,
) -> Result<(), Stop>
where
    T::Value: Body,
{
    match read {
        Ok(value) => {
            let number = value.number();
            put(to, format!(in alloc; "type {number}")?.as_str())?;
            tell::<T>(alloc, verb, value, bytes, to)
        }
        Err(fault) => put_fault(alloc, *fault, to),
    }
}

/// A kind of bodies.
trait Message: Kind {
    /// Reads the body that all of the bytes are.
    fn read(alloc: Global, bytes: &[u8]) -> Result<Self::Value, BodyFault>;
}

fn tell_body<T: Message>(
    alloc: Global,
    verb: Verb,
    bytes: &[u8],
    to: &mut String,
) -> Result<(), Stop>
where
    T::Value: Body,
{
    tell_numbered::<T>(alloc, verb, &T::read(alloc, bytes), bytes, to)
}

struct SessionRequests;

impl Kind for SessionRequests {
    type Value = SessionRequest;

    fn write(_alloc: Global, value: &SessionRequest, to: &mut Vec<u8>) -> Result<(), OutOfMemory> {
        ua_session_msgs::write_request(value, to)
    }
}

impl Message for SessionRequests {
    fn read(alloc: Global, bytes: &[u8]) -> Result<SessionRequest, BodyFault> {
        ua_session_msgs::read_request(alloc, bytes)
    }
}

struct SessionReplies;

impl Kind for SessionReplies {
    type Value = SessionReply;

    fn write(_alloc: Global, value: &SessionReply, to: &mut Vec<u8>) -> Result<(), OutOfMemory> {
        ua_session_msgs::write_reply(value, to)
    }
}

impl Message for SessionReplies {
    fn read(alloc: Global, bytes: &[u8]) -> Result<SessionReply, BodyFault> {
        ua_session_msgs::read_reply(alloc, bytes)
    }
}

struct SubRequests;

impl Kind for SubRequests {
    type Value = SubRequest;

    fn write(_alloc: Global, value: &SubRequest, to: &mut Vec<u8>) -> Result<(), OutOfMemory> {
        ua_sub_msgs::write_request(value, to)
    }
}

impl Message for SubRequests {
    fn read(alloc: Global, bytes: &[u8]) -> Result<SubRequest, BodyFault> {
        ua_sub_msgs::read_request(alloc, bytes)
    }
}

struct SubReplies;

impl Kind for SubReplies {
    type Value = SubReply;

    fn write(_alloc: Global, value: &SubReply, to: &mut Vec<u8>) -> Result<(), OutOfMemory> {
        ua_sub_msgs::write_reply(value, to)
    }
}

impl Message for SubReplies {
    fn read(alloc: Global, bytes: &[u8]) -> Result<SubReply, BodyFault> {
        ua_sub_msgs::read_reply(alloc, bytes)
    }
}

struct Soles;

impl Kind for Soles {
    type Value = Sole;

    fn write(_alloc: Global, value: &Sole, to: &mut Vec<u8>) -> Result<(), OutOfMemory> {
        write_body(value, to)
    }
}

impl Message for Soles {
    fn read(alloc: Global, bytes: &[u8]) -> Result<Sole, BodyFault> {
        read_body(alloc, bytes)
    }
}

/// Tells a body of a direction with this name.
pub(crate) fn tell_message(
    alloc: Global,
    verb: Verb,
    name: &str,
    bytes: &[u8],
    to: &mut String,
) -> Result<(), Stop> {
    match name {
        "session.request" => tell_body::<SessionRequests>(alloc, verb, bytes, to),
        "session.reply" => tell_body::<SessionReplies>(alloc, verb, bytes, to),
        "sub.request" => tell_body::<SubRequests>(alloc, verb, bytes, to),
        "sub.reply" => tell_body::<SubReplies>(alloc, verb, bytes, to),
        "sole" => tell_body::<Soles>(alloc, verb, bytes, to),
        _ => Err(Stop::BadLine),
    }
}

/// Tells the header that was read, or the fault.
fn tell_read_header(
    alloc: Global,
    verb: Verb,
    read: &Result<RequestHeader, BodyFault>,
    bytes: &[u8],
    to: &mut String,
) -> Result<(), Stop> {
    match read {
        Ok(header) => {
            put(to, "header")?;
            tell::<Elements<RequestHeader>>(alloc, verb, header, bytes, to)
        }
        Err(fault) => put_fault(alloc, *fault, to),
    }
}

/// Tells the header of any request.
pub(crate) fn tell_header(
    alloc: Global,
    verb: Verb,
    bytes: &[u8],
    to: &mut String,
) -> Result<(), Stop> {
    tell_read_header(alloc, verb, &read_header(alloc, bytes), bytes, to)
}
