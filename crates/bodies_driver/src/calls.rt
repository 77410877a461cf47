//! Calls that no line of bytes makes: what they answer to what the words of a line say.

use crate::messages::put_fault;
use rows::{Stop, bytes_of, number, put, put_bytes};
use std::alloc::Global;
use ua_session_msgs::SignatureData;
use ua_structures::{BodyFault, BodyType, RequestHeader, ResponseHeader, read_type};
use ua_values::{Element, NodeId, ValueFault, read_node_id};

/// Appends a type's number and where the structure begins, or the fault.
fn put_type(alloc: Global, read: Result<BodyType, BodyFault>, to: &mut String) -> Result<(), Stop> {
    match read {
        Ok(BodyType { id, place }) => put(to, format!(in alloc; "{id} behind {place}")?.as_str()),
        Err(fault) => put_fault(alloc, fault, to),
    }
}

/// Says the type that bytes begin with.
fn answer_type(alloc: Global, digits: &[&str], to: &mut String) -> Result<(), Stop> {
    let bytes = bytes_of(alloc, digits)?;
    put_type(alloc, read_type(alloc, &bytes), to)
}

/// Appends a structure as it is written.
fn put_structure<T: Element>(alloc: Global, value: &T, to: &mut String) -> Result<(), Stop> {
    let mut bytes = Vec::new(alloc);
    value.put(&mut bytes)?;
    put_bytes(alloc, &bytes, to)
}

/// The token of these bytes.
fn token_of(alloc: Global, bytes: &[u8]) -> Result<NodeId, Stop> {
    match read_node_id(alloc, bytes) {
        Ok((token, _)) => Ok(token),
        Err(ValueFault::OutOfMemory) => Err(Stop::OutOfMemory),
        Err(_) => Err(Stop::BadLine),
    }
}

/// The header of a request with this time, number and token.
fn request_header(
    alloc: Global,
    timestamp: i64,
    handle: u32,
    token: &[&str],
) -> Result<RequestHeader, Stop> {
    let token = token_of(alloc, &bytes_of(alloc, token)?)?;
    Ok(RequestHeader::new(token, timestamp, handle))
}

/// Appends a header as it is written.
fn put_header(
    alloc: Global,
    header: &Result<RequestHeader, Stop>,
    to: &mut String,
) -> Result<(), Stop> {
    match header {
        Ok(header) => put_structure(alloc, header, to),
        Err(stop) => Err(*stop),
    }
}

/// Writes the header of a reply with this time, number and status.
fn answer_response_header(alloc: Global, numbers: [&str; 3], to: &mut String) -> Result<(), Stop> {
    let [timestamp, handle, status] = numbers;
    let timestamp = number(timestamp)?;
    let handle = number(handle)?;
    let status = number(status)?;
    put_structure(alloc, &ResponseHeader::new(timestamp, handle, status), to)
}

/// Answers `call` and these words.
pub(crate) fn answer_call(alloc: Global, words: &[&str], to: &mut String) -> Result<(), Stop> {
    match words {
        ["type", digits @ ..] => answer_type(alloc, digits, to),
        ["request_header", timestamp, handle, token @ ..] => {
            let timestamp = number(timestamp)?;
            let handle = number(handle)?;
            put_header(alloc, &request_header(alloc, timestamp, handle, token), to)
        }
        ["response_header", timestamp, handle, status] => {
            answer_response_header(alloc, [timestamp, handle, status], to)
        }
        ["blank_signature"] => put_structure(alloc, &SignatureData::blank(), to),
        _ => Err(Stop::BadLine),
    }
}
