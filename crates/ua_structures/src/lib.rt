//! The parts that the structures of OPC UA messages are made of.
#![tactic(auto)]

mod array;
mod body;
mod fields;
mod front;
mod header;
mod laws;
mod shared;
mod unused;

pub use array::UaArray;
pub use body::{Body, BodyFault, read_body, read_content, write_body, write_content};
pub use fields::{Fields, Last, Parts};
pub use front::{BodyType, read_header, read_type};
pub use header::{RequestHeader, ResponseHeader};
pub use laws::{
    foreign_is_unknown, made_headers_keep, read_value_ids_are_lawful, request_headers_are_lawful,
    response_headers_are_lawful,
};
pub use shared::ReadValueId;
pub use unused::{UnusedDiagnostics, UnusedOfRequest, UnusedOfResponse, no_object};
