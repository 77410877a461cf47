//! The front of a body: its type, and the header of a request.

ghost use Rattle.ua_values.specs.Reading.{Moves};
ghost use Rattle.ua_structures.specs.Body.{body_type_at, Answers, IsTypeRead};
ghost use Rattle.ua_structures.specs.Header.{head_at, header_at, IsHeaderRead};

use crate::body::{BodyFault, failed, take_type};
use crate::header::RequestHeader;
use std::alloc::Global;
use ua_values::{Cursor, Element, ValueFault};

/// The type that a body begins with.
#[derive(Clone, Copy, Debug, PartialEq, Eq)]
pub struct BodyType {
    /// Its number, or 0 where it isn't a numeric id of the namespace 0.
    pub id: u32,
    /// Where the structure begins, behind the type: how many bytes the type has.
    pub place: usize,
}

fn read_type_alone(alloc: Global, bytes: &[u8]) -> Result<BodyType, BodyFault>
    ensures { Answers result (body_type_at bytes.now) }
{
    let mut from = Cursor::new(bytes);
    match take_type(alloc, &mut from) {
        Ok(id) => Ok(BodyType {
            id,
            place: from.place(),
        }),
        Err(fault) => Err(failed(fault, bytes.len())),
    }
}

/// Reads the type of a body, whichever it is, and nothing behind it: it says which structure would stand there.
///
/// # Errors
///
/// `Bad` where the type doesn't read or ends early; never `Unknown`.
pub fn read_type(alloc: Global, bytes: &[u8]) -> Result<BodyType, BodyFault>
    ensures exact { Answers result (body_type_at bytes.now) }
    ensures spelled { IsTypeRead bytes.now result }
{
    read_type_alone(alloc, bytes)
}

/// Reads a type, whichever it is, and the header of a request.
fn read_head(alloc: Global, from: &mut Cursor<'_>) -> Result<RequestHeader, ValueFault>
    ensures { Moves (λ h. h) result from.new (head_at from.old) }
{
    take_type(alloc, from)?;
    RequestHeader::read(alloc, from)
}

fn read_header_alone(alloc: Global, bytes: &[u8]) -> Result<RequestHeader, BodyFault>
    ensures { Answers result (header_at bytes.now) }
{
    match read_head(alloc, &mut Cursor::new(bytes)) {
        Ok(header) => Ok(header),
        Err(fault) => Err(failed(fault, bytes.len())),
    }
}

/// Reads the header of a request of any type, and nothing behind it: it says where a reply to a request that doesn't read belongs.
///
/// # Errors
///
/// `Bad` where the type or the header doesn't read or ends early; never `Unknown`.
pub fn read_header(alloc: Global, bytes: &[u8]) -> Result<RequestHeader, BodyFault>
    ensures exact { Answers result (header_at bytes.now) }
    ensures spelled { IsHeaderRead bytes.now result }
{
    read_header_alone(alloc, bytes)
}
