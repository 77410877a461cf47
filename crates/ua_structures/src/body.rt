ghost use Rattle.std.specs.Prelude.{◌≡◌, ◌++◌, List, ℕ, Option, OnOk, OnErr, IfOk, length};
ghost use Rattle.std.specs.Option.{option_copied};
ghost use Rattle.ua_values.specs.Reading.{Moves, input};
ghost use Rattle.ua_values.specs.declared.node.NodeId.TheVariants as node;
ghost use Rattle.ua_structures.specs.Body.{Family, service, type_number, type_at, body_fault, finished, body_at};
ghost use Rattle.ua_structures.specs.Body.{object_at, written_body, object_of, taken_whole, held_bytes};
ghost use Rattle.ua_structures.specs.Body.{Answers, IsBodyRead, IsContentRead};

use std::alloc::Global;
use thiserror::Error;
use ua_base::OutOfMemory;
use ua_base::status::BAD_DECODING_ERROR;
use ua_values::{
    Cursor, Element, ExtensionBody, ExtensionObject, NodeId, UaBytes, ValueFault, put_node_id,
};

/// Why no body was read.
#[derive(Clone, Copy, Debug, PartialEq, Eq, Error)]
pub enum BodyFault {
    /// The type reads, and is none of the structures that were asked for. `id` is its number, or 0 where it isn't a numeric id of the namespace 0.
    #[error("a body of the unknown type {id}")]
    Unknown { id: u32 },
    /// The field whose first byte is at `place` breaks a rule, or the body ends early (then `place` is its length), or there are bytes left over
    /// (then `place` is the first of them); `code` is the status code that says which kind of rule.
    #[error("bad body at byte {place}")]
    Bad { place: usize, code: u32 },
    /// Memory was refused.
    #[error("out of memory")]
    OutOfMemory,
}

/// A family of structures, one of which may be a message's body or stand in an ExtensionObject.
pub trait Body: Sized + Drop {
    /// Which structure it is.
    type Service: Copy + Drop;

    ghost family: { Family Self.Service Self };

    ghost number: { Self → ℕ };

    ghost text: { Self → List ℕ };

    /// The structure whose type has this number.
    fn service(id: u32) -> Option<Self::Service>
        ensures { result ≡ service family id };

    /// Reads a structure, which stands behind its type.
    fn read_structure(
        alloc: Global,
        which: Self::Service,
        from: &mut Cursor<'_>,
    ) -> Result<Self, ValueFault>
        ensures { Moves (λ b. b) result from.new ((family.cases which).at from.old) };

    /// The number of the type.
    fn number(&self) -> u32
        ensures { result ≡ number self.now };

    /// Appends the structure without its type. Want of memory leaves what was appended by then.
    fn put_structure(&self, to: &mut Vec<u8>) -> Result<(), OutOfMemory>
        ensures { OnOk result (to.new.items ≡ to.old.items ++ text self.now) };
}

/// The number of a type; of a NodeId that is no numeric one of the namespace 0 it is 0.
fn type_number(id: &NodeId) -> u32
    ensures { result ≡ type_number id.now }
{
    match id {
        NodeId::Numeric { namespace: 0, id } => *id,
        _ => 0,
    }
}

/// The NodeId of a type.
fn type_of(id: u32) -> NodeId
    ensures { result ≡ node.Numeric 0 id }
{
    NodeId::Numeric { namespace: 0, id }
}

/// Reads the type that a body begins with.
pub(crate) fn take_type(alloc: Global, from: &mut Cursor<'_>) -> Result<u32, ValueFault>
    ensures { Moves (λ n. n) result from.new (type_at from.old) }
{
    Ok(type_number(&from.node_id(alloc)?))
}

/// Why a body of so many bytes doesn't read: one that ends early does so at its end.
pub(crate) fn failed(fault: ValueFault, length: usize) -> BodyFault
    ensures { result ≡ body_fault length fault }
{
    match fault {
        ValueFault::Short => BodyFault::Bad {
            place: length,
            code: BAD_DECODING_ERROR,
        },
        ValueFault::Bad { place, code } => BodyFault::Bad { place, code },
        ValueFault::OutOfMemory => BodyFault::OutOfMemory,
    }
}

/// What was read of a body of so many bytes, where nothing is left over behind that place.
fn finish<T: Drop>(read: Result<T, ValueFault>, place: usize, length: usize) -> Result<T, BodyFault>
    ensures { result ≡ finished length read place }
{
    match read {
        Ok(_) if place < length => Err(BodyFault::Bad {
            place,
            code: BAD_DECODING_ERROR,
        }),
        Ok(value) => Ok(value),
        Err(fault) => Err(failed(fault, length)),
    }
}

fn read_opened<B: Body>(alloc: Global, bytes: &[u8]) -> Result<B, BodyFault>
    ensures { Answers result (body_at B.family bytes.now) }
{
    let mut from = Cursor::new(bytes);
    let id = match take_type(alloc, &mut from) {
        Ok(id) => id,
        Err(fault) => return Err(failed(fault, bytes.len())),
    };
    let Some(which) = B::service(id) else {
        return Err(BodyFault::Unknown { id });
    };
    let read = B::read_structure(alloc, which, &mut from);
    finish(read, from.place(), bytes.len())
}

/// Reads the whole of a body: its type, and the structure.
///
/// # Errors
///
/// `Unknown` where the type reads and is none of this family; `Bad` where the type or the structure doesn't read, ends early or has
/// bytes left over.
pub fn read_body<B: Body>(alloc: Global, bytes: &[u8]) -> Result<B, BodyFault>
    ensures exact { Answers result (body_at B.family bytes.now) }
    ensures spelled { IsBodyRead B.family bytes.now result }
{
    read_opened(alloc, bytes)
}

/// Appends the type and the structure. Want of memory leaves what was appended by then.
fn put_body<B: Body>(value: &B, to: &mut Vec<u8>) -> Result<(), OutOfMemory>
    ensures { OnOk result (to.new.items ≡ to.old.items ++ written_body (B.number value.now) (B.text value.now)) }
{
    put_node_id(&type_of(value.number()), to)?;
    value.put_structure(to)
}

/// Appends a body, or nothing where memory is refused.
pub fn write_body<B: Body>(value: &B, to: &mut Vec<u8>) -> Result<(), OutOfMemory>
    ensures ok { OnOk result (to.new.items ≡ to.old.items ++ written_body (B.number value.now) (B.text value.now)) }
    ensures unchanged { OnErr result (to.new.items ≡ to.old.items) }
{
    let mut built = Vec::new(*to.allocator());
    put_body(value, &mut built)?;
    to.extend_from_slice(&built)?;
    Ok(())
}

/// Reads the structure of an ExtensionObject's bytes, all of them.
fn read_held<B: Body>(alloc: Global, which: B::Service, bytes: &[u8]) -> Result<B, BodyFault>
    ensures { Answers result (taken_whole (length bytes.now) ((B.family.cases which).at (input 0 bytes.now))) }
{
    let mut held = Cursor::new(bytes);
    let read = B::read_structure(alloc, which, &mut held);
    finish(read, held.place(), bytes.len())
}

/// The bytes of an ExtensionObject, where it has some.
fn bytes_of(body: &ExtensionBody) -> Option<&[u8]>
    ensures { option_copied result ≡ held_bytes body.now }
{
    match body {
        ExtensionBody::Binary(bytes) => bytes.bytes(),
        _ => None,
    }
}

fn read_object<B: Body>(alloc: Global, object: &ExtensionObject) -> Result<B, BodyFault>
    ensures { Answers result (object_at B.family object.now) }
{
    let id = type_number(&object.type_id);
    let Some(which) = B::service(id) else {
        return Err(BodyFault::Unknown { id });
    };
    match bytes_of(&object.body) {
        Some(bytes) => read_held(alloc, which, bytes),
        None => Err(BodyFault::Bad {
            place: 0,
            code: BAD_DECODING_ERROR,
        }),
    }
}

/// Reads the structure that an ExtensionObject holds.
///
/// # Errors
///
/// `Unknown` where its type is none of this family; `Bad` where it holds no bytes, or where these aren't just such a structure. Places
/// are counted in the object's bytes.
pub fn read_content<B: Body>(alloc: Global, object: &ExtensionObject) -> Result<B, BodyFault>
    ensures exact { Answers result (object_at B.family object.now) }
    ensures held { IsContentRead B.family object.now result }
{
    read_object(alloc, object)
}

/// The ExtensionObject that holds this structure.
pub fn write_content<B: Body>(alloc: Global, value: &B) -> Result<ExtensionObject, OutOfMemory>
    ensures { IfOk result (λ x. x ≡ object_of (B.number value.now) (B.text value.now)) }
{
    let mut bytes = Vec::new(alloc);
    value.put_structure(&mut bytes)?;
    Ok(ExtensionObject {
        type_id: type_of(value.number()),
        body: ExtensionBody::Binary(UaBytes::new(bytes)),
    })
}
