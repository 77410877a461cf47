//! Parts of structures, and arrays of the built-in types, which are read as elements are.

use rows::{Kind, Stop, Verb, put, put_place, tell_front};
use std::alloc::Global;
use std::fmt::Debug;
use ua_base::OutOfMemory;
use ua_structures::{ReadValueId, RequestHeader, ResponseHeader, UaArray, UnusedDiagnostics};
use ua_sub_msgs::NotificationMessage;
use ua_values::{
    Cursor, Element, ExpandedNodeId, ExtensionObject, LocalizedText, NodeId, QualifiedName,
    UaBytes, UaText, ValueFault,
};
use ua_variants::{DataValue, DiagnosticInfo, Variant};
use uuid::Uuid;

/// The kind of a type whose values are elements.
pub(crate) struct Elements<T> {
    _value: T,
}

impl<T: Element + Debug> Kind for Elements<T> {
    type Value = T;

    fn write(_alloc: Global, value: &T, to: &mut Vec<u8>) -> Result<(), OutOfMemory> {
        value.put(to)
    }
}

/// Appends a fault.
pub(crate) fn put_value_fault(
    alloc: Global,
    fault: ValueFault,
    to: &mut String,
) -> Result<(), Stop> {
    match fault {
        ValueFault::Short => put(to, "short"),
        ValueFault::Bad { place, code } => put_place(alloc, place as u64, code, to),
        ValueFault::OutOfMemory => Err(Stop::OutOfMemory),
    }
}

/// Reads an element at the front of the bytes, and says how many it takes.
fn read_element<T: Element>(alloc: Global, bytes: &[u8]) -> Result<(T, usize), ValueFault> {
    let mut from = Cursor::new(bytes);
    let read = T::read(alloc, &mut from);
    from.sized(read)
}

/// Tells an element that was read, or the fault.
fn tell_read<T: Element + Debug>(
    alloc: Global,
    verb: Verb,
    read: &Result<(T, usize), ValueFault>,
    bytes: &[u8],
    to: &mut String,
) -> Result<(), Stop> {
    match read {
        Ok((value, size)) => tell_front::<Elements<T>>(alloc, verb, value, *size, bytes, to),
        Err(fault) => put_value_fault(alloc, *fault, to),
    }
}

/// Tells an element at the front of the bytes.
fn tell_element<T: Element + Debug>(
    alloc: Global,
    verb: Verb,
    bytes: &[u8],
    to: &mut String,
) -> Result<(), Stop> {
    tell_read::<T>(alloc, verb, &read_element(alloc, bytes), bytes, to)
}

/// The copy of a message at the front of the bytes.
fn read_copy(alloc: Global, bytes: &[u8]) -> Result<(NotificationMessage, usize), ValueFault> {
    let (message, size) = read_element::<NotificationMessage>(alloc, bytes)?;
    Ok((message.copy(alloc)?, size))
}

/// Writes a copy of the NotificationMessage that stands at the front of the bytes.
pub(crate) fn tell_copied(alloc: Global, bytes: &[u8], to: &mut String) -> Result<(), Stop> {
    tell_read::<NotificationMessage>(alloc, Verb::Again, &read_copy(alloc, bytes), bytes, to)
}

/// Tells a part of a structure with this name, or an array.
pub(crate) fn tell_part(
    alloc: Global,
    verb: Verb,
    name: &str,
    bytes: &[u8],
    to: &mut String,
) -> Result<(), Stop> {
    match name {
        "RequestHeader" => tell_element::<RequestHeader>(alloc, verb, bytes, to),
        "ResponseHeader" => tell_element::<ResponseHeader>(alloc, verb, bytes, to),
        "ReadValueId" => tell_element::<ReadValueId>(alloc, verb, bytes, to),
        "ReadValueId[]" => tell_element::<UaArray<ReadValueId>>(alloc, verb, bytes, to),
        "Diagnostics" => tell_element::<UnusedDiagnostics>(alloc, verb, bytes, to),
        "Boolean[]" => tell_element::<UaArray<bool>>(alloc, verb, bytes, to),
        "SByte[]" => tell_element::<UaArray<i8>>(alloc, verb, bytes, to),
        "Byte[]" => tell_element::<UaArray<u8>>(alloc, verb, bytes, to),
        "Int16[]" => tell_element::<UaArray<i16>>(alloc, verb, bytes, to),
        "UInt16[]" => tell_element::<UaArray<u16>>(alloc, verb, bytes, to),
        _ => tell_numbers(alloc, verb, name, bytes, to),
    }
}

/// Tells an array of numbers.
fn tell_numbers(
    alloc: Global,
    verb: Verb,
    name: &str,
    bytes: &[u8],
    to: &mut String,
) -> Result<(), Stop> {
    match name {
        "Int32[]" => tell_element::<UaArray<i32>>(alloc, verb, bytes, to),
        "UInt32[]" => tell_element::<UaArray<u32>>(alloc, verb, bytes, to),
        "Int64[]" => tell_element::<UaArray<i64>>(alloc, verb, bytes, to),
        "UInt64[]" => tell_element::<UaArray<u64>>(alloc, verb, bytes, to),
        "Guid[]" => tell_element::<UaArray<Uuid>>(alloc, verb, bytes, to),
        _ => tell_texts(alloc, verb, name, bytes, to),
    }
}

/// Tells an array of texts or of values that hold others.
fn tell_texts(
    alloc: Global,
    verb: Verb,
    name: &str,
    bytes: &[u8],
    to: &mut String,
) -> Result<(), Stop> {
    match name {
        "String[]" => tell_element::<UaArray<UaText>>(alloc, verb, bytes, to),
        "ByteString[]" => tell_element::<UaArray<UaBytes>>(alloc, verb, bytes, to),
        "NodeId[]" => tell_element::<UaArray<NodeId>>(alloc, verb, bytes, to),
        "ExpandedNodeId[]" => tell_element::<UaArray<ExpandedNodeId>>(alloc, verb, bytes, to),
        "QualifiedName[]" => tell_element::<UaArray<QualifiedName>>(alloc, verb, bytes, to),
        "LocalizedText[]" => tell_element::<UaArray<LocalizedText>>(alloc, verb, bytes, to),
        "ExtensionObject[]" => tell_element::<UaArray<ExtensionObject>>(alloc, verb, bytes, to),
        "Variant[]" => tell_element::<UaArray<Variant>>(alloc, verb, bytes, to),
        "DataValue[]" => tell_element::<UaArray<DataValue>>(alloc, verb, bytes, to),
        "DiagnosticInfo[]" => tell_element::<UaArray<DiagnosticInfo>>(alloc, verb, bytes, to),
        _ => Err(Stop::BadLine),
    }
}
