//! Values that hold no others, one and many.

ghost use Rattle.std.specs.Prelude.{◌≡◌, ◌++◌, OnOk};
ghost use Rattle.ua_values.specs.Reading.{Moves};
ghost use Rattle.ua_values.specs.Readers.{array_at};
ghost use Rattle.ua_variants.specs.Reader.{scalar_at, flat_array_at};
ghost use Rattle.ua_variants.specs.Spelling.{flat_of, flat_of_array, written_scalar, written_flat_array};

use crate::variant::{Array, Flat, Scalar};
use sqlite_items::Items;
use std::alloc::Global;
use ua_base::OutOfMemory;
use ua_values::{
    Cursor, Element, ValueFault, put_array, put_expanded_node_id, put_extension_object,
    put_localized_text, put_node_id, put_qualified_name, read_array, write_boolean, write_byte,
    write_byte_string, write_date_time, write_double, write_float, write_guid, write_int16,
    write_int32, write_int64, write_sbyte, write_status_code, write_string, write_uint16,
    write_uint32, write_uint64, write_xml_element,
};

/// What was read, made into a value by a variant. A `?` in its place would call functions at the value's whole type at each use.
macro_rules! made {
    ($make:path, $read:expr) => {
        match $read {
            Ok(value) => Ok($make(value)),
            Err(fault) => Err(fault),
        }
    };
}

/// One value of the type.
pub(crate) fn scalar(alloc: Global, flat: Flat, from: &mut Cursor<'_>) -> Result<Scalar, ValueFault>
    ensures { Moves (λ s. s) result from.new (scalar_at flat from.old) }
{
    match flat {
        Flat::Boolean => made!(Scalar::Boolean, from.boolean()),
        Flat::SByte => made!(Scalar::SByte, from.sbyte()),
        Flat::Byte => made!(Scalar::Byte, from.byte()),
        Flat::Int16 => made!(Scalar::Int16, from.int16()),
        Flat::UInt16 => made!(Scalar::UInt16, from.uint16()),
        Flat::Int32 => made!(Scalar::Int32, from.int32()),
        Flat::UInt32 => made!(Scalar::UInt32, from.uint32()),
        Flat::Int64 => made!(Scalar::Int64, from.int64()),
        Flat::UInt64 => made!(Scalar::UInt64, from.uint64()),
        Flat::Float => made!(Scalar::Float, from.uint32()),
        Flat::Double => made!(Scalar::Double, from.uint64()),
        Flat::String => made!(Scalar::String, from.text(alloc)),
        Flat::DateTime => made!(Scalar::DateTime, from.int64()),
        Flat::Guid => made!(Scalar::Guid, from.guid()),
        Flat::ByteString => made!(Scalar::ByteString, from.byte_string(alloc)),
        Flat::XmlElement => made!(Scalar::XmlElement, from.text(alloc)),
        Flat::NodeId => made!(Scalar::NodeId, from.node_id(alloc)),
        Flat::ExpandedNodeId => made!(Scalar::ExpandedNodeId, from.expanded_node_id(alloc)),
        Flat::StatusCode => made!(Scalar::StatusCode, from.uint32()),
        Flat::QualifiedName => made!(Scalar::QualifiedName, from.qualified_name(alloc)),
        Flat::LocalizedText => made!(Scalar::LocalizedText, from.localized_text(alloc)),
        Flat::ExtensionObject => made!(Scalar::ExtensionObject, from.extension_object(alloc)),
    }
}

/// An array's elements.
fn items<T: Element>(alloc: Global, from: &mut Cursor<'_>) -> Result<Items<T>, ValueFault>
    ensures { Moves (λ items. items) result from.new (array_at T.at from.old) }
{
    Ok(Items::from_vec(read_array(alloc, from)?))
}

/// An array of values of the type.
pub(crate) fn flat_array(
    alloc: Global,
    flat: Flat,
    from: &mut Cursor<'_>,
) -> Result<Array, ValueFault>
    ensures { Moves (λ a. a) result from.new (flat_array_at flat from.old) }
{
    match flat {
        Flat::Boolean => made!(Array::Boolean, items(alloc, from)),
        Flat::SByte => made!(Array::SByte, items(alloc, from)),
        Flat::Byte => made!(Array::Byte, items(alloc, from)),
        Flat::Int16 => made!(Array::Int16, items(alloc, from)),
        Flat::UInt16 => made!(Array::UInt16, items(alloc, from)),
        Flat::Int32 => made!(Array::Int32, items(alloc, from)),
        Flat::UInt32 => made!(Array::UInt32, items(alloc, from)),
        Flat::Int64 => made!(Array::Int64, items(alloc, from)),
        Flat::UInt64 => made!(Array::UInt64, items(alloc, from)),
        Flat::Float => made!(Array::Float, items(alloc, from)),
        Flat::Double => made!(Array::Double, items(alloc, from)),
        Flat::String => made!(Array::String, items(alloc, from)),
        Flat::DateTime => made!(Array::DateTime, items(alloc, from)),
        Flat::Guid => made!(Array::Guid, items(alloc, from)),
        Flat::ByteString => made!(Array::ByteString, items(alloc, from)),
        Flat::XmlElement => made!(Array::XmlElement, items(alloc, from)),
        Flat::NodeId => made!(Array::NodeId, items(alloc, from)),
        Flat::ExpandedNodeId => made!(Array::ExpandedNodeId, items(alloc, from)),
        Flat::StatusCode => made!(Array::StatusCode, items(alloc, from)),
        Flat::QualifiedName => made!(Array::QualifiedName, items(alloc, from)),
        Flat::LocalizedText => made!(Array::LocalizedText, items(alloc, from)),
        Flat::ExtensionObject => made!(Array::ExtensionObject, items(alloc, from)),
    }
}

impl Scalar {
    /// The value's type.
    pub fn flat(&self) -> Flat
        ensures { result ≡ flat_of self.now }
    {
        match self {
            Scalar::Boolean(_) => Flat::Boolean,
            Scalar::SByte(_) => Flat::SByte,
            Scalar::Byte(_) => Flat::Byte,
            Scalar::Int16(_) => Flat::Int16,
            Scalar::UInt16(_) => Flat::UInt16,
            Scalar::Int32(_) => Flat::Int32,
            Scalar::UInt32(_) => Flat::UInt32,
            Scalar::Int64(_) => Flat::Int64,
            Scalar::UInt64(_) => Flat::UInt64,
            Scalar::Float(_) => Flat::Float,
            Scalar::Double(_) => Flat::Double,
            Scalar::String(_) => Flat::String,
            Scalar::DateTime(_) => Flat::DateTime,
            Scalar::Guid(_) => Flat::Guid,
            Scalar::ByteString(_) => Flat::ByteString,
            Scalar::XmlElement(_) => Flat::XmlElement,
            Scalar::NodeId(_) => Flat::NodeId,
            Scalar::ExpandedNodeId(_) => Flat::ExpandedNodeId,
            Scalar::StatusCode(_) => Flat::StatusCode,
            Scalar::QualifiedName(_) => Flat::QualifiedName,
            Scalar::LocalizedText(_) => Flat::LocalizedText,
            Scalar::ExtensionObject(_) => Flat::ExtensionObject,
        }
    }
}

impl Array {
    /// The elements' type.
    pub fn flat(&self) -> Flat
        ensures { result ≡ flat_of_array self.now }
    {
        match self {
            Array::Boolean(_) => Flat::Boolean,
            Array::SByte(_) => Flat::SByte,
            Array::Byte(_) => Flat::Byte,
            Array::Int16(_) => Flat::Int16,
            Array::UInt16(_) => Flat::UInt16,
            Array::Int32(_) => Flat::Int32,
            Array::UInt32(_) => Flat::UInt32,
            Array::Int64(_) => Flat::Int64,
            Array::UInt64(_) => Flat::UInt64,
            Array::Float(_) => Flat::Float,
            Array::Double(_) => Flat::Double,
            Array::String(_) => Flat::String,
            Array::DateTime(_) => Flat::DateTime,
            Array::Guid(_) => Flat::Guid,
            Array::ByteString(_) => Flat::ByteString,
            Array::XmlElement(_) => Flat::XmlElement,
            Array::NodeId(_) => Flat::NodeId,
            Array::ExpandedNodeId(_) => Flat::ExpandedNodeId,
            Array::StatusCode(_) => Flat::StatusCode,
            Array::QualifiedName(_) => Flat::QualifiedName,
            Array::LocalizedText(_) => Flat::LocalizedText,
            Array::ExtensionObject(_) => Flat::ExtensionObject,
        }
    }
}

/// Appends the value alone.
pub(crate) fn put_scalar(value: &Scalar, to: &mut Vec<u8>) -> Result<(), OutOfMemory>
    ensures { OnOk result (to.new.items ≡ to.old.items ++ written_scalar value.now) }
{
    match value {
        Scalar::Boolean(x) => write_boolean(*x, to),
        Scalar::SByte(x) => write_sbyte(*x, to),
        Scalar::Byte(x) => write_byte(*x, to),
        Scalar::Int16(x) => write_int16(*x, to),
        Scalar::UInt16(x) => write_uint16(*x, to),
        Scalar::Int32(x) => write_int32(*x, to),
        Scalar::UInt32(x) => write_uint32(*x, to),
        Scalar::Int64(x) => write_int64(*x, to),
        Scalar::UInt64(x) => write_uint64(*x, to),
        Scalar::Float(x) => write_float(*x, to),
        Scalar::Double(x) => write_double(*x, to),
        Scalar::String(x) => write_string(x, to),
        Scalar::DateTime(x) => write_date_time(*x, to),
        Scalar::Guid(x) => write_guid(*x, to),
        Scalar::ByteString(x) => write_byte_string(x, to),
        Scalar::XmlElement(x) => write_xml_element(x, to),
        Scalar::NodeId(x) => put_node_id(x, to),
        Scalar::ExpandedNodeId(x) => put_expanded_node_id(x, to),
        Scalar::StatusCode(x) => write_status_code(*x, to),
        Scalar::QualifiedName(x) => put_qualified_name(x, to),
        Scalar::LocalizedText(x) => put_localized_text(x, to),
        Scalar::ExtensionObject(x) => put_extension_object(x, to),
    }
}

/// Appends the number of elements, and them.
pub(crate) fn put_flat_array(value: &Array, to: &mut Vec<u8>) -> Result<(), OutOfMemory>
    ensures { OnOk result (to.new.items ≡ to.old.items ++ written_flat_array value.now) }
{
    match value {
        Array::Boolean(items) => put_array(items.as_slice(), to),
        Array::SByte(items) => put_array(items.as_slice(), to),
        Array::Byte(items) => put_array(items.as_slice(), to),
        Array::Int16(items) => put_array(items.as_slice(), to),
        Array::UInt16(items) => put_array(items.as_slice(), to),
        Array::Int32(items) => put_array(items.as_slice(), to),
        Array::UInt32(items) => put_array(items.as_slice(), to),
        Array::Int64(items) => put_array(items.as_slice(), to),
        Array::UInt64(items) => put_array(items.as_slice(), to),
        Array::Float(items) => put_array(items.as_slice(), to),
        Array::Double(items) => put_array(items.as_slice(), to),
        Array::String(items) => put_array(items.as_slice(), to),
        Array::DateTime(items) => put_array(items.as_slice(), to),
        Array::Guid(items) => put_array(items.as_slice(), to),
        Array::ByteString(items) => put_array(items.as_slice(), to),
        Array::XmlElement(items) => put_array(items.as_slice(), to),
        Array::NodeId(items) => put_array(items.as_slice(), to),
        Array::ExpandedNodeId(items) => put_array(items.as_slice(), to),
        Array::StatusCode(items) => put_array(items.as_slice(), to),
        Array::QualifiedName(items) => put_array(items.as_slice(), to),
        Array::LocalizedText(items) => put_array(items.as_slice(), to),
        Array::ExtensionObject(items) => put_array(items.as_slice(), to),
    }
}
