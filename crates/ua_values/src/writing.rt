ghost use Rattle.std.specs.Prelude.{◌≡◌, ◌++◌, OnOk, OnErr, option_copied};
ghost use Rattle.std.specs.Int.{w8, w16, w32, w64};
ghost use Rattle.byteorder.specs.Endian.{little_bytes};
ghost use Rattle.ua_values.specs.Written.{written_boolean, written_signed, written_guid, written_text, unless_null, unless_zero, flag, shortest_number, written_number, written_form, written_node, written_head, written_expanded, written_qualified, written_mask, written_localized, written_body, written_extension};

use crate::extension::{ExtensionBody, ExtensionObject};
use crate::names::{LocalizedText, QualifiedName};
use crate::node::{ExpandedNodeId, Form, NodeId};
use crate::run::{UaBytes, UaText};
use byteorder::{ByteOrder, LittleEndian};
use ua_base::OutOfMemory;
use uuid::Uuid;

/// Appends a Byte (OPC 10000-6, 5.2.2.2).
pub fn write_byte(value: u8, to: &mut Vec<u8>) -> Result<(), OutOfMemory>
    ensures ok { OnOk result (to.new.items ≡ to.old.items ++ little_bytes 1 value) }
    ensures unchanged { OnErr result (to.new.items ≡ to.old.items) }
{
    to.push(value)?;
    Ok(())
}

/// Appends a UInt16 (OPC 10000-6, 5.2.2.2).
pub fn write_uint16(value: u16, to: &mut Vec<u8>) -> Result<(), OutOfMemory>
    ensures ok { OnOk result (to.new.items ≡ to.old.items ++ little_bytes 2 value) }
    ensures unchanged { OnErr result (to.new.items ≡ to.old.items) }
{
    let mut bytes = [0; 2];
    LittleEndian::write_u16(&mut bytes, value);
    to.extend_from_slice(&bytes)?;
    Ok(())
}

/// Appends a UInt32 (OPC 10000-6, 5.2.2.2).
pub fn write_uint32(value: u32, to: &mut Vec<u8>) -> Result<(), OutOfMemory>
    ensures ok { OnOk result (to.new.items ≡ to.old.items ++ little_bytes 4 value) }
    ensures unchanged { OnErr result (to.new.items ≡ to.old.items) }
{
    let mut bytes = [0; 4];
    LittleEndian::write_u32(&mut bytes, value);
    to.extend_from_slice(&bytes)?;
    Ok(())
}

/// Appends a UInt64 (OPC 10000-6, 5.2.2.2).
pub fn write_uint64(value: u64, to: &mut Vec<u8>) -> Result<(), OutOfMemory>
    ensures ok { OnOk result (to.new.items ≡ to.old.items ++ little_bytes 8 value) }
    ensures unchanged { OnErr result (to.new.items ≡ to.old.items) }
{
    let mut bytes = [0; 8];
    LittleEndian::write_u64(&mut bytes, value);
    to.extend_from_slice(&bytes)?;
    Ok(())
}

/// Appends an SByte (OPC 10000-6, 5.2.2.2).
pub fn write_sbyte(value: i8, to: &mut Vec<u8>) -> Result<(), OutOfMemory>
    ensures ok { OnOk result (to.new.items ≡ to.old.items ++ written_signed 1 w8 value) }
    ensures unchanged { OnErr result (to.new.items ≡ to.old.items) }
{
    write_byte(value.cast_unsigned(), to)
}

/// Appends an Int16 (OPC 10000-6, 5.2.2.2).
pub fn write_int16(value: i16, to: &mut Vec<u8>) -> Result<(), OutOfMemory>
    ensures ok { OnOk result (to.new.items ≡ to.old.items ++ written_signed 2 w16 value) }
    ensures unchanged { OnErr result (to.new.items ≡ to.old.items) }
{
    write_uint16(value.cast_unsigned(), to)
}

/// Appends an Int32 (OPC 10000-6, 5.2.2.2).
pub fn write_int32(value: i32, to: &mut Vec<u8>) -> Result<(), OutOfMemory>
    ensures ok { OnOk result (to.new.items ≡ to.old.items ++ written_signed 4 w32 value) }
    ensures unchanged { OnErr result (to.new.items ≡ to.old.items) }
{
    write_uint32(value.cast_unsigned(), to)
}

/// Appends an Int64 (OPC 10000-6, 5.2.2.2).
pub fn write_int64(value: i64, to: &mut Vec<u8>) -> Result<(), OutOfMemory>
    ensures ok { OnOk result (to.new.items ≡ to.old.items ++ written_signed 8 w64 value) }
    ensures unchanged { OnErr result (to.new.items ≡ to.old.items) }
{
    write_uint64(value.cast_unsigned(), to)
}

/// Appends a Boolean: 1 for true (OPC 10000-6, 5.2.2.1).
pub fn write_boolean(value: bool, to: &mut Vec<u8>) -> Result<(), OutOfMemory>
    ensures ok { OnOk result (to.new.items ≡ to.old.items ++ written_boolean value) }
    ensures unchanged { OnErr result (to.new.items ≡ to.old.items) }
{
    write_byte(u8::from(value), to)
}

/// Appends a Float of these bits (OPC 10000-6, 5.2.2.3).
pub fn write_float(value: u32, to: &mut Vec<u8>) -> Result<(), OutOfMemory>
    ensures ok { OnOk result (to.new.items ≡ to.old.items ++ little_bytes 4 value) }
    ensures unchanged { OnErr result (to.new.items ≡ to.old.items) }
{
    write_uint32(value, to)
}

/// Appends a Double of these bits (OPC 10000-6, 5.2.2.3).
pub fn write_double(value: u64, to: &mut Vec<u8>) -> Result<(), OutOfMemory>
    ensures ok { OnOk result (to.new.items ≡ to.old.items ++ little_bytes 8 value) }
    ensures unchanged { OnErr result (to.new.items ≡ to.old.items) }
{
    write_uint64(value, to)
}

/// Appends a DateTime, in 100 nanoseconds since 1601-01-01 UTC (OPC 10000-6, 5.2.2.5).
pub fn write_date_time(value: i64, to: &mut Vec<u8>) -> Result<(), OutOfMemory>
    ensures ok { OnOk result (to.new.items ≡ to.old.items ++ written_signed 8 w64 value) }
    ensures unchanged { OnErr result (to.new.items ≡ to.old.items) }
{
    write_int64(value, to)
}

/// Appends a StatusCode (OPC 10000-6, 5.2.2.11).
pub fn write_status_code(value: u32, to: &mut Vec<u8>) -> Result<(), OutOfMemory>
    ensures ok { OnOk result (to.new.items ≡ to.old.items ++ little_bytes 4 value) }
    ensures unchanged { OnErr result (to.new.items ≡ to.old.items) }
{
    write_uint32(value, to)
}

/// Appends a Guid (OPC 10000-6, 5.2.2.6).
pub fn write_guid(value: Uuid, to: &mut Vec<u8>) -> Result<(), OutOfMemory>
    ensures ok { OnOk result (to.new.items ≡ to.old.items ++ written_guid value) }
    ensures unchanged { OnErr result (to.new.items ≡ to.old.items) }
{
    to.extend_from_slice(&value.to_bytes_le())?;
    Ok(())
}

/// The length -1.
const NULL_LENGTH: u32 = u32::MAX;

/// A length, and the bytes.
fn write_counted(run: Option<&[u8]>, to: &mut Vec<u8>) -> Result<(), OutOfMemory>
    ensures ok { OnOk result (to.new.items ≡ to.old.items ++ written_text (option_copied run.entry)) }
    ensures unchanged { OnErr result (to.new.items ≡ to.old.items) }
{
    let Some(run) = run else {
        return write_uint32(NULL_LENGTH, to);
    };
    let mut length = [0; 4];
    LittleEndian::write_u32(&mut length, (run.len() & 0xFFFF_FFFF) as u32);
    to.reserve(4 + run.len())?;
    to.extend_from_slice(&length)?;
    to.extend_from_slice(run)?;
    Ok(())
}

/// Appends a String (OPC 10000-6, 5.2.2.4).
pub fn write_string(value: &UaText, to: &mut Vec<u8>) -> Result<(), OutOfMemory>
    ensures ok { OnOk result (to.new.items ≡ to.old.items ++ written_text value.now) }
    ensures unchanged { OnErr result (to.new.items ≡ to.old.items) }
{
    write_counted(value.bytes(), to)
}

/// Appends an XmlElement (OPC 10000-6, 5.2.2.8).
pub fn write_xml_element(value: &UaText, to: &mut Vec<u8>) -> Result<(), OutOfMemory>
    ensures ok { OnOk result (to.new.items ≡ to.old.items ++ written_text value.now) }
    ensures unchanged { OnErr result (to.new.items ≡ to.old.items) }
{
    write_counted(value.bytes(), to)
}

/// Appends a ByteString (OPC 10000-6, 5.2.2.7).
pub fn write_byte_string(value: &UaBytes, to: &mut Vec<u8>) -> Result<(), OutOfMemory>
    ensures ok { OnOk result (to.new.items ≡ to.old.items ++ written_text value.now) }
    ensures unchanged { OnErr result (to.new.items ≡ to.old.items) }
{
    write_counted(value.bytes(), to)
}

/// Appends bytes that were built apart, so that want of memory leaves the list as it was.
pub fn append(built: &[u8], to: &mut Vec<u8>) -> Result<(), OutOfMemory>
    ensures ok { OnOk result (to.new.items ≡ to.old.items ++ built.now) }
    ensures unchanged { OnErr result (to.new.items ≡ to.old.items) }
{
    to.extend_from_slice(built)?;
    Ok(())
}

/// The number of a NodeId, in the shortest form.
fn put_number(namespace: u16, id: u32, to: &mut Vec<u8>) -> Result<(), OutOfMemory>
    ensures { OnOk result (to.new.items ≡ to.old.items ++ written_number (shortest_number namespace id) namespace id) }
{
    match Form::of_number(namespace, id) {
        Form::TwoByte => write_byte(id as u8, to),
        Form::FourByte => {
            write_byte(namespace as u8, to)?;
            write_uint16(id as u16, to)
        }
        _ => {
            write_uint16(namespace, to)?;
            write_uint32(id, to)
        }
    }
}

/// What stands after a NodeId's form.
fn put_form(node: &NodeId, to: &mut Vec<u8>) -> Result<(), OutOfMemory>
    ensures { OnOk result (to.new.items ≡ to.old.items ++ written_form node.now) }
{
    match node {
        NodeId::Numeric { namespace, id } => put_number(*namespace, *id, to),
        NodeId::Text { namespace, id } => {
            write_uint16(*namespace, to)?;
            write_string(id, to)
        }
        NodeId::Guid { namespace, id } => {
            write_uint16(*namespace, to)?;
            write_guid(*id, to)
        }
        NodeId::Opaque { namespace, id } => {
            write_uint16(*namespace, to)?;
            write_byte_string(id, to)
        }
    }
}

/// Appends a NodeId as `write_node_id` does, but for want of memory, which leaves what was appended
/// by then: for a writer that builds apart.
pub fn put_node_id(value: &NodeId, to: &mut Vec<u8>) -> Result<(), OutOfMemory>
    ensures { OnOk result (to.new.items ≡ to.old.items ++ written_node value.now) }
{
    write_byte(Form::shortest(value).byte(), to)?;
    put_form(value, to)
}

/// Appends a NodeId in the shortest form that holds it (OPC 10000-6, 5.2.2.9).
pub fn write_node_id(value: &NodeId, to: &mut Vec<u8>) -> Result<(), OutOfMemory>
    ensures ok { OnOk result (to.new.items ≡ to.old.items ++ written_node value.now) }
    ensures unchanged { OnErr result (to.new.items ≡ to.old.items) }
{
    let mut built = Vec::new(*to.allocator());
    put_node_id(value, &mut built)?;
    append(&built, to)
}

/// A text, where it is not null.
fn put_unless_null(value: &UaText, to: &mut Vec<u8>) -> Result<(), OutOfMemory>
    ensures { OnOk result (to.new.items ≡ to.old.items ++ unless_null value.now) }
{
    if value.is_null() {
        return Ok(());
    }
    write_string(value, to)
}

/// A UInt32, where it is not 0.
fn put_unless_zero(value: u32, to: &mut Vec<u8>) -> Result<(), OutOfMemory>
    ensures { OnOk result (to.new.items ≡ to.old.items ++ unless_zero value) }
{
    if value == 0 {
        return Ok(());
    }
    write_uint32(value, to)
}

/// What a mask's bit is worth where its field is there.
pub fn flag(worth: u8, is_there: bool) -> u8
    ensures { result ≡ flag worth is_there }
{
    if is_there { worth } else { 0 }
}

/// The first byte of an ExpandedNodeId.
fn head_byte(value: &ExpandedNodeId) -> u8
    ensures { result ≡ written_head value.now }
{
    Form::shortest(&value.node).byte()
        + flag(128, !value.uri.is_null())
        + flag(64, value.server != 0)
}

/// The mask of a LocalizedText.
fn mask(value: &LocalizedText) -> u8
    ensures { result ≡ written_mask value.now }
{
    flag(1, !value.locale.is_null()) + flag(2, !value.text.is_null())
}

/// Appends an ExpandedNodeId as `write_expanded_node_id` does, but for want of memory, which leaves what was appended
/// by then: for a writer that builds apart.
pub fn put_expanded_node_id(value: &ExpandedNodeId, to: &mut Vec<u8>) -> Result<(), OutOfMemory>
    ensures { OnOk result (to.new.items ≡ to.old.items ++ written_expanded value.now) }
{
    write_byte(head_byte(value), to)?;
    put_form(&value.node, to)?;
    put_unless_null(&value.uri, to)?;
    put_unless_zero(value.server, to)
}

/// Appends an ExpandedNodeId (OPC 10000-6, 5.2.2.10).
pub fn write_expanded_node_id(value: &ExpandedNodeId, to: &mut Vec<u8>) -> Result<(), OutOfMemory>
    ensures ok { OnOk result (to.new.items ≡ to.old.items ++ written_expanded value.now) }
    ensures unchanged { OnErr result (to.new.items ≡ to.old.items) }
{
    let mut built = Vec::new(*to.allocator());
    put_expanded_node_id(value, &mut built)?;
    append(&built, to)
}

/// Appends a QualifiedName as `write_qualified_name` does, but for want of memory, which leaves what was appended
/// by then: for a writer that builds apart.
pub fn put_qualified_name(value: &QualifiedName, to: &mut Vec<u8>) -> Result<(), OutOfMemory>
    ensures { OnOk result (to.new.items ≡ to.old.items ++ written_qualified value.now) }
{
    write_uint16(value.namespace, to)?;
    write_string(&value.name, to)
}

/// Appends a QualifiedName (OPC 10000-6, 5.2.2.13).
pub fn write_qualified_name(value: &QualifiedName, to: &mut Vec<u8>) -> Result<(), OutOfMemory>
    ensures ok { OnOk result (to.new.items ≡ to.old.items ++ written_qualified value.now) }
    ensures unchanged { OnErr result (to.new.items ≡ to.old.items) }
{
    let mut built = Vec::new(*to.allocator());
    put_qualified_name(value, &mut built)?;
    append(&built, to)
}

/// Appends a LocalizedText as `write_localized_text` does, but for want of memory, which leaves what was appended
/// by then: for a writer that builds apart.
pub fn put_localized_text(value: &LocalizedText, to: &mut Vec<u8>) -> Result<(), OutOfMemory>
    ensures { OnOk result (to.new.items ≡ to.old.items ++ written_localized value.now) }
{
    write_byte(mask(value), to)?;
    put_unless_null(&value.locale, to)?;
    put_unless_null(&value.text, to)
}

/// Appends a LocalizedText (OPC 10000-6, 5.2.2.14).
pub fn write_localized_text(value: &LocalizedText, to: &mut Vec<u8>) -> Result<(), OutOfMemory>
    ensures ok { OnOk result (to.new.items ≡ to.old.items ++ written_localized value.now) }
    ensures unchanged { OnErr result (to.new.items ≡ to.old.items) }
{
    let mut built = Vec::new(*to.allocator());
    put_localized_text(value, &mut built)?;
    append(&built, to)
}

/// The body of an ExtensionObject, behind the byte that says how it stands.
fn put_extension_body(body: &ExtensionBody, to: &mut Vec<u8>) -> Result<(), OutOfMemory>
    ensures { OnOk result (to.new.items ≡ to.old.items ++ written_body body.now) }
{
    match body {
        ExtensionBody::Absent => write_byte(0, to),
        ExtensionBody::Binary(bytes) => {
            write_byte(1, to)?;
            write_byte_string(bytes, to)
        }
        ExtensionBody::Xml(text) => {
            write_byte(2, to)?;
            write_xml_element(text, to)
        }
    }
}

/// Appends an ExtensionObject as `write_extension_object` does, but for want of memory, which leaves what was appended
/// by then: for a writer that builds apart.
pub fn put_extension_object(value: &ExtensionObject, to: &mut Vec<u8>) -> Result<(), OutOfMemory>
    ensures { OnOk result (to.new.items ≡ to.old.items ++ written_extension value.now) }
{
    put_node_id(&value.type_id, to)?;
    put_extension_body(&value.body, to)
}

/// Appends an ExtensionObject (OPC 10000-6, 5.2.2.15).
pub fn write_extension_object(value: &ExtensionObject, to: &mut Vec<u8>) -> Result<(), OutOfMemory>
    ensures ok { OnOk result (to.new.items ≡ to.old.items ++ written_extension value.now) }
    ensures unchanged { OnErr result (to.new.items ≡ to.old.items) }
{
    let mut built = Vec::new(*to.allocator());
    put_extension_object(value, &mut built)?;
    append(&built, to)
}
