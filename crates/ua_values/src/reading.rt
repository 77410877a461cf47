ghost use Rattle.std.specs.Int.{w8, w16, w32, w64};
ghost use Rattle.ua_values.specs.Reading.{input, Gives, TakesNoMemory, sized, number_at};
ghost use Rattle.ua_values.specs.Readers.{boolean_at, signed_at, guid_at, text_at, node_at, expanded_at, qualified_at, localized_at, extension_at};
ghost use Rattle.ua_values.specs.Parts.{number, text};
ghost use Rattle.ua_values.specs.Types.{boolean, signed, guid, node_id, expanded_node_id, qualified_name, localized_text, extension_object};
ghost use Rattle.ua_values.specs.Answer.{IsRead};

use crate::cursor::Cursor;
use crate::extension::ExtensionObject;
use crate::fault::ValueFault;
use crate::names::{LocalizedText, QualifiedName};
use crate::node::{ExpandedNodeId, NodeId};
use crate::run::{UaBytes, UaText};
use std::alloc::Global;
use uuid::Uuid;

/// Reads a Boolean (OPC 10000-6, 5.2.2.1) at the front of the bytes: the value, and how many bytes it takes.
pub fn read_boolean(bytes: &[u8]) -> Result<(bool, usize), ValueFault>
    ensures exact { Gives result (sized (boolean_at (input 0 bytes.now))) }
    ensures spelled { IsRead boolean bytes.now result }
    ensures memory { TakesNoMemory result }
{
    let mut from = Cursor::new(bytes);
    let value = from.boolean();
    from.sized(value)
}

/// Reads an SByte (OPC 10000-6, 5.2.2.2) at the front of the bytes: the value, and how many bytes it takes.
pub fn read_sbyte(bytes: &[u8]) -> Result<(i8, usize), ValueFault>
    ensures exact { Gives result (sized (signed_at 1 w8 (input 0 bytes.now))) }
    ensures spelled { IsRead (signed 1 w8) bytes.now result }
    ensures memory { TakesNoMemory result }
{
    let mut from = Cursor::new(bytes);
    let value = from.sbyte();
    from.sized(value)
}

/// Reads a Byte (OPC 10000-6, 5.2.2.2) at the front of the bytes: the value, and how many bytes it takes.
pub fn read_byte(bytes: &[u8]) -> Result<(u8, usize), ValueFault>
    ensures exact { Gives result (sized (number_at 1 (input 0 bytes.now))) }
    ensures spelled { IsRead (number 1) bytes.now result }
    ensures memory { TakesNoMemory result }
{
    let mut from = Cursor::new(bytes);
    let value = from.byte();
    from.sized(value)
}

/// Reads an Int16 (OPC 10000-6, 5.2.2.2) at the front of the bytes: the value, and how many bytes it takes.
pub fn read_int16(bytes: &[u8]) -> Result<(i16, usize), ValueFault>
    ensures exact { Gives result (sized (signed_at 2 w16 (input 0 bytes.now))) }
    ensures spelled { IsRead (signed 2 w16) bytes.now result }
    ensures memory { TakesNoMemory result }
{
    let mut from = Cursor::new(bytes);
    let value = from.int16();
    from.sized(value)
}

/// Reads a UInt16 (OPC 10000-6, 5.2.2.2) at the front of the bytes: the value, and how many bytes it takes.
pub fn read_uint16(bytes: &[u8]) -> Result<(u16, usize), ValueFault>
    ensures exact { Gives result (sized (number_at 2 (input 0 bytes.now))) }
    ensures spelled { IsRead (number 2) bytes.now result }
    ensures memory { TakesNoMemory result }
{
    let mut from = Cursor::new(bytes);
    let value = from.uint16();
    from.sized(value)
}

/// Reads an Int32 (OPC 10000-6, 5.2.2.2) at the front of the bytes: the value, and how many bytes it takes.
pub fn read_int32(bytes: &[u8]) -> Result<(i32, usize), ValueFault>
    ensures exact { Gives result (sized (signed_at 4 w32 (input 0 bytes.now))) }
    ensures spelled { IsRead (signed 4 w32) bytes.now result }
    ensures memory { TakesNoMemory result }
{
    let mut from = Cursor::new(bytes);
    let value = from.int32();
    from.sized(value)
}

/// Reads a UInt32 (OPC 10000-6, 5.2.2.2) at the front of the bytes: the value, and how many bytes it takes.
pub fn read_uint32(bytes: &[u8]) -> Result<(u32, usize), ValueFault>
    ensures exact { Gives result (sized (number_at 4 (input 0 bytes.now))) }
    ensures spelled { IsRead (number 4) bytes.now result }
    ensures memory { TakesNoMemory result }
{
    let mut from = Cursor::new(bytes);
    let value = from.uint32();
    from.sized(value)
}

/// Reads an Int64 (OPC 10000-6, 5.2.2.2) at the front of the bytes: the value, and how many bytes it takes.
pub fn read_int64(bytes: &[u8]) -> Result<(i64, usize), ValueFault>
    ensures exact { Gives result (sized (signed_at 8 w64 (input 0 bytes.now))) }
    ensures spelled { IsRead (signed 8 w64) bytes.now result }
    ensures memory { TakesNoMemory result }
{
    let mut from = Cursor::new(bytes);
    let value = from.int64();
    from.sized(value)
}

/// Reads a UInt64 (OPC 10000-6, 5.2.2.2) at the front of the bytes: the value, and how many bytes it takes.
pub fn read_uint64(bytes: &[u8]) -> Result<(u64, usize), ValueFault>
    ensures exact { Gives result (sized (number_at 8 (input 0 bytes.now))) }
    ensures spelled { IsRead (number 8) bytes.now result }
    ensures memory { TakesNoMemory result }
{
    let mut from = Cursor::new(bytes);
    let value = from.uint64();
    from.sized(value)
}

/// Reads the bits of a Float (OPC 10000-6, 5.2.2.3) at the front of the bytes: the value, and how many bytes it takes.
pub fn read_float(bytes: &[u8]) -> Result<(u32, usize), ValueFault>
    ensures exact { Gives result (sized (number_at 4 (input 0 bytes.now))) }
    ensures spelled { IsRead (number 4) bytes.now result }
    ensures memory { TakesNoMemory result }
{
    let mut from = Cursor::new(bytes);
    let value = from.uint32();
    from.sized(value)
}

/// Reads the bits of a Double (OPC 10000-6, 5.2.2.3) at the front of the bytes: the value, and how many bytes it takes.
pub fn read_double(bytes: &[u8]) -> Result<(u64, usize), ValueFault>
    ensures exact { Gives result (sized (number_at 8 (input 0 bytes.now))) }
    ensures spelled { IsRead (number 8) bytes.now result }
    ensures memory { TakesNoMemory result }
{
    let mut from = Cursor::new(bytes);
    let value = from.uint64();
    from.sized(value)
}

/// Reads a DateTime, in 100 nanoseconds since 1601-01-01 UTC (OPC 10000-6, 5.2.2.5) at the front of the bytes: the
/// value, and how many bytes it takes.
pub fn read_date_time(bytes: &[u8]) -> Result<(i64, usize), ValueFault>
    ensures exact { Gives result (sized (signed_at 8 w64 (input 0 bytes.now))) }
    ensures spelled { IsRead (signed 8 w64) bytes.now result }
    ensures memory { TakesNoMemory result }
{
    let mut from = Cursor::new(bytes);
    let value = from.int64();
    from.sized(value)
}

/// Reads a StatusCode (OPC 10000-6, 5.2.2.11) at the front of the bytes: the value, and how many bytes it takes.
pub fn read_status_code(bytes: &[u8]) -> Result<(u32, usize), ValueFault>
    ensures exact { Gives result (sized (number_at 4 (input 0 bytes.now))) }
    ensures spelled { IsRead (number 4) bytes.now result }
    ensures memory { TakesNoMemory result }
{
    let mut from = Cursor::new(bytes);
    let value = from.uint32();
    from.sized(value)
}

/// Reads a Guid (OPC 10000-6, 5.2.2.6) at the front of the bytes: the value, and how many bytes it takes.
pub fn read_guid(bytes: &[u8]) -> Result<(Uuid, usize), ValueFault>
    ensures exact { Gives result (sized (guid_at (input 0 bytes.now))) }
    ensures spelled { IsRead guid bytes.now result }
    ensures memory { TakesNoMemory result }
{
    let mut from = Cursor::new(bytes);
    let value = from.guid();
    from.sized(value)
}

/// Reads a String (OPC 10000-6, 5.2.2.4) at the front of the bytes: the value, and how many bytes it takes.
pub fn read_string(alloc: Global, bytes: &[u8]) -> Result<(UaText, usize), ValueFault>
    ensures exact { Gives result (sized (text_at (input 0 bytes.now))) }
    ensures spelled { IsRead text bytes.now result }
{
    let mut from = Cursor::new(bytes);
    let value = from.text(alloc);
    from.sized(value)
}

/// Reads an XmlElement (OPC 10000-6, 5.2.2.8) at the front of the bytes: the value, and how many bytes it takes.
pub fn read_xml_element(alloc: Global, bytes: &[u8]) -> Result<(UaText, usize), ValueFault>
    ensures exact { Gives result (sized (text_at (input 0 bytes.now))) }
    ensures spelled { IsRead text bytes.now result }
{
    let mut from = Cursor::new(bytes);
    let value = from.text(alloc);
    from.sized(value)
}

/// Reads a ByteString (OPC 10000-6, 5.2.2.7) at the front of the bytes: the value, and how many bytes it takes.
pub fn read_byte_string(alloc: Global, bytes: &[u8]) -> Result<(UaBytes, usize), ValueFault>
    ensures exact { Gives result (sized (text_at (input 0 bytes.now))) }
    ensures spelled { IsRead text bytes.now result }
{
    let mut from = Cursor::new(bytes);
    let value = from.byte_string(alloc);
    from.sized(value)
}

/// Reads a NodeId in any of its forms (OPC 10000-6, 5.2.2.9) at the front of the bytes: the value, and how many bytes
/// it takes.
pub fn read_node_id(alloc: Global, bytes: &[u8]) -> Result<(NodeId, usize), ValueFault>
    ensures exact { Gives result (sized (node_at (input 0 bytes.now))) }
    ensures spelled { IsRead node_id bytes.now result }
{
    let mut from = Cursor::new(bytes);
    let value = from.node_id(alloc);
    from.sized(value)
}

/// Reads an ExpandedNodeId (OPC 10000-6, 5.2.2.10) at the front of the bytes: the value, and how many bytes it takes.
pub fn read_expanded_node_id(
    alloc: Global,
    bytes: &[u8],
) -> Result<(ExpandedNodeId, usize), ValueFault>
    ensures exact { Gives result (sized (expanded_at (input 0 bytes.now))) }
    ensures spelled { IsRead expanded_node_id bytes.now result }
{
    let mut from = Cursor::new(bytes);
    let value = from.expanded_node_id(alloc);
    from.sized(value)
}

/// Reads a QualifiedName (OPC 10000-6, 5.2.2.13) at the front of the bytes: the value, and how many bytes it takes.
pub fn read_qualified_name(
    alloc: Global,
    bytes: &[u8],
) -> Result<(QualifiedName, usize), ValueFault>
    ensures exact { Gives result (sized (qualified_at (input 0 bytes.now))) }
    ensures spelled { IsRead qualified_name bytes.now result }
{
    let mut from = Cursor::new(bytes);
    let value = from.qualified_name(alloc);
    from.sized(value)
}

/// Reads a LocalizedText (OPC 10000-6, 5.2.2.14) at the front of the bytes: the value, and how many bytes it takes.
pub fn read_localized_text(
    alloc: Global,
    bytes: &[u8],
) -> Result<(LocalizedText, usize), ValueFault>
    ensures exact { Gives result (sized (localized_at (input 0 bytes.now))) }
    ensures spelled { IsRead localized_text bytes.now result }
{
    let mut from = Cursor::new(bytes);
    let value = from.localized_text(alloc);
    from.sized(value)
}

/// Reads an ExtensionObject (OPC 10000-6, 5.2.2.15) at the front of the bytes: the value, and how many bytes it takes.
pub fn read_extension_object(
    alloc: Global,
    bytes: &[u8],
) -> Result<(ExtensionObject, usize), ValueFault>
    ensures exact { Gives result (sized (extension_at (input 0 bytes.now))) }
    ensures spelled { IsRead extension_object bytes.now result }
{
    let mut from = Cursor::new(bytes);
    let value = from.extension_object(alloc);
    from.sized(value)
}
