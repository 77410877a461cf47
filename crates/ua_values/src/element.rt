//! The built-in types without nesting as elements of arrays.

ghost use Rattle.std.specs.Int.{w8, w16, w32, w64};
ghost use Rattle.byteorder.specs.Endian.{little_bytes};
ghost use Rattle.ua_values.specs.Reading.{number_at};
ghost use Rattle.ua_values.specs.Readers.{boolean_at, signed_at, guid_at, text_at, node_at, expanded_at, qualified_at, localized_at, extension_at};
ghost use Rattle.ua_values.specs.Written.{written_boolean, written_signed, written_guid, written_text, written_node, written_expanded, written_qualified, written_localized, written_extension};

use crate::array::Element;
use crate::cursor::Cursor;
use crate::extension::ExtensionObject;
use crate::fault::ValueFault;
use crate::names::{LocalizedText, QualifiedName};
use crate::node::{ExpandedNodeId, NodeId};
use crate::run::{UaBytes, UaText};
use crate::writing::{
    put_expanded_node_id, put_extension_object, put_localized_text, put_node_id,
    put_qualified_name, write_boolean, write_byte, write_byte_string, write_guid, write_int16,
    write_int32, write_int64, write_sbyte, write_string, write_uint16, write_uint32, write_uint64,
};
use std::alloc::Global;
use ua_base::OutOfMemory;
use uuid::Uuid;

impl Element for bool {
    ghost at = { boolean_at };

    ghost written = { written_boolean };

    fn read(_alloc: Global, from: &mut Cursor<'_>) -> Result<bool, ValueFault> {
        from.boolean()
    }

    fn put(&self, to: &mut Vec<u8>) -> Result<(), OutOfMemory> {
        write_boolean(*self, to)
    }
}

impl Element for i8 {
    ghost at = { signed_at 1 w8 };

    ghost written = { written_signed 1 w8 };

    fn read(_alloc: Global, from: &mut Cursor<'_>) -> Result<i8, ValueFault> {
        from.sbyte()
    }

    fn put(&self, to: &mut Vec<u8>) -> Result<(), OutOfMemory> {
        write_sbyte(*self, to)
    }
}

impl Element for u8 {
    ghost at = { number_at 1 };

    ghost written = { little_bytes 1 };

    fn read(_alloc: Global, from: &mut Cursor<'_>) -> Result<u8, ValueFault> {
        from.byte()
    }

    fn put(&self, to: &mut Vec<u8>) -> Result<(), OutOfMemory> {
        write_byte(*self, to)
    }
}

impl Element for i16 {
    ghost at = { signed_at 2 w16 };

    ghost written = { written_signed 2 w16 };

    fn read(_alloc: Global, from: &mut Cursor<'_>) -> Result<i16, ValueFault> {
        from.int16()
    }

    fn put(&self, to: &mut Vec<u8>) -> Result<(), OutOfMemory> {
        write_int16(*self, to)
    }
}

impl Element for u16 {
    ghost at = { number_at 2 };

    ghost written = { little_bytes 2 };

    fn read(_alloc: Global, from: &mut Cursor<'_>) -> Result<u16, ValueFault> {
        from.uint16()
    }

    fn put(&self, to: &mut Vec<u8>) -> Result<(), OutOfMemory> {
        write_uint16(*self, to)
    }
}

impl Element for i32 {
    ghost at = { signed_at 4 w32 };

    ghost written = { written_signed 4 w32 };

    fn read(_alloc: Global, from: &mut Cursor<'_>) -> Result<i32, ValueFault> {
        from.int32()
    }

    fn put(&self, to: &mut Vec<u8>) -> Result<(), OutOfMemory> {
        write_int32(*self, to)
    }
}

impl Element for u32 {
    ghost at = { number_at 4 };

    ghost written = { little_bytes 4 };

    fn read(_alloc: Global, from: &mut Cursor<'_>) -> Result<u32, ValueFault> {
        from.uint32()
    }

    fn put(&self, to: &mut Vec<u8>) -> Result<(), OutOfMemory> {
        write_uint32(*self, to)
    }
}

impl Element for i64 {
    ghost at = { signed_at 8 w64 };

    ghost written = { written_signed 8 w64 };

    fn read(_alloc: Global, from: &mut Cursor<'_>) -> Result<i64, ValueFault> {
        from.int64()
    }

    fn put(&self, to: &mut Vec<u8>) -> Result<(), OutOfMemory> {
        write_int64(*self, to)
    }
}

impl Element for u64 {
    ghost at = { number_at 8 };

    ghost written = { little_bytes 8 };

    fn read(_alloc: Global, from: &mut Cursor<'_>) -> Result<u64, ValueFault> {
        from.uint64()
    }

    fn put(&self, to: &mut Vec<u8>) -> Result<(), OutOfMemory> {
        write_uint64(*self, to)
    }
}

impl Element for Uuid {
    ghost at = { guid_at };

    ghost written = { written_guid };

    fn read(_alloc: Global, from: &mut Cursor<'_>) -> Result<Uuid, ValueFault> {
        from.guid()
    }

    fn put(&self, to: &mut Vec<u8>) -> Result<(), OutOfMemory> {
        write_guid(*self, to)
    }
}

impl Element for UaText {
    ghost at = { text_at };

    ghost written = { written_text };

    fn read(alloc: Global, from: &mut Cursor<'_>) -> Result<UaText, ValueFault> {
        from.text(alloc)
    }

    fn put(&self, to: &mut Vec<u8>) -> Result<(), OutOfMemory> {
        write_string(self, to)
    }
}

impl Element for UaBytes {
    ghost at = { text_at };

    ghost written = { written_text };

    fn read(alloc: Global, from: &mut Cursor<'_>) -> Result<UaBytes, ValueFault> {
        from.byte_string(alloc)
    }

    fn put(&self, to: &mut Vec<u8>) -> Result<(), OutOfMemory> {
        write_byte_string(self, to)
    }
}

impl Element for NodeId {
    ghost at = { node_at };

    ghost written = { written_node };

    fn read(alloc: Global, from: &mut Cursor<'_>) -> Result<NodeId, ValueFault> {
        from.node_id(alloc)
    }

    fn put(&self, to: &mut Vec<u8>) -> Result<(), OutOfMemory> {
        put_node_id(self, to)
    }
}

impl Element for ExpandedNodeId {
    ghost at = { expanded_at };

    ghost written = { written_expanded };

    fn read(alloc: Global, from: &mut Cursor<'_>) -> Result<ExpandedNodeId, ValueFault> {
        from.expanded_node_id(alloc)
    }

    fn put(&self, to: &mut Vec<u8>) -> Result<(), OutOfMemory> {
        put_expanded_node_id(self, to)
    }
}

impl Element for QualifiedName {
    ghost at = { qualified_at };

    ghost written = { written_qualified };

    fn read(alloc: Global, from: &mut Cursor<'_>) -> Result<QualifiedName, ValueFault> {
        from.qualified_name(alloc)
    }

    fn put(&self, to: &mut Vec<u8>) -> Result<(), OutOfMemory> {
        put_qualified_name(self, to)
    }
}

impl Element for LocalizedText {
    ghost at = { localized_at };

    ghost written = { written_localized };

    fn read(alloc: Global, from: &mut Cursor<'_>) -> Result<LocalizedText, ValueFault> {
        from.localized_text(alloc)
    }

    fn put(&self, to: &mut Vec<u8>) -> Result<(), OutOfMemory> {
        put_localized_text(self, to)
    }
}

impl Element for ExtensionObject {
    ghost at = { extension_at };

    ghost written = { written_extension };

    fn read(alloc: Global, from: &mut Cursor<'_>) -> Result<ExtensionObject, ValueFault> {
        from.extension_object(alloc)
    }

    fn put(&self, to: &mut Vec<u8>) -> Result<(), OutOfMemory> {
        put_extension_object(self, to)
    }
}
