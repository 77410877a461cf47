//! The built-in types that are texts, names and structures.

use crate::types::{Copied, Type, tell_copy, tell_type};
use rows::{Kind, Stop, Verb};
use std::alloc::Global;
use ua_base::OutOfMemory;
use ua_values::{
    ExpandedNodeId, ExtensionObject, LocalizedText, NodeId, QualifiedName, UaBytes, UaText,
    ValueFault, read_byte_string, read_expanded_node_id, read_extension_object,
    read_localized_text, read_node_id, read_qualified_name, read_string, read_xml_element,
    write_byte_string, write_expanded_node_id, write_extension_object, write_localized_text,
    write_node_id, write_qualified_name, write_string, write_xml_element,
};

struct Strings;

impl Kind for Strings {
    type Value = UaText;

    fn write(_alloc: Global, value: &UaText, to: &mut Vec<u8>) -> Result<(), OutOfMemory> {
        write_string(value, to)
    }
}

impl Type for Strings {
    fn read(alloc: Global, bytes: &[u8]) -> Result<(UaText, usize), ValueFault> {
        read_string(alloc, bytes)
    }
}

struct ByteStrings;

impl Kind for ByteStrings {
    type Value = UaBytes;

    fn write(_alloc: Global, value: &UaBytes, to: &mut Vec<u8>) -> Result<(), OutOfMemory> {
        write_byte_string(value, to)
    }
}

impl Type for ByteStrings {
    fn read(alloc: Global, bytes: &[u8]) -> Result<(UaBytes, usize), ValueFault> {
        read_byte_string(alloc, bytes)
    }
}

struct XmlElements;

impl Kind for XmlElements {
    type Value = UaText;

    fn write(_alloc: Global, value: &UaText, to: &mut Vec<u8>) -> Result<(), OutOfMemory> {
        write_xml_element(value, to)
    }
}

impl Type for XmlElements {
    fn read(alloc: Global, bytes: &[u8]) -> Result<(UaText, usize), ValueFault> {
        read_xml_element(alloc, bytes)
    }
}

struct NodeIds;

impl Kind for NodeIds {
    type Value = NodeId;

    fn write(_alloc: Global, value: &NodeId, to: &mut Vec<u8>) -> Result<(), OutOfMemory> {
        write_node_id(value, to)
    }
}

impl Type for NodeIds {
    fn read(alloc: Global, bytes: &[u8]) -> Result<(NodeId, usize), ValueFault> {
        read_node_id(alloc, bytes)
    }
}

struct ExpandedNodeIds;

impl Kind for ExpandedNodeIds {
    type Value = ExpandedNodeId;

    fn write(_alloc: Global, value: &ExpandedNodeId, to: &mut Vec<u8>) -> Result<(), OutOfMemory> {
        write_expanded_node_id(value, to)
    }
}

impl Type for ExpandedNodeIds {
    fn read(alloc: Global, bytes: &[u8]) -> Result<(ExpandedNodeId, usize), ValueFault> {
        read_expanded_node_id(alloc, bytes)
    }
}

struct QualifiedNames;

impl Kind for QualifiedNames {
    type Value = QualifiedName;

    fn write(_alloc: Global, value: &QualifiedName, to: &mut Vec<u8>) -> Result<(), OutOfMemory> {
        write_qualified_name(value, to)
    }
}

impl Type for QualifiedNames {
    fn read(alloc: Global, bytes: &[u8]) -> Result<(QualifiedName, usize), ValueFault> {
        read_qualified_name(alloc, bytes)
    }
}

struct LocalizedTexts;

impl Kind for LocalizedTexts {
    type Value = LocalizedText;

    fn write(_alloc: Global, value: &LocalizedText, to: &mut Vec<u8>) -> Result<(), OutOfMemory> {
        write_localized_text(value, to)
    }
}

impl Type for LocalizedTexts {
    fn read(alloc: Global, bytes: &[u8]) -> Result<(LocalizedText, usize), ValueFault> {
        read_localized_text(alloc, bytes)
    }
}

struct ExtensionObjects;

impl Kind for ExtensionObjects {
    type Value = ExtensionObject;

    fn write(_alloc: Global, value: &ExtensionObject, to: &mut Vec<u8>) -> Result<(), OutOfMemory> {
        write_extension_object(value, to)
    }
}

impl Type for ExtensionObjects {
    fn read(alloc: Global, bytes: &[u8]) -> Result<(ExtensionObject, usize), ValueFault> {
        read_extension_object(alloc, bytes)
    }
}

impl Copied for Strings {
    fn copy(alloc: Global, value: &UaText) -> Result<UaText, OutOfMemory> {
        value.copy(alloc)
    }
}

impl Copied for ByteStrings {
    fn copy(alloc: Global, value: &UaBytes) -> Result<UaBytes, OutOfMemory> {
        value.copy(alloc)
    }
}

impl Copied for NodeIds {
    fn copy(alloc: Global, value: &NodeId) -> Result<NodeId, OutOfMemory> {
        value.copy(alloc)
    }
}

impl Copied for ExpandedNodeIds {
    fn copy(alloc: Global, value: &ExpandedNodeId) -> Result<ExpandedNodeId, OutOfMemory> {
        value.copy(alloc)
    }
}

impl Copied for QualifiedNames {
    fn copy(alloc: Global, value: &QualifiedName) -> Result<QualifiedName, OutOfMemory> {
        value.copy(alloc)
    }
}

impl Copied for LocalizedTexts {
    fn copy(alloc: Global, value: &LocalizedText) -> Result<LocalizedText, OutOfMemory> {
        value.copy(alloc)
    }
}

impl Copied for ExtensionObjects {
    fn copy(alloc: Global, value: &ExtensionObject) -> Result<ExtensionObject, OutOfMemory> {
        value.copy(alloc)
    }
}

/// Tells a text, a name or a structure of a type with this name.
pub(crate) fn tell_text(
    alloc: Global,
    verb: Verb,
    name: &str,
    bytes: &[u8],
    to: &mut String,
) -> Result<(), Stop> {
    match name {
        "String" => tell_type::<Strings>(alloc, verb, bytes, to),
        "ByteString" => tell_type::<ByteStrings>(alloc, verb, bytes, to),
        "XmlElement" => tell_type::<XmlElements>(alloc, verb, bytes, to),
        "NodeId" => tell_type::<NodeIds>(alloc, verb, bytes, to),
        "ExpandedNodeId" => tell_type::<ExpandedNodeIds>(alloc, verb, bytes, to),
        "QualifiedName" => tell_type::<QualifiedNames>(alloc, verb, bytes, to),
        "LocalizedText" => tell_type::<LocalizedTexts>(alloc, verb, bytes, to),
        "ExtensionObject" => tell_type::<ExtensionObjects>(alloc, verb, bytes, to),
        _ => Err(Stop::BadLine),
    }
}

/// Writes a copy of the value of a type with this name.
pub(crate) fn tell_copied(
    alloc: Global,
    name: &str,
    bytes: &[u8],
    to: &mut String,
) -> Result<(), Stop> {
    match name {
        "String" => tell_copy::<Strings>(alloc, bytes, to),
        "ByteString" => tell_copy::<ByteStrings>(alloc, bytes, to),
        "NodeId" => tell_copy::<NodeIds>(alloc, bytes, to),
        "ExpandedNodeId" => tell_copy::<ExpandedNodeIds>(alloc, bytes, to),
        "QualifiedName" => tell_copy::<QualifiedNames>(alloc, bytes, to),
        "LocalizedText" => tell_copy::<LocalizedTexts>(alloc, bytes, to),
        "ExtensionObject" => tell_copy::<ExtensionObjects>(alloc, bytes, to),
        _ => Err(Stop::BadLine),
    }
}
