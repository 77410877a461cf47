//! The built-in types of OPC UA as bytes, both ways.
#![tactic(auto)]

mod array;
mod cursor;
mod element;
mod extension;
mod fault;
mod laws;
mod names;
mod node;
mod reading;
mod run;
mod writing;

pub use array::{Element, put_array, read_array, read_array_within};
pub use cursor::Cursor;
pub use extension::{ExtensionBody, ExtensionObject};
pub use fault::{MOST_BYTES, MOST_ITEMS, ValueFault};
pub use laws::{
    booleans_are_lawful, expanded_node_ids_are_lawful, extension_objects_are_lawful,
    guids_are_lawful, localized_texts_are_lawful, node_ids_are_lawful, numbers_are_lawful,
    qualified_names_are_lawful, signed_numbers_are_lawful, text_arrays_are_lawful,
    texts_are_lawful,
};
pub use names::{LocalizedText, QualifiedName};
pub use node::{ExpandedNodeId, NodeId, has_bit};
pub use reading::{
    read_boolean, read_byte, read_byte_string, read_date_time, read_double, read_expanded_node_id,
    read_extension_object, read_float, read_guid, read_int16, read_int32, read_int64,
    read_localized_text, read_node_id, read_qualified_name, read_sbyte, read_status_code,
    read_string, read_uint16, read_uint32, read_uint64, read_xml_element,
};
pub use run::{UaBytes, UaText};
pub use writing::{
    append, flag, put_expanded_node_id, put_extension_object, put_localized_text, put_node_id,
    put_qualified_name, write_boolean, write_byte, write_byte_string, write_date_time,
    write_double, write_expanded_node_id, write_extension_object, write_float, write_guid,
    write_int16, write_int32, write_int64, write_localized_text, write_node_id,
    write_qualified_name, write_sbyte, write_status_code, write_string, write_uint16, write_uint32,
    write_uint64, write_xml_element,
};
