use crate::fields::{put_fields, read_fields};
use std::alloc::Global;
use ua_base::OutOfMemory;
use ua_values::{Cursor, Element, NodeId, QualifiedName, UaText, ValueFault};

/// One attribute of a node, to be read or monitored (OPC 10000-4, 7.24).
#[derive(Debug, Drop)]
pub struct ReadValueId {
    pub node_id: NodeId,
    pub attribute_id: u32,
    pub index_range: UaText,
    pub data_encoding: QualifiedName,
}

#[tactic(auto, unfolding(crate::specs::Structures::a_read_value_id))]
impl Element for ReadValueId {
    ghost use Rattle.ua_structures.specs.Structures.{a_read_value_id};

    ghost at = { a_read_value_id.at };

    ghost written = { a_read_value_id.written };

    fn read(alloc: Global, from: &mut Cursor<'_>) -> Result<ReadValueId, ValueFault> {
        read_fields!(alloc, from => node_id, attribute_id, index_range, data_encoding)
    }

    fn put(&self, to: &mut Vec<u8>) -> Result<(), OutOfMemory> {
        put_fields!(self, to => node_id, attribute_id, index_range, data_encoding)
    }
}
