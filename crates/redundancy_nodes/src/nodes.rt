ghost use Rattle.std.specs.Prelude.{◌≡◌, ◌↔◌, ℕ, List, Err, IfOk};
ghost use Rattle.redundancy_nodes.specs.declared.nodes.NodeFault.TheVariants as faults;
ghost use Rattle.redundancy_nodes.specs.Read.{Reads, Sends, checked, read_of};
ghost use Rattle.redundancy_nodes.specs.Values.{value_of};
ghost use Rattle.ua_variants.specs.Spelling.{written_data_value};

use crate::current::CurrentChanges;
use crate::member::Members;
use crate::node::Node;
use crate::texts;
use crate::values::{item_value, texts_value, timeless};
use std::alloc::Global;
use thiserror::Error;
use ua_base::OutOfMemory;
use ua_base::status::{BAD_ATTRIBUTE_ID_INVALID, BAD_NODE_ID_UNKNOWN};
use ua_values::{NodeId, UaText};
use ua_variants::{DataValue, Scalar, Variant};

/// The number of the attribute Value (OPC 10000-6, A.1), the only one that is read.
pub const VALUE: u32 = 13;

/// The ServerState of a server that runs (OPC 10000-5, 12.6).
const RUNNING: i32 = 0;

/// Why a node was not read.
#[derive(Clone, Copy, Debug, PartialEq, Eq, Error)]
pub enum NodeFault {
    /// The status code that answers in place of a value: Bad_NodeIdUnknown, or Bad_AttributeIdInvalid.
    #[error("status {0:08X}")]
    Code(u32),
    /// There is no memory for the value.
    #[error("out of memory")]
    OutOfMemory,
}

impl From<OutOfMemory> for NodeFault {
    ghost use Rattle.redundancy_nodes.specs.declared.nodes.NodeFault.TheVariants as faults;

    ghost from_gives = { λ _ fault. fault ≡ faults.OutOfMemory };

    fn from(_fault: OutOfMemory) -> NodeFault {
        NodeFault::OutOfMemory
    }
}

/// What the values of a server's nodes are made of.
#[derive(Debug, Drop)]
pub struct Nodes {
    /// The server's ApplicationUri.
    pub uri: UaText,
    /// The members of its set, itself among them.
    pub members: Members,
    /// RedundancySupport, by its number: 0 is None, 1 Cold, 2 Warm, 3 Hot, 4 Transparent, and 5 HotAndMirrored (OPC
    /// 10000-5, 12.5).
    pub support: u8,
    /// Its ServiceLevel (OPC 10000-4, 6.6.2.4.2).
    pub level: u8,
    /// When it started: a DateTime, in steps of 100 ns since 1601-01-01 (OPC 10000-6, 5.2.2.5).
    pub start: i64,
    /// What time it is, in the same steps.
    pub now: i64,
    /// How many items it has, numbered from 1.
    pub items: u8,
    /// The items' current values.
    pub current: CurrentChanges,
}

impl Nodes {
    /// The node of an id whose attribute is read, or the status code that answers.
    fn checked(&self, id: &NodeId, attribute: u32) -> Result<Node, u32>
        ensures { result ≡ checked self.entry.now.items id.now attribute }
    {
        let node = Node::of(self.items, id).ok_or(BAD_NODE_ID_UNKNOWN)?;
        if attribute != VALUE {
            return Err(BAD_ATTRIBUTE_ID_INVALID);
        }
        Ok(node)
    }
    /// The value of a node.
    fn value(&self, alloc: Global, node: Node) -> Result<DataValue, OutOfMemory>
        ensures { IfOk result (λ value. value ≡ value_of self.entry.now node) }
    {
        Ok(match node {
            Node::ServerArray => texts_value(texts::servers(alloc, &self.uri)?),
            Node::NamespaceArray => texts_value(texts::namespaces(alloc, &self.uri)?),
            Node::StartTime => timeless(Variant::Scalar(Scalar::DateTime(self.start))),
            Node::CurrentTime => timeless(Variant::Scalar(Scalar::DateTime(self.now))),
            Node::State => timeless(Variant::Scalar(Scalar::Int32(RUNNING))),
            Node::ServiceLevel => timeless(Variant::Scalar(Scalar::Byte(self.level))),
            Node::RedundancySupport => timeless(Variant::Scalar(Scalar::Int32(i32::from(
                self.support,
            )))),
            Node::ServerUriArray => texts_value(texts::uris(alloc, self.members.as_slice())?),
            Node::Item(item) => item_value(self.current.of_item(item)),
        })
    }

    /// The attribute of a node, of which only `VALUE` is read (OPC 10000-4, 5.10.2). The nodes of namespace 0 are
    /// ServerArray, NamespaceArray, StartTime, CurrentTime, State, ServiceLevel, RedundancySupport and ServerUriArray,
    /// whose values have no times. Namespace 2 has the items under their numbers; an item's value is an Int64 with its
    /// source time, and with its picoseconds where they are not 0; before its first change there is no value.
    /// `write_data_value` writes what the law `values_are_sent` says of each.
    ///
    /// # Errors
    /// `Code` with Bad_NodeIdUnknown exactly where the id is no such node's, and else with Bad_AttributeIdInvalid exactly
    /// where the attribute is another one. Neither takes memory.
    pub fn read_node(
        &self,
        alloc: Global,
        id: &NodeId,
        attribute: u32,
    ) -> Result<DataValue, NodeFault>
        ensures read { Reads result (read_of self.entry.now id.now attribute) }
        ensures sent { (bytes : List ℕ) → attribute ≡ 13 → Sends self.entry.now id.now bytes
            → IfOk result (λ value. written_data_value value ≡ bytes) }
        ensures refused { (code : ℕ)
            → (result ≡ Err (faults.Code code)) ↔ (read_of self.entry.now id.now attribute ≡ Err code) }
    {
        let node = self.checked(id, attribute).map_err(NodeFault::Code)?;
        let value = self.value(alloc, node)?;
        Ok(value)
    }
}
