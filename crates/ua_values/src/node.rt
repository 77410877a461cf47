ghost use Rattle.std.specs.Prelude.{◌≡◌, IfOk, IsTrue};
ghost use Rattle.ua_base.specs.Status.{bad_decoding_error};
ghost use Rattle.ua_values.specs.Readers.{form_of, is_worth, has_bit, head_of, MeansOrNot};
ghost use Rattle.ua_values.specs.Types.{form_byte};
ghost use Rattle.ua_values.specs.Written.{shortest_number, shortest};

use crate::run::{UaBytes, UaText};
use std::alloc::Global;
use ua_base::OutOfMemory;
use uuid::Uuid;

/// What names a node of an address space (OPC 10000-3, 8.2): a namespace's index, and a name there of one of four
/// kinds.
#[derive(Debug, Drop)]
pub enum NodeId {
    /// A number.
    Numeric { namespace: u16, id: u32 },
    /// A text.
    Text { namespace: u16, id: UaText },
    /// A Guid.
    Guid { namespace: u16, id: Uuid },
    /// Bytes that mean something to the server alone.
    Opaque { namespace: u16, id: UaBytes },
}

impl NodeId {
    /// The same name once more.
    pub fn copy(&self, alloc: Global) -> Result<NodeId, OutOfMemory>
        ensures { IfOk result (λ copied. copied ≡ self.now) }
    {
        match self {
            NodeId::Numeric { namespace, id } => Ok(NodeId::Numeric {
                namespace: *namespace,
                id: *id,
            }),
            NodeId::Text { namespace, id } => Ok(NodeId::Text {
                namespace: *namespace,
                id: id.copy(alloc)?,
            }),
            NodeId::Guid { namespace, id } => Ok(NodeId::Guid {
                namespace: *namespace,
                id: *id,
            }),
            NodeId::Opaque { namespace, id } => Ok(NodeId::Opaque {
                namespace: *namespace,
                id: id.copy(alloc)?,
            }),
        }
    }
}

/// A node of some server (OPC 10000-4, 7.16): where `uri` is not null it names the namespace in place of the index,
/// and `server` is an index among servers, 0 being the one that is spoken to.
#[derive(Debug, Drop)]
pub struct ExpandedNodeId {
    pub node: NodeId,
    pub uri: UaText,
    pub server: u32,
}

impl ExpandedNodeId {
    /// The same name once more.
    pub fn copy(&self, alloc: Global) -> Result<ExpandedNodeId, OutOfMemory>
        ensures { IfOk result (λ copied. copied ≡ self.now) }
    {
        let node = self.node.copy(alloc)?;
        let uri = self.uri.copy(alloc)?;
        let server = self.server;
        Ok(ExpandedNodeId { node, uri, server })
    }
}

/// How a NodeId stands in bytes (OPC 10000-6, 5.2.2.9).
#[derive(Clone, Copy, Debug, PartialEq, Eq)]
pub(crate) enum Form {
    /// A number below 256 in namespace 0.
    TwoByte,
    /// A number below 65,536 in a namespace below 256.
    FourByte,
    /// A number.
    Long,
    /// A text.
    Text,
    /// A Guid.
    Guid,
    /// A ByteString.
    Opaque,
}

/// The first byte of an ExpandedNodeId.
#[derive(Clone, Copy, Debug, PartialEq, Eq)]
pub(crate) struct Head {
    pub form: Form,
    pub has_uri: bool,
    pub has_server: bool,
}

impl Form {
    /// The form that the byte says, where it says one.
    pub(crate) fn of(byte: u8) -> Option<Form>
        ensures { MeansOrNot result (form_of byte) bad_decoding_error }
    {
        match byte {
            0 => Some(Form::TwoByte),
            1 => Some(Form::FourByte),
            2 => Some(Form::Long),
            3 => Some(Form::Text),
            4 => Some(Form::Guid),
            5 => Some(Form::Opaque),
            _ => None,
        }
    }
}

impl Form {
    /// The shortest form of a number.
    pub(crate) fn of_number(namespace: u16, id: u32) -> Form
        ensures { result ≡ shortest_number namespace id }
    {
        if namespace == 0 && id < 1 << 8 {
            Form::TwoByte
        } else if namespace < 1 << 8 && id < 1 << 16 {
            Form::FourByte
        } else {
            Form::Long
        }
    }

    /// The shortest form that holds the node.
    pub(crate) fn shortest(node: &NodeId) -> Form
        ensures { result ≡ shortest node.now }
    {
        match node {
            NodeId::Numeric { namespace, id } => Form::of_number(*namespace, *id),
            NodeId::Text { .. } => Form::Text,
            NodeId::Guid { .. } => Form::Guid,
            NodeId::Opaque { .. } => Form::Opaque,
        }
    }

    /// The byte that says the form.
    pub(crate) fn byte(self) -> u8
        ensures { result ≡ form_byte self }
    {
        match self {
            Form::TwoByte => 0,
            Form::FourByte => 1,
            Form::Long => 2,
            Form::Text => 3,
            Form::Guid => 4,
            Form::Opaque => 5,
        }
    }
}

/// Whether a byte, as a mask is one, has the bit that is worth `worth`.
pub fn has_bit(worth: u8, byte: u8) -> bool
    requires { IsTrue (is_worth worth) }
    ensures { result ≡ has_bit worth byte }
{
    byte & worth != 0
}

impl Head {
    /// What the byte says, where its form is one.
    pub(crate) fn of(byte: u8) -> Option<Head>
        ensures { MeansOrNot result (head_of byte) bad_decoding_error }
    {
        let form = Form::of(byte & 63)?;
        Some(Head {
            form,
            has_uri: has_bit(128, byte),
            has_server: has_bit(64, byte),
        })
    }
}
