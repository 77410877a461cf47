ghost use Rattle.std.specs.Prelude.{◌≡◌, IfOk};
ghost use Rattle.ua_base.specs.Status.{bad_decoding_error};
ghost use Rattle.ua_values.specs.Readers.{kind_of, MeansOrNot};

use crate::node::NodeId;
use crate::run::{UaBytes, UaText};
use std::alloc::Global;
use ua_base::OutOfMemory;

/// A structure of a type that `type_id` names, as it came (OPC 10000-6, 5.2.2.15).
#[derive(Debug, Drop)]
pub struct ExtensionObject {
    pub type_id: NodeId,
    pub body: ExtensionBody,
}

/// The structure's own bytes.
#[derive(Debug, Drop)]
pub enum ExtensionBody {
    /// There is no structure.
    Absent,
    /// Its binary encoding.
    Binary(UaBytes),
    /// Its XML encoding.
    Xml(UaText),
}

impl ExtensionBody {
    fn copy(&self, alloc: Global) -> Result<ExtensionBody, OutOfMemory>
        ensures { IfOk result (λ copied. copied ≡ self.now) }
    {
        match self {
            ExtensionBody::Absent => Ok(ExtensionBody::Absent),
            ExtensionBody::Binary(bytes) => Ok(ExtensionBody::Binary(bytes.copy(alloc)?)),
            ExtensionBody::Xml(text) => Ok(ExtensionBody::Xml(text.copy(alloc)?)),
        }
    }
}

impl ExtensionObject {
    /// The same object once more.
    pub fn copy(&self, alloc: Global) -> Result<ExtensionObject, OutOfMemory>
        ensures { IfOk result (λ copied. copied ≡ self.now) }
    {
        let type_id = self.type_id.copy(alloc)?;
        let body = self.body.copy(alloc)?;
        Ok(ExtensionObject { type_id, body })
    }
}

/// How the body stands in bytes.
#[derive(Clone, Copy, Debug, PartialEq, Eq)]
pub(crate) enum BodyKind {
    Absent,
    Binary,
    Xml,
}

impl BodyKind {
    /// The kind that the byte says, where it says one.
    pub(crate) fn of(byte: u8) -> Option<BodyKind>
        ensures { MeansOrNot result (kind_of byte) bad_decoding_error }
    {
        match byte {
            0 => Some(BodyKind::Absent),
            1 => Some(BodyKind::Binary),
            2 => Some(BodyKind::Xml),
            _ => None,
        }
    }
}
