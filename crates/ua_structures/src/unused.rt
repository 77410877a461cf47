//! Fields that this product never uses: they are read and checked, and not kept, and are written as 0, null or empty.

ghost use Rattle.std.specs.Prelude.{◌≡◌};
ghost use Rattle.ua_structures.specs.Structures.{no_object};

use std::alloc::Global;
use ua_base::OutOfMemory;
use ua_values::{
    Cursor, Element, ExtensionBody, ExtensionObject, NodeId, UaText, ValueFault, read_array,
    write_byte, write_uint32,
};
use ua_variants::DiagnosticInfo;

/// An ExtensionObject of no type and without a body, which stands where there is none.
pub fn no_object() -> ExtensionObject
    ensures { result ≡ no_object }
{
    ExtensionObject {
        type_id: NodeId::Numeric {
            namespace: 0,
            id: 0,
        },
        body: ExtensionBody::Absent,
    }
}

/// The rest of a RequestHeader (OPC 10000-4, 7.28): the UInt32 ReturnDiagnostics, the String AuditEntryId, the UInt32 TimeoutHint and the
/// ExtensionObject AdditionalHeader.
#[derive(Clone, Copy, Debug, PartialEq, Eq)]
pub struct UnusedOfRequest;

#[tactic(auto, unfolding(crate::specs::Structures::an_unused_of_request))]
impl Element for UnusedOfRequest {
    ghost use Rattle.ua_structures.specs.Structures.{an_unused_of_request};

    ghost at = { an_unused_of_request.at };

    ghost written = { an_unused_of_request.written };

    fn read(alloc: Global, from: &mut Cursor<'_>) -> Result<UnusedOfRequest, ValueFault> {
        from.uint32()?;
        from.text(alloc)?;
        from.uint32()?;
        from.extension_object(alloc)?;
        Ok(UnusedOfRequest)
    }

    fn put(&self, to: &mut Vec<u8>) -> Result<(), OutOfMemory> {
        write_uint32(0, to)?;
        UaText::null().put(to)?;
        write_uint32(0, to)?;
        no_object().put(to)
    }
}

/// The rest of a ResponseHeader (OPC 10000-4, 7.29): the DiagnosticInfo ServiceDiagnostics, the StringTable and the ExtensionObject
/// AdditionalHeader.
#[derive(Clone, Copy, Debug, PartialEq, Eq)]
pub struct UnusedOfResponse;

#[tactic(auto, unfolding(crate::specs::Structures::an_unused_of_response))]
impl Element for UnusedOfResponse {
    ghost use Rattle.ua_structures.specs.Structures.{an_unused_of_response};

    ghost at = { an_unused_of_response.at };

    ghost written = { an_unused_of_response.written };

    fn read(alloc: Global, from: &mut Cursor<'_>) -> Result<UnusedOfResponse, ValueFault> {
        DiagnosticInfo::read(alloc, from)?;
        read_array::<UaText>(alloc, from)?;
        from.extension_object(alloc)?;
        Ok(UnusedOfResponse)
    }

    fn put(&self, to: &mut Vec<u8>) -> Result<(), OutOfMemory> {
        write_byte(0, to)?;
        write_uint32(0, to)?;
        no_object().put(to)
    }
}

/// The DiagnosticInfos of a reply's results.
#[derive(Clone, Copy, Debug, PartialEq, Eq)]
pub struct UnusedDiagnostics;

#[tactic(auto, unfolding(crate::specs::Structures::unused_diagnostics))]
impl Element for UnusedDiagnostics {
    ghost use Rattle.ua_structures.specs.Structures.{unused_diagnostics};

    ghost at = { unused_diagnostics.at };

    ghost written = { unused_diagnostics.written };

    fn read(alloc: Global, from: &mut Cursor<'_>) -> Result<UnusedDiagnostics, ValueFault> {
        read_array::<DiagnosticInfo>(alloc, from)?;
        Ok(UnusedDiagnostics)
    }

    fn put(&self, to: &mut Vec<u8>) -> Result<(), OutOfMemory> {
        write_uint32(0, to)
    }
}
