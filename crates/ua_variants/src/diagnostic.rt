//! DiagnosticInfo: read and dropped.

ghost use Rattle.std.specs.Prelude.{◌≡◌, ◌<◌};
ghost use Rattle.ua_base.specs.Status.{bad_encoding_limits_exceeded};
ghost use Rattle.ua_values.specs.Reading.{Moves};
ghost use Rattle.ua_variants.specs.Reader.{details_at, diagnostic_by_at, diagnostic_at};
ghost use Rattle.ua_values.specs.declared.fault.ValueFault.TheVariants as faults;

use crate::variant::DiagnosticInfo;
use std::alloc::Global;
use ua_base::status::BAD_ENCODING_LIMITS_EXCEEDED;
use ua_values::{Cursor, UaText, ValueFault, has_bit};

/// A DiagnosticInfo's own fields, as they stand.
#[derive(Debug, Drop)]
pub(crate) struct Details {
    pub symbolic_id: u32,
    pub namespace_uri: u32,
    pub locale: u32,
    pub localized_text: u32,
    pub additional_info: UaText,
    pub inner_status: u32,
}

/// A value that stands inside too many others.
pub(crate) fn too_deep(place: usize) -> ValueFault
    ensures { result ≡ faults.Bad place bad_encoding_limits_exceeded }
{
    ValueFault::Bad {
        place,
        code: BAD_ENCODING_LIMITS_EXCEEDED,
    }
}

fn read_details(alloc: Global, mask: u8, from: &mut Cursor<'_>) -> Result<Details, ValueFault>
    ensures { Moves (λ d. d) result from.new (details_at mask from.old) }
{
    let symbolic_id = from.optional_uint32(has_bit(1, mask))?;
    let namespace_uri = from.optional_uint32(has_bit(2, mask))?;
    let locale = from.optional_uint32(has_bit(4, mask))?;
    let localized_text = from.optional_uint32(has_bit(8, mask))?;
    let additional_info = from.optional_text(alloc, has_bit(16, mask))?;
    let inner_status = from.optional_uint32(has_bit(32, mask))?;
    Ok(Details {
        symbolic_id,
        namespace_uri,
        locale,
        localized_text,
        additional_info,
        inner_status,
    })
}

/// A DiagnosticInfo in which `levels` more may stand inside each other.
#[cycle(diagnostics)]
fn diagnostic_in(
    alloc: Global,
    levels: u8,
    from: &mut Cursor<'_>,
) -> Result<DiagnosticInfo, ValueFault>
    ensures { Moves (λ d. d) result from.new (diagnostic_by_at (diagnostic_at levels) from.old) }
{
    let mask = from.byte()?;
    read_details(alloc, mask, from)?;
    if has_bit(64, mask) {
        diagnostic(alloc, levels, from)
    } else {
        Ok(DiagnosticInfo)
    }
}

/// A DiagnosticInfo, where `levels` of them may stand inside each other, this one among them.
#[cycle(diagnostics)]
pub(crate) fn diagnostic(
    alloc: Global,
    levels: u8,
    from: &mut Cursor<'_>,
) -> Result<DiagnosticInfo, ValueFault>
    ensures { Moves (λ d. d) result from.new (diagnostic_at levels from.old) }
{
    if levels == 0 {
        return Err(too_deep(from.place()));
    }
    diagnostic_in(alloc, levels - 1, from)
}
