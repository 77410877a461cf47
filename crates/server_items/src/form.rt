//! In which form a value is asked for.

ghost use Rattle.std.specs.Prelude.{◌≡◌};
ghost use Rattle.server_rules.specs.Reading.{form_fault, is_blank};

use ua_base::status::{BAD_DATA_ENCODING_INVALID, BAD_INDEX_RANGE_INVALID};
use ua_structures::ReadValueId;
use ua_values::UaText;

/// Whether a text is null or has no bytes.
fn is_blank(text: &UaText) -> bool
    ensures { result ≡ is_blank text.now }
{
    match text.bytes() {
        None => true,
        Some(bytes) => bytes.len() == 0,
    }
}

/// The status code that refuses a part of a value, or an encoding of its own (OPC 10000-4, 7.27 and 7.29).
pub(crate) fn form_fault(asked: &ReadValueId) -> Option<u32>
    ensures { result ≡ form_fault asked.now }
{
    if !is_blank(&asked.index_range) {
        Some(BAD_INDEX_RANGE_INVALID)
    } else if !is_blank(&asked.data_encoding.name) {
        Some(BAD_DATA_ENCODING_INVALID)
    } else {
        None
    }
}
