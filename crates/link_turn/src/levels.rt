//! A ServiceLevel as it is read.

ghost use Rattle.std.specs.Prelude.{◌≡◌};
ghost use Rattle.ua_variants.specs.declared.variant.Variant.{out-Variant};
ghost use Rattle.link_rules.specs.Ready.{byte_of, level_of};

use crate::answers::is_good_status;
use ua_variants::{DataValue, Scalar, Variant};

/// The Byte that a value is.
fn byte_of(value: &Variant) -> Option<u8>
    ensures { result ≡ byte_of (out-Variant value.now) }
{
    match value {
        Variant::Scalar(Scalar::Byte(number)) => Some(*number),
        _ => None,
    }
}

/// The ServiceLevel that a value holds: a Byte whose status is good.
pub fn level_of(value: &DataValue) -> Option<u8>
    ensures { result ≡ level_of value.now }
{
    if is_good_status(value.status) {
        match &value.value {
            None => None,
            Some(held) => byte_of(held),
        }
    } else {
        None
    }
}
