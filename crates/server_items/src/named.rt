//! Enumerations, which are Int32 on the wire.

ghost use Rattle.std.specs.Prelude.{◌≡◌};
ghost use Rattle.server_rules.specs.Operations.{mode_named, timestamps_named};

use ua_base::{Mode, Timestamps};

/// The monitoring mode of a number.
pub(crate) fn mode_named(number: i32) -> Option<Mode>
    ensures { result ≡ mode_named number }
{
    if number < 0 {
        None
    } else {
        Mode::of_number(number as u32)
    }
}

/// The choice of times of a number.
pub(crate) fn timestamps_named(number: i32) -> Option<Timestamps>
    ensures { result ≡ timestamps_named number }
{
    if number < 0 {
        None
    } else {
        Timestamps::of_number(number as u32)
    }
}
