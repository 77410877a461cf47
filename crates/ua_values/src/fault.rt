use std::alloc::{AllocError, AllocFailed};
use thiserror::Error;
use ua_base::OutOfMemory;

/// How many bytes a text or a ByteString may have.
pub const MOST_BYTES: u32 = 1_048_576;

/// How many elements an array may have.
pub const MOST_ITEMS: u32 = 65_536;

/// Why no value was read.
#[derive(Clone, Copy, Debug, PartialEq, Eq, Error)]
pub enum ValueFault {
    /// The bytes end inside a value.
    #[error("the bytes end inside a value")]
    Short,
    /// The field whose first byte is at `place` breaks a rule; `code` is the status code that says which kind of rule.
    #[error("bad value at byte {place}")]
    Bad { place: usize, code: u32 },
    /// Memory was refused.
    #[error("out of memory")]
    OutOfMemory,
}

impl From<OutOfMemory> for ValueFault {
    ghost use Rattle.std.specs.Prelude.{◌≡◌};
    ghost use Rattle.ua_values.specs.declared.fault.ValueFault.TheVariants as faults;

    ghost from_gives = { λ _ fault. fault ≡ faults.OutOfMemory };

    fn from(_error: OutOfMemory) -> ValueFault {
        ValueFault::OutOfMemory
    }
}

impl From<AllocError> for ValueFault {
    ghost use Rattle.std.specs.Prelude.{◌≡◌};
    ghost use Rattle.ua_values.specs.declared.fault.ValueFault.TheVariants as faults;

    ghost from_gives = { λ _ fault. fault ≡ faults.OutOfMemory };

    fn from(_error: AllocError) -> ValueFault {
        ValueFault::OutOfMemory
    }
}

impl<T: Drop> From<AllocFailed<T>> for ValueFault {
    ghost use Rattle.std.specs.Prelude.{◌≡◌};
    ghost use Rattle.ua_values.specs.declared.fault.ValueFault.TheVariants as faults;

    ghost from_gives = { λ _ fault. fault ≡ faults.OutOfMemory };

    fn from(_error: AllocFailed<T>) -> ValueFault {
        ValueFault::OutOfMemory
    }
}
