use thiserror::Error;
use ua_base::OutOfMemory;

/// Why nothing is shown.
#[derive(Clone, Copy, Debug, PartialEq, Eq, Error)]
pub enum ShowFault {
    /// The first thing that breaks a rule stands at byte `place` of the input, from 0 on; `code` is the status code
    /// that says which kind of rule.
    #[error("byte {place}: {code:08X}")]
    Bad { place: u64, code: u32 },
    /// Memory was refused.
    #[error("out of memory")]
    OutOfMemory,
}

impl From<OutOfMemory> for ShowFault {
    ghost use Rattle.std.specs.Prelude.{◌≡◌};
    ghost use Rattle.show.specs.declared.fault.ShowFault.TheVariants as faults;

    ghost from_gives = { λ _ fault. fault ≡ faults.OutOfMemory };

    fn from(_error: OutOfMemory) -> ShowFault {
        ShowFault::OutOfMemory
    }
}
