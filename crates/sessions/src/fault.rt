ghost use Rattle.std.specs.Prelude.{◌≡◌};

use thiserror::Error;
use ua_base::OutOfMemory;

/// Why a call was refused. The sessions are then as they were.
#[derive(Clone, Copy, Debug, PartialEq, Eq, Error)]
pub enum SessionFault {
    /// The status code that answers the request (OPC 10000-4, 7.34).
    #[error("status {0:08X}")]
    Code(u32),
    /// There is no memory for it.
    #[error("out of memory")]
    OutOfMemory,
}

impl From<OutOfMemory> for SessionFault {
    ghost use Rattle.sessions.specs.declared.fault.SessionFault.TheVariants as faults;

    ghost from_gives = { λ _ fault. fault ≡ faults.OutOfMemory };

    fn from(_refused: OutOfMemory) -> SessionFault {
        SessionFault::OutOfMemory
    }
}
