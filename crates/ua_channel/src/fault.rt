use thiserror::Error;
use ua_base::OutOfMemory;

/// Why an order was not obeyed.
#[derive(Clone, Copy, Debug, PartialEq, Eq, Error)]
pub enum ChannelFault {
    /// A message of `size` bytes was to be put, and may have `limit`. Whoever asks `Channel::fits` first never meets
    /// it.
    #[error("a message of {size} bytes, where {limit} are the most")]
    TooLarge { size: u64, limit: u64 },
    /// Memory was refused.
    #[error("out of memory")]
    OutOfMemory,
}

impl From<OutOfMemory> for ChannelFault {
    ghost use Rattle.std.specs.Prelude.{◌≡◌};
    ghost use Rattle.ua_channel.specs.declared.fault.ChannelFault.TheVariants as faults;

    ghost from_gives = { λ _ fault. fault ≡ faults.OutOfMemory };

    fn from(_error: OutOfMemory) -> ChannelFault {
        ChannelFault::OutOfMemory
    }
}
