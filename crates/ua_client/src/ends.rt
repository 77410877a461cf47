//! The ends of a client's connections: one for each server from the beginning, and when they begin anew.

ghost use Rattle.std.specs.Prelude.{◌≡◌, IfOk, OnOk};
ghost use Rattle.ua_channel.specs.declared.side.Side.TheVariants as sides;
ghost use Rattle.ua_channel.specs.Sharing.{with_end};
ghost use Rattle.ua_channel.specs.State.{new_channel};
ghost use Rattle.ua_client.specs.State.{end_opened, first_ends};

use std::alloc::Global;
use ua_base::OutOfMemory;
use ua_channel::{Channel, Channels, Side};

/// A server has an end from now on.
fn open_end(alloc: Global, channels: &mut Channels, server: u32) -> Result<(), OutOfMemory>
    ensures { OnOk result (channels.new ≡ end_opened server channels.old) }
{
    if channels.contains(server) {
        Ok(())
    } else {
        channels.open(server, Channel::new(alloc, Side::Client))
    }
}

/// The ends of so many servers.
#[tactic(auto, using(crate::proofs::Counting::ends_none, crate::proofs::Counting::ends_next))]
pub(crate) fn first_ends(alloc: Global, count: u8) -> Result<Channels, OutOfMemory>
    ensures { IfOk result (λ ends. ends ≡ first_ends count) }
{
    let mut channels = Channels::new(alloc);
    for before in 0..count {
        open_end(alloc, &mut channels, u32::from(before) + 1)?;
    }
    Ok(channels)
}

/// The end of a server begins anew.
pub(crate) fn renew(alloc: Global, channels: &mut Channels, server: u32)
    ensures { channels.new ≡ with_end server (new_channel sides.Client) channels.old }
{
    channels.swap(server, Channel::new(alloc, Side::Client));
}
