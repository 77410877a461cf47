ghost use Rattle.std.specs.Prelude.{◌≡◌, ◌++◌, ℕ, List, OnOk, Some};
ghost use Rattle.ua_channel.specs.declared.ear.Ear.{Ear};
ghost use Rattle.ua_channel.specs.declared.heard.Heard.{Heard};
ghost use Rattle.ua_channel.specs.declared.wire.Order.{Order};
ghost use Rattle.ua_channel.specs.Node.{node_after, node_of, settled, stepped, told, with_fault, with_frame};
ghost use Rattle.ua_channel.specs.Node.{with_frames};
ghost use Rattle.ua_channel.specs.Orders.{obeyed, obeyed_all};

use crate::channel::Channel;
use crate::ear::Ear;
use crate::fault::ChannelFault;
use crate::heard::Heard;
use crate::wire::Order;
use std::alloc::Global;
use ua_base::OutOfMemory;
use ua_chunks::{Frame, FrameFault};

/// What stands behind the ends of connections, which it knows by numbers: it says which frames an end takes next, and
/// makes of what is heard a change of itself and orders for that end.
pub trait Core: Drop {
    ghost ears: { ℕ → Self → Ear };

    ghost answer: { ℕ → Heard → Self → Self × List Order };

    /// What the end of this connection takes next; `Deaf` of a connection that isn't there.
    fn ear(&self, conn: u32) -> Ear
        ensures { result ≡ ears conn self.now };

    /// Hears, and appends the orders.
    fn hear(
        &mut self,
        alloc: Global,
        conn: u32,
        heard: &Heard,
        to: &mut Vec<Order>,
    ) -> Result<(), OutOfMemory>
        ensures core { OnOk result (self.new ≡ (answer conn heard.now self.old).0) }
        ensures orders { OnOk result (to.new.items ≡ to.old.items ++ (answer conn heard.now self.old).1) };
}

/// Obeys an order. A message that doesn't fit isn't put.
pub(crate) fn obey_one(
    alloc: Global,
    channel: &mut Channel,
    order: &Order,
) -> Result<(), OutOfMemory>
    ensures { OnOk result (channel.new ≡ obeyed order.now channel.old) }
{
    match channel.obey(alloc, order) {
        Ok(()) | Err(ChannelFault::TooLarge { .. }) => Ok(()),
        Err(ChannelFault::OutOfMemory) => Err(OutOfMemory),
    }
}

/// Obeys orders in turn. A message that doesn't fit isn't put.
///
/// # Errors
///
/// Want of memory. Nothing is said of what stands then.
pub fn obey_all(alloc: Global, channel: &mut Channel, orders: &[Order]) -> Result<(), OutOfMemory>
    ensures { OnOk result (channel.new ≡ obeyed_all orders.now channel.old) }
{
    for order in orders {
        obey_one(alloc, channel, order)?;
    }
    Ok(())
}

/// Lets a deaf end keep nothing.
fn settle<C: Core>(alloc: Global, core: &C, conn: u32, channel: &mut Channel)
    ensures { node_of core.now channel.new
        ≡ settled (C.ears conn) (C.answer conn) (node_of core.now channel.old) }
{
    if core.ear(conn).is_deaf() {
        channel.shut(alloc);
    }
}

/// Tells the core what was heard, and obeys it.
#[tactic(auto, unfolding(crate::specs::Node::told))]
fn tell<C: Core>(
    alloc: Global,
    core: &mut C,
    conn: u32,
    channel: &mut Channel,
    heard: &Heard,
) -> Result<(), OutOfMemory>
    ensures { OnOk result (node_of core.new channel.new
        ≡ told (C.ears conn) (C.answer conn) heard.now (node_of core.old channel.old)) }
{
    let mut orders = Vec::new(alloc);
    core.hear(alloc, conn, heard, &mut orders)?;
    obey_all(alloc, channel, &orders)?;
    settle(alloc, core, conn, channel);
    Ok(())
}

/// Takes a frame, unless nothing is heard any more.
#[tactic(auto, unfolding(crate::specs::Node::with_frame))]
fn take_frame<C: Core>(
    alloc: Global,
    core: &mut C,
    conn: u32,
    channel: &mut Channel,
    frame: &Frame,
) -> Result<(), OutOfMemory>
    ensures { OnOk result (node_of core.new channel.new
        ≡ with_frame (C.ears conn) (C.answer conn) frame.now (node_of core.old channel.old)) }
{
    let ear = core.ear(conn);
    if ear.is_deaf() {
        return Ok(());
    }
    match channel.hear(alloc, ear, frame)? {
        Some(heard) => tell(alloc, core, conn, channel, &heard),
        None => Ok(()),
    }
}

/// Takes frames one by one, so that a renewal comes before the next frame.
fn take_frames<C: Core>(
    alloc: Global,
    core: &mut C,
    conn: u32,
    channel: &mut Channel,
    frames: &[Frame],
) -> Result<(), OutOfMemory>
    ensures { OnOk result (node_of core.new channel.new
        ≡ with_frames (C.ears conn) (C.answer conn) frames.now (node_of core.old channel.old)) }
{
    for frame in frames {
        take_frame(alloc, core, conn, channel, frame)?;
    }
    Ok(())
}

/// Tells a fault of the framing, unless nothing is heard any more.
fn take_fault<C: Core>(
    alloc: Global,
    core: &mut C,
    conn: u32,
    channel: &mut Channel,
    code: u32,
) -> Result<(), OutOfMemory>
    ensures { OnOk result (node_of core.new channel.new
        ≡ with_fault (C.ears conn) (C.answer conn) (Some code) (node_of core.old channel.old)) }
{
    if core.ear(conn).is_deaf() {
        return Ok(());
    }
    tell(alloc, core, conn, channel, &Heard::Fault { code })
}

/// Takes bytes that are heard.
#[tactic(auto, unfolding(crate::specs::Node::stepped))]
fn step<C: Core>(
    alloc: Global,
    core: &mut C,
    conn: u32,
    channel: &mut Channel,
    bytes: &[u8],
) -> Result<(), OutOfMemory>
    ensures { OnOk result (node_of core.new channel.new
        ≡ stepped (C.ears conn) (C.answer conn) bytes.now (node_of core.old channel.old)) }
{
    let mut frames = Vec::new(alloc);
    match channel.feed(alloc, bytes, &mut frames) {
        Ok(()) => take_frames(alloc, core, conn, channel, &frames),
        Err(FrameFault::Bad { code, .. }) => {
            take_frames(alloc, core, conn, channel, &frames)?;
            take_fault(alloc, core, conn, channel, code)
        }
        Err(FrameFault::OutOfMemory) => Err(OutOfMemory),
    }
}

/// Takes some bytes of a connection's stream: the frames that they make whole are heard one by one, the core answers
/// each message, and its orders are obeyed before the next frame. A message that doesn't fit isn't put: a core that
/// asks `Channel::fits` first, or knows the other end's limits, never has one.
///
/// # Errors
///
/// Want of memory. Nothing is said of what stands then.
#[tactic(auto, unfolding(crate::specs::Node::node_after))]
pub fn take_bytes<C: Core>(
    alloc: Global,
    core: &mut C,
    conn: u32,
    channel: &mut Channel,
    bytes: &[u8],
) -> Result<(), OutOfMemory>
    ensures { OnOk result (node_of core.new channel.new
        ≡ node_after (C.ears conn) (C.answer conn) bytes.now (node_of core.old channel.old)) }
{
    if bytes.is_empty() || core.ear(conn).is_deaf() {
        return Ok(());
    }
    step(alloc, core, conn, channel, bytes)
}
