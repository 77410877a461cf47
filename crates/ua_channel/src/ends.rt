//! What is done at one end among those of a node's connections. A connection that isn't there has none.

ghost use Rattle.std.specs.Prelude.{◌≡◌, ◌++◌, OnErr, OnOk};
ghost use Rattle.ua_channel.specs.Sharing.{emptied_by, end_at, obeyed_at, obeyed_each, out_by, shut_by};

use crate::channel::Channel;
use crate::channels::Channels;
use crate::node::obey_one;
use crate::side::Side;
use crate::wire::Order;
use std::alloc::Global;
use ua_base::OutOfMemory;

/// Obeys an order. One for a connection that isn't there is for nobody, and a message that doesn't fit isn't put.
///
/// # Errors
///
/// Want of memory. Nothing is said of what stands then.
pub fn obey_at(
    alloc: Global,
    channels: &mut Channels,
    number: u32,
    order: &Order,
) -> Result<(), OutOfMemory>
    ensures { OnOk result (channels.new ≡ obeyed_at number order.now channels.old) }
{
    if !channels.contains(number) {
        return Ok(());
    }
    let mut channel = channels.swap(number, Channel::new(alloc, Side::Server));
    obey_one(alloc, &mut channel, order)?;
    channels.swap(number, channel);
    Ok(())
}

/// Obeys an order that stands with the number of its connection.
fn obey_entry(
    alloc: Global,
    channels: &mut Channels,
    entry: (u32, Order),
) -> Result<(), OutOfMemory>
    ensures { OnOk result (channels.new ≡ obeyed_at entry.0 entry.1 channels.old) }
{
    let (number, order) = entry;
    obey_at(alloc, channels, number, &order)
}

/// Obeys orders in turn, each at the end of its connection.
///
/// # Errors
///
/// Want of memory. Nothing is said of what stands then.
pub fn obey_each(
    alloc: Global,
    channels: &mut Channels,
    orders: Vec<(u32, Order)>,
) -> Result<(), OutOfMemory>
    ensures { OnOk result (channels.new ≡ obeyed_each orders.items channels.old) }
{
    for entry in orders {
        obey_entry(alloc, channels, entry)?;
    }
    Ok(())
}

/// Moves the bytes that weren't taken to the end of `to`.
///
/// # Errors
///
/// Want of memory; all stays as it was.
pub fn take_out(
    alloc: Global,
    channels: &mut Channels,
    number: u32,
    to: &mut Vec<u8>,
) -> Result<(), OutOfMemory>
    ensures bytes { OnOk result (to.new.items ≡ to.old.items ++ out_by (end_at number channels.old)) }
    ensures ends { OnOk result (channels.new ≡ emptied_by (end_at number channels.old) number channels.old) }
    ensures kept { OnErr result (channels.new ≡ channels.old) }
    ensures unchanged { OnErr result (to.new.items ≡ to.old.items) }
{
    match channels.at(number) {
        Some(channel) => to.extend_from_slice(channel.out())?,
        None => return Ok(()),
    }
    empty_end(alloc, channels, number);
    Ok(())
}

/// Forgets the bytes that weren't taken.
pub fn empty_end(alloc: Global, channels: &mut Channels, number: u32)
    ensures { channels.new ≡ emptied_by (end_at number channels.old) number channels.old }
{
    if channels.contains(number) {
        let mut channel = channels.swap(number, Channel::new(alloc, Side::Server));
        channel.take_out(alloc);
        channels.swap(number, channel);
    }
}

/// Lets go of what came and is no whole message, as `Channel::shut` does.
pub fn shut_end(alloc: Global, channels: &mut Channels, number: u32)
    ensures { channels.new ≡ shut_by (end_at number channels.old) number channels.old }
{
    if channels.contains(number) {
        let mut channel = channels.swap(number, Channel::new(alloc, Side::Server));
        channel.shut(alloc);
        channels.swap(number, channel);
    }
}
