//! One event.

ghost use Rattle.std.specs.Prelude.{◌≡◌, ◌++◌, OnOk};
ghost use Rattle.ua_channel.specs.Node.{node_after, node_of, settled};
ghost use Rattle.ua_channel.specs.Orders.{obeyed_all};
ghost use Rattle.link_rules.specs.Said.{nothing};
ghost use Rattle.link_rules.specs.Opening as opening;
ghost use Rattle.link_rules.specs.Step as rules;
ghost use Rattle.link_rules.specs.Time as time;
ghost use Rattle.ua_link.specs.Talk as talk;

use crate::event::LinkEvent;
use crate::telling::Telling;
use std::alloc::Global;
use ua_base::{Mode, OutOfMemory};
use ua_channel::{Channel, Order, Side, obey_all, take_bytes};
use ua_values::UaText;

/// The number of the one connection.
const CONNECTION: u32 = 0;

/// Lets a deaf end keep nothing.
fn settle(alloc: Global, telling: &Telling, channel: &mut Channel)
    ensures { node_of telling.now channel.new
        ≡ settled talk.ears talk.answer (node_of telling.now channel.old) }
{
    if telling.link.ear().is_deaf() {
        channel.shut(alloc);
    }
}

/// Obeys the orders of an event, and lets a deaf end keep nothing.
fn finish(
    alloc: Global,
    telling: &Telling,
    channel: &mut Channel,
    orders: &[Order],
) -> Result<(), OutOfMemory>
    ensures { OnOk result (node_of telling.now channel.new
        ≡ settled talk.ears talk.answer (node_of telling.now (obeyed_all orders.now channel.old))) }
{
    obey_all(alloc, channel, orders)?;
    settle(alloc, telling, channel);
    Ok(())
}

/// Leaves nothing of a connection before, where one begins anew.
fn begin_anew(alloc: Global, telling: &Telling, channel: &mut Channel)
    ensures { node_of telling.now channel.new ≡ talk.anew (node_of telling.now channel.old) }
{
    if telling.link.begins_anew() {
        *channel = Channel::new(alloc, Side::Client);
    }
}

fn open(
    alloc: Global,
    telling: &mut Telling,
    channel: &mut Channel,
    url: &UaText,
) -> Result<(), OutOfMemory>
    ensures { OnOk result (node_of telling.new channel.new
        ≡ talk.after_rule (opening.opened url.now telling.old.link) (talk.anew (node_of telling.old channel.old))) }
{
    let mut orders = Vec::new(alloc);
    let url = url.copy(alloc)?;
    begin_anew(alloc, telling, channel);
    telling
        .link
        .opened(alloc, url, &mut orders, &mut telling.notices)?;
    finish(alloc, telling, channel, &orders)
}

fn refuse(alloc: Global, telling: &mut Telling, channel: &mut Channel) -> Result<(), OutOfMemory>
    ensures { OnOk result (node_of telling.new channel.new
        ≡ talk.after_rule (opening.refused telling.old.link) (node_of telling.old channel.old)) }
{
    let mut orders = Vec::new(alloc);
    telling
        .link
        .refused(alloc, &mut orders, &mut telling.notices)?;
    finish(alloc, telling, channel, &orders)
}

fn close(alloc: Global, telling: &mut Telling, channel: &mut Channel) -> Result<(), OutOfMemory>
    ensures { OnOk result (node_of telling.new channel.new
        ≡ talk.after_rule (opening.closed telling.old.link) (node_of telling.old channel.old)) }
{
    let mut orders = Vec::new(alloc);
    telling
        .link
        .closed(alloc, &mut orders, &mut telling.notices)?;
    finish(alloc, telling, channel, &orders)
}

fn tick(
    alloc: Global,
    telling: &mut Telling,
    channel: &mut Channel,
    ms: u32,
) -> Result<(), OutOfMemory>
    ensures { OnOk result (node_of telling.new channel.new
        ≡ talk.after_rule (time.ticked ms telling.old.link) (node_of telling.old channel.old)) }
{
    let mut orders = Vec::new(alloc);
    telling
        .link
        .ticked(alloc, ms, &mut orders, &mut telling.notices)?;
    finish(alloc, telling, channel, &orders)
}

fn want(
    alloc: Global,
    telling: &mut Telling,
    channel: &mut Channel,
    mode: Mode,
) -> Result<(), OutOfMemory>
    ensures { OnOk result (node_of telling.new channel.new
        ≡ talk.after_rule (rules.wants mode telling.old.link) (node_of telling.old channel.old)) }
{
    let mut orders = Vec::new(alloc);
    telling
        .link
        .wants(alloc, mode, &mut orders, &mut telling.notices)?;
    finish(alloc, telling, channel, &orders)
}

fn dial(alloc: Global, telling: &mut Telling, channel: &mut Channel)
    ensures { node_of telling.new channel.new
        ≡ talk.after_rule (nothing (opening.dials telling.old.link)) (node_of telling.old channel.old) }
{
    telling.link.dial();
    settle(alloc, telling, channel);
}

/// Takes some bytes of the connection's stream.
fn take(
    alloc: Global,
    telling: &mut Telling,
    channel: &mut Channel,
    bytes: &[u8],
) -> Result<(), OutOfMemory>
    ensures { OnOk result (node_of telling.new channel.new
        ≡ node_after talk.ears talk.answer bytes.now (node_of telling.old channel.old)) }
{
    take_bytes(alloc, telling, CONNECTION, channel, bytes)
}

/// Lets an event happen.
pub(crate) fn step(
    alloc: Global,
    telling: &mut Telling,
    channel: &mut Channel,
    event: &LinkEvent,
) -> Result<(), OutOfMemory>
    ensures { OnOk result (node_of telling.new channel.new
        ≡ talk.stepped event.now (node_of telling.old channel.old)) }
{
    match event {
        LinkEvent::Opened { url } => open(alloc, telling, channel, url),
        LinkEvent::Refused => refuse(alloc, telling, channel),
        LinkEvent::Closed => close(alloc, telling, channel),
        LinkEvent::Bytes { bytes } => take(alloc, telling, channel, bytes.as_slice()),
        LinkEvent::Tick { ms } => tick(alloc, telling, channel, *ms),
        LinkEvent::Wants { mode } => want(alloc, telling, channel, *mode),
        LinkEvent::Dial => {
            dial(alloc, telling, channel);
            Ok(())
        }
    }
}
