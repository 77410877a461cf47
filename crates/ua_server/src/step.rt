//! One event.

ghost use Rattle.std.specs.Prelude.{◌≡◌, OnOk};
ghost use Rattle.server_rules.specs.Step.{Closes, Feeds, Levels, Opens, Ticks, after};
ghost use Rattle.ua_server.specs.Step.{closed_bytes, end_closed, end_opened, opened_bytes, stepped, taken, with_ends};

use crate::event::ServerEvent;
use server_core::ServerCore;
use set_model::Change;
use std::alloc::Global;
use ua_base::OutOfMemory;
use ua_channel::{Channel, Channels, Rest, Side, obey_each};

/// A connection has an end from now on.
fn open_end(alloc: Global, channels: &mut Channels, conn: u32) -> Result<(), OutOfMemory>
    ensures { OnOk result (channels.new ≡ end_opened conn channels.old) }
{
    if channels.contains(conn) {
        Ok(())
    } else {
        channels.open(conn, Channel::new(alloc, Side::Server))
    }
}

/// Opens a connection of a new number.
fn open_new(alloc: Global, rest: &mut Rest<ServerCore>, conn: u32) -> Result<(), OutOfMemory>
    ensures { OnOk result (rest.new
        ≡ with_ends (end_opened conn rest.old.channels) (after (Opens conn) rest.old.hub)) }
{
    let mut orders = Vec::new(alloc);
    open_end(alloc, &mut rest.channels, conn)?;
    rest.hub.open(conn, &mut orders)?;
    obey_each(alloc, &mut rest.channels, orders)
}

fn open(alloc: Global, rest: &mut Rest<ServerCore>, conn: u32) -> Result<(), OutOfMemory>
    ensures { OnOk result (rest.new ≡ opened_bytes conn rest.old) }
{
    if rest.hub.is_new(conn) {
        open_new(alloc, rest, conn)
    } else {
        Ok(())
    }
}

/// Takes some bytes of a connection's stream.
#[tactic(auto, unfolding(crate::specs::Step::taken))]
fn take(
    alloc: Global,
    rest: &mut Rest<ServerCore>,
    conn: u32,
    bytes: &[u8],
) -> Result<(), OutOfMemory>
    ensures { OnOk result (rest.new ≡ taken conn bytes.now rest.old) }
{
    rest.take(alloc, conn, bytes)
}

/// Closes a connection that is there.
fn close_end(alloc: Global, rest: &mut Rest<ServerCore>, conn: u32) -> Result<(), OutOfMemory>
    ensures { OnOk result (rest.new
        ≡ with_ends (end_closed conn rest.old.channels) (after (Closes conn) rest.old.hub)) }
{
    let mut orders = Vec::new(alloc);
    rest.channels.close(conn);
    rest.hub.close(conn, &mut orders)?;
    obey_each(alloc, &mut rest.channels, orders)
}

fn close(alloc: Global, rest: &mut Rest<ServerCore>, conn: u32) -> Result<(), OutOfMemory>
    ensures { OnOk result (rest.new ≡ closed_bytes conn rest.old) }
{
    if rest.channels.contains(conn) {
        close_end(alloc, rest, conn)
    } else {
        Ok(())
    }
}

fn feed(alloc: Global, rest: &mut Rest<ServerCore>, change: Change) -> Result<(), OutOfMemory>
    ensures { OnOk result (rest.new ≡ with_ends rest.old.channels (after (Feeds change) rest.old.hub)) }
{
    let mut orders = Vec::new(alloc);
    rest.hub.feed(change, &mut orders)?;
    obey_each(alloc, &mut rest.channels, orders)
}

fn tick(alloc: Global, rest: &mut Rest<ServerCore>, ms: u32) -> Result<(), OutOfMemory>
    ensures { OnOk result (rest.new ≡ with_ends rest.old.channels (after (Ticks ms) rest.old.hub)) }
{
    let mut orders = Vec::new(alloc);
    rest.hub.tick(alloc, ms, &mut orders)?;
    obey_each(alloc, &mut rest.channels, orders)
}

fn level(alloc: Global, rest: &mut Rest<ServerCore>, level: u8) -> Result<(), OutOfMemory>
    ensures { OnOk result (rest.new ≡ with_ends rest.old.channels (after (Levels level) rest.old.hub)) }
{
    let mut orders = Vec::new(alloc);
    rest.hub.level(level, &mut orders)?;
    obey_each(alloc, &mut rest.channels, orders)
}

/// Lets an event happen.
pub(crate) fn step(
    alloc: Global,
    rest: &mut Rest<ServerCore>,
    event: &ServerEvent,
) -> Result<(), OutOfMemory>
    ensures { OnOk result (rest.new ≡ stepped event.now rest.old) }
{
    match event {
        ServerEvent::Opened { conn } => open(alloc, rest, *conn),
        ServerEvent::Bytes { conn, bytes } => take(alloc, rest, *conn, bytes.as_slice()),
        ServerEvent::Closed { conn } => close(alloc, rest, *conn),
        ServerEvent::Feed { change } => feed(alloc, rest, *change),
        ServerEvent::Tick { ms } => tick(alloc, rest, *ms),
        ServerEvent::Level { level: now } => level(alloc, rest, *now),
    }
}
