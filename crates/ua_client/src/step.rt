//! One event.

ghost use Rattle.std.specs.Prelude.{◌≡◌, OnOk, length, true};
ghost use Rattle.client_rules.specs.Acts.{Closes, Refuses, Ticks};
ghost use Rattle.client_rules.specs.Step.{after};
ghost use Rattle.ua_client.specs.Step.{end_renewed, ended, happened, is_of_client, opened_bytes, shut_among, shut_at, stepped, taken, with_ends};
ghost use Rattle.ua_client.specs.Standing.{HasServer};

use crate::client_core::ClientCore;
use crate::dialling::dial;
use crate::ends::renew;
use crate::event::ClientEvent;
use crate::happening;
use std::alloc::Global;
use ua_base::OutOfMemory;
use ua_channel::{Channels, Hub, Rest, obey_each, shut_end};

/// Begins the end of a server anew, where its link awaits a connection or has none.
fn renew_end(alloc: Global, rest: &mut Rest<ClientCore>, server: u8)
    requires { HasServer server rest.old.hub }
    ensures { rest.new ≡ record rest.old { channels = end_renewed server rest.old } }
{
    if rest.hub.link(server).begins_anew() {
        renew(alloc, &mut rest.channels, u32::from(server));
    }
}

fn open(alloc: Global, rest: &mut Rest<ClientCore>, server: u8) -> Result<(), OutOfMemory>
    requires { HasServer server rest.old.hub }
    ensures { OnOk result (rest.new ≡ opened_bytes server rest.old) }
{
    let mut orders = Vec::new(alloc);
    renew_end(alloc, rest, server);
    happening::open(alloc, &mut rest.hub, u32::from(server), &mut orders)?;
    obey_each(alloc, &mut rest.channels, orders)
}

fn refuse(alloc: Global, rest: &mut Rest<ClientCore>, server: u8) -> Result<(), OutOfMemory>
    ensures { OnOk result (rest.new ≡ with_ends rest.old.channels (after (Refuses server) rest.old.hub)) }
{
    let mut orders = Vec::new(alloc);
    happening::refuse(alloc, &mut rest.hub, u32::from(server), &mut orders)?;
    obey_each(alloc, &mut rest.channels, orders)
}

/// Takes some bytes of a server's stream.
#[tactic(auto, unfolding(crate::specs::Step::taken))]
fn take(
    alloc: Global,
    rest: &mut Rest<ClientCore>,
    server: u8,
    bytes: &[u8],
) -> Result<(), OutOfMemory>
    ensures { OnOk result (rest.new ≡ taken server bytes.now rest.old) }
{
    rest.take(alloc, u32::from(server), bytes)
}

fn close(alloc: Global, rest: &mut Rest<ClientCore>, server: u8) -> Result<(), OutOfMemory>
    ensures { OnOk result (rest.new ≡ with_ends rest.old.channels (after (Closes server) rest.old.hub)) }
{
    let mut orders = Vec::new(alloc);
    happening::close(alloc, &mut rest.hub, u32::from(server), &mut orders)?;
    obey_each(alloc, &mut rest.channels, orders)
}

fn tick(alloc: Global, rest: &mut Rest<ClientCore>, ms: u32) -> Result<(), OutOfMemory>
    ensures { OnOk result (rest.new ≡ with_ends rest.old.channels (after (Ticks ms) rest.old.hub)) }
{
    let mut orders = Vec::new(alloc);
    happening::tick(alloc, &mut rest.hub, ms, &mut orders)?;
    obey_each(alloc, &mut rest.channels, orders)
}

/// Shuts the end of a server of which nothing is heard.
fn shut_at(alloc: Global, client: &ClientCore, channels: &mut Channels, server: u8)
    ensures { channels.new ≡ shut_at server client.now channels.old }
{
    let number = u32::from(server);
    if client.ear(number).is_deaf() {
        shut_end(alloc, channels, number);
    }
}

#[tactic(auto, using(crate::proofs::Counting::shut_none, crate::proofs::Counting::shut_next))]
fn shut_all(alloc: Global, client: &ClientCore, channels: &mut Channels)
    ensures { channels.new ≡ shut_among (length client.now.links) client.now channels.old }
{
    for before in 0..client.count() {
        shut_at(alloc, client, channels, before + 1);
    }
}

/// Ends an event.
fn end(alloc: Global, rest: &mut Rest<ClientCore>)
    ensures { rest.new ≡ ended rest.old }
{
    shut_all(alloc, &rest.hub, &mut rest.channels);
    dial(&mut rest.hub);
}

/// Whether an event is of a server that the client has, or of time.
fn is_of_client(client: &ClientCore, event: &ClientEvent) -> bool
    ensures { result ≡ is_of_client event.now client.now }
{
    match event {
        ClientEvent::Opened { server }
        | ClientEvent::Refused { server }
        | ClientEvent::Bytes { server, .. }
        | ClientEvent::Closed { server } => client.has(*server),
        ClientEvent::Tick { .. } => true,
    }
}

/// Lets an event happen that is of the client.
fn happen(
    alloc: Global,
    rest: &mut Rest<ClientCore>,
    event: &ClientEvent,
) -> Result<(), OutOfMemory>
    requires { is_of_client event.now rest.old.hub ≡ true }
    ensures { OnOk result (rest.new ≡ happened event.now rest.old) }
{
    match event {
        ClientEvent::Opened { server } => open(alloc, rest, *server),
        ClientEvent::Refused { server } => refuse(alloc, rest, *server),
        ClientEvent::Bytes { server, bytes } => take(alloc, rest, *server, bytes.as_slice()),
        ClientEvent::Closed { server } => close(alloc, rest, *server),
        ClientEvent::Tick { ms } => tick(alloc, rest, *ms),
    }
}

/// Lets an event happen.
pub(crate) fn step(
    alloc: Global,
    rest: &mut Rest<ClientCore>,
    event: &ClientEvent,
) -> Result<(), OutOfMemory>
    ensures { OnOk result (rest.new ≡ stepped event.now rest.old) }
{
    if is_of_client(&rest.hub, event) {
        happen(alloc, rest, event)?;
        end(alloc, rest);
    }
    Ok(())
}
