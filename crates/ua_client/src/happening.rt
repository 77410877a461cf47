//! What happens to a client, with all that follows it.

ghost use Rattle.std.specs.Prelude.{◌≡◌, ◌++◌, OnOk};
ghost use Rattle.client_rules.specs.Acts.{Closes, Hears, Opens, Refuses, Ticks};
ghost use Rattle.client_rules.specs.Step.{after, opens, ticks};
ghost use Rattle.ua_client.specs.Standing.{HasServer};

use crate::client_core::ClientCore;
use crate::linking::link;
use crate::moves::{Closing, Opening, Refusing, Ticking};
use crate::settling::settle;
use std::alloc::Global;
use ua_base::OutOfMemory;
use ua_channel::{Ear, Heard, Hub, Order};

/// A connection to a server is counted, and opened.
fn open_counted(
    alloc: Global,
    client: &mut ClientCore,
    server: u8,
    to: &mut Vec<(u32, Order)>,
) -> Result<(), OutOfMemory>
    requires { HasServer server client.old }
    ensures state { OnOk result (client.new ≡ (opens server client.old).client) }
    ensures orders { OnOk result (to.new.items ≡ to.old.items ++ (opens server client.old).orders) }
{
    client.count_dial();
    let url = client.endpoint(alloc, server)?;
    link(alloc, client, server, &Opening { url }, to)
}

/// A connection to a server was opened.
#[tactic(auto, unfolding(client_rules::specs::Step::after))]
pub(crate) fn open(
    alloc: Global,
    client: &mut ClientCore,
    conn: u32,
    to: &mut Vec<(u32, Order)>,
) -> Result<(), OutOfMemory>
    ensures state { OnOk result (client.new ≡ (after (Opens conn) client.old).client) }
    ensures orders { OnOk result (to.new.items ≡ to.old.items ++ (after (Opens conn) client.old).orders) }
{
    match client.server(conn) {
        Some(server) => {
            open_counted(alloc, client, server, to)?;
            settle(alloc, client, to)
        }
        None => Ok(()),
    }
}

/// A connection to a server was refused.
#[tactic(auto, unfolding(client_rules::specs::Step::after))]
pub(crate) fn refuse(
    alloc: Global,
    client: &mut ClientCore,
    conn: u32,
    to: &mut Vec<(u32, Order)>,
) -> Result<(), OutOfMemory>
    ensures state { OnOk result (client.new ≡ (after (Refuses conn) client.old).client) }
    ensures orders { OnOk result (to.new.items ≡ to.old.items ++ (after (Refuses conn) client.old).orders) }
{
    match client.server(conn) {
        Some(server) => {
            link(alloc, client, server, &Refusing, to)?;
            settle(alloc, client, to)
        }
        None => Ok(()),
    }
}

/// Something is heard of a server.
#[tactic(auto, unfolding(client_rules::specs::Step::after))]
fn hear(
    alloc: Global,
    client: &mut ClientCore,
    conn: u32,
    heard: &Heard,
    to: &mut Vec<(u32, Order)>,
) -> Result<(), OutOfMemory>
    ensures state { OnOk result (client.new ≡ (after (Hears conn heard.now) client.old).client) }
    ensures orders { OnOk result (to.new.items ≡ to.old.items ++ (after (Hears conn heard.now) client.old).orders) }
{
    match client.server(conn) {
        Some(server) => {
            link(alloc, client, server, heard, to)?;
            settle(alloc, client, to)
        }
        None => Ok(()),
    }
}

/// The connection to a server ended.
#[tactic(auto, unfolding(client_rules::specs::Step::after))]
pub(crate) fn close(
    alloc: Global,
    client: &mut ClientCore,
    conn: u32,
    to: &mut Vec<(u32, Order)>,
) -> Result<(), OutOfMemory>
    ensures state { OnOk result (client.new ≡ (after (Closes conn) client.old).client) }
    ensures orders { OnOk result (to.new.items ≡ to.old.items ++ (after (Closes conn) client.old).orders) }
{
    match client.server(conn) {
        Some(server) => {
            link(alloc, client, server, &Closing, to)?;
            settle(alloc, client, to)
        }
        None => Ok(()),
    }
}

/// Milliseconds pass for each link.
#[tactic(auto, using(crate::proofs::Counting::each_none, crate::proofs::Counting::each_next))]
fn tick_all(
    alloc: Global,
    client: &mut ClientCore,
    ms: u32,
    to: &mut Vec<(u32, Order)>,
) -> Result<(), OutOfMemory>
    ensures state { OnOk result (client.new ≡ (ticks ms client.old).client) }
    ensures orders { OnOk result (to.new.items ≡ to.old.items ++ (ticks ms client.old).orders) }
{
    for before in 0..client.count() {
        link(alloc, client, before + 1, &Ticking { ms }, to)?;
    }
    Ok(())
}

/// Milliseconds passed.
#[tactic(auto, unfolding(client_rules::specs::Step::after))]
pub(crate) fn tick(
    alloc: Global,
    client: &mut ClientCore,
    ms: u32,
    to: &mut Vec<(u32, Order)>,
) -> Result<(), OutOfMemory>
    ensures state { OnOk result (client.new ≡ (after (Ticks ms) client.old).client) }
    ensures orders { OnOk result (to.new.items ≡ to.old.items ++ (after (Ticks ms) client.old).orders) }
{
    tick_all(alloc, client, ms, to)?;
    settle(alloc, client, to)
}

impl Hub for ClientCore {
    ghost use Rattle.client_rules.specs.Step as step;

    ghost ears = { λ conn c. step.ears conn c };

    ghost answers = { λ conn h c. ((step.heard conn h c).client, (step.heard conn h c).orders) };

    fn ear(&self, conn: u32) -> Ear {
        match self.server(conn) {
            Some(server) => self.link(server).ear(),
            None => Ear::Deaf,
        }
    }

    fn hear(
        &mut self,
        alloc: Global,
        conn: u32,
        heard: &Heard,
        to: &mut Vec<(u32, Order)>,
    ) -> Result<(), OutOfMemory> {
        hear(alloc, self, conn, heard, to)
    }
}
