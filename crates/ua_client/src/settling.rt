//! The choice among the servers that are ready, and the modes of their items (OPC 10000-4, 6.6.2.4).

ghost use Rattle.std.specs.Prelude.{◌≡◌, ◌++◌, [], IfOk, OnOk, length};
ghost use Rattle.client_rules.specs.Settling.{candidate_of, chosen, modes_told, ready_of, round, settled, settled_within, told_mode};
ghost use Rattle.ua_client.specs.Standing.{HasServer};

use crate::client_core::ClientCore;
use crate::linking::link;
use failover_core::Candidate;
use std::alloc::Global;
use ua_base::OutOfMemory;
use ua_channel::Order;

/// Appends a server that is ready.
fn put_candidate(
    client: &ClientCore,
    server: u8,
    to: &mut Vec<Candidate>,
) -> Result<(), OutOfMemory>
    requires { HasServer server client.now }
    ensures { OnOk result (to.new.items ≡ to.old.items ++ candidate_of server client.now) }
{
    let link = client.link(server);
    if link.is_ready() {
        to.push(Candidate {
            server,
            level: client.level(server),
        })?;
    }
    Ok(())
}

/// The servers that are ready.
#[tactic(auto, using(crate::proofs::Counting::ready_none, crate::proofs::Counting::ready_next))]
fn ready(alloc: Global, client: &ClientCore) -> Result<Vec<Candidate>, OutOfMemory>
    ensures { IfOk result (λ ready. ready.items ≡ ready_of client.now) }
{
    let mut ready = Vec::new(alloc);
    for before in 0..client.count() {
        put_candidate(client, before + 1, &mut ready)?;
    }
    Ok(ready)
}

/// Chooses among them.
#[tactic(auto, unfolding(client_rules::specs::Settling::chosen))]
fn choose(client: &mut ClientCore, ready: &[Candidate]) -> Result<(), OutOfMemory>
    ensures state { OnOk result (client.new ≡ (chosen ready.now client.old).client) }
    ensures silent { (chosen ready.now client.old).orders ≡ [] }
{
    match client.decide(ready) {
        Some((from, to)) => client.switch(from, to),
        None => Ok(()),
    }
}

/// Tells a server that is ready how its items are to be monitored.
#[tactic(auto, unfolding(client_rules::specs::Settling::told_mode))]
fn tell_mode(
    alloc: Global,
    client: &mut ClientCore,
    server: u8,
    to: &mut Vec<(u32, Order)>,
) -> Result<(), OutOfMemory>
    requires { HasServer server client.old }
    ensures state { OnOk result (client.new ≡ (told_mode server client.old).client) }
    ensures orders { OnOk result (to.new.items ≡ to.old.items ++ (told_mode server client.old).orders) }
    ensures links { OnOk result (length client.new.links ≡ length client.old.links) }
{
    if client.link(server).is_ready() {
        let mode = client.wanted(server);
        link(alloc, client, server, &mode, to)
    } else {
        Ok(())
    }
}

/// Tells them all.
#[tactic(auto, using(crate::proofs::Counting::each_none, crate::proofs::Counting::each_next))]
fn tell_modes(
    alloc: Global,
    client: &mut ClientCore,
    to: &mut Vec<(u32, Order)>,
) -> Result<(), OutOfMemory>
    ensures state { OnOk result (client.new ≡ (modes_told client.old).client) }
    ensures orders { OnOk result (to.new.items ≡ to.old.items ++ (modes_told client.old).orders) }
{
    for before in 0..client.count() {
        tell_mode(alloc, client, before + 1, to)?;
    }
    Ok(())
}

/// Chooses, and tells the modes.
#[tactic(auto, unfolding(client_rules::specs::Settling::round))]
fn turn(
    alloc: Global,
    client: &mut ClientCore,
    ready: &[Candidate],
    to: &mut Vec<(u32, Order)>,
) -> Result<(), OutOfMemory>
    ensures state { OnOk result (client.new ≡ (round ready.now client.old).client) }
    ensures orders { OnOk result (to.new.items ≡ to.old.items ++ (round ready.now client.old).orders) }
{
    choose(client, ready)?;
    tell_modes(alloc, client, to)
}

/// Does both, again where a link closed meanwhile, at most so many times.
#[tactic(auto, using(crate::proofs::Counting::within_none, crate::proofs::Counting::within_some))]
fn settle_within(
    alloc: Global,
    client: &mut ClientCore,
    most: u16,
    ready: &[Candidate],
    to: &mut Vec<(u32, Order)>,
) -> Result<(), OutOfMemory>
    ensures state { OnOk result (client.new ≡ (settled_within most ready.now client.old).client) }
    ensures orders { OnOk result (to.new.items ≡ to.old.items ++ (settled_within most ready.now client.old).orders) }
{
    if most == 0 {
        return Ok(());
    }
    turn(alloc, client, ready, to)?;
    let after = self::ready(alloc, client)?;
    if after.len() >= ready.len() {
        return Ok(());
    }
    settle_within(alloc, client, most - 1, &after, to)?;
    Ok(())
}

/// What follows what its links told.
pub(crate) fn settle(
    alloc: Global,
    client: &mut ClientCore,
    to: &mut Vec<(u32, Order)>,
) -> Result<(), OutOfMemory>
    ensures state { OnOk result (client.new ≡ (settled client.old).client) }
    ensures orders { OnOk result (to.new.items ≡ to.old.items ++ (settled client.old).orders) }
{
    let ready = ready(alloc, client)?;
    let most = u16::from(client.count()) + 1;
    settle_within(alloc, client, most, &ready, to)
}
