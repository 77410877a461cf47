//! A link does something: it moves, what it tells is noted in order, and what it says goes to its server.

ghost use Rattle.std.specs.Prelude.{◌≡◌, ◌++◌, OnOk, length};
ghost use Rattle.client_rules.specs.Links.{all_told, linked, ordered};
ghost use Rattle.ua_client.specs.Standing.{HasServer};

use crate::client_core::ClientCore;
use crate::moves::Move;
use link_rules::Notice;
use std::alloc::Global;
use ua_base::OutOfMemory;
use ua_channel::Order;

/// Notes what a link told, in order.
#[tactic(auto, unfolding(client_rules::specs::Links::all_told))]
fn tell_all(
    alloc: Global,
    client: &mut ClientCore,
    server: u8,
    notices: &[Notice],
) -> Result<(), OutOfMemory>
    requires { HasServer server client.old }
    ensures state { OnOk result (client.new ≡ all_told server notices.now client.old) }
    ensures links { OnOk result (client.new.links ≡ client.old.links) }
{
    for notice in notices {
        client.tell(alloc, server, notice)?;
    }
    Ok(())
}

/// Appends the orders for a server.
fn put_all(server: u8, orders: Vec<Order>, to: &mut Vec<(u32, Order)>) -> Result<(), OutOfMemory>
    ensures { OnOk result (to.new.items ≡ to.old.items ++ ordered server orders.items) }
{
    for order in orders {
        to.push((u32::from(server), order))?;
    }
    Ok(())
}

/// Lets the link to a server do something, with all that is told by it.
#[tactic(auto, unfolding(client_rules::specs::Links::linked_by))]
pub(crate) fn link<M: Move>(
    alloc: Global,
    client: &mut ClientCore,
    server: u8,
    by: &M,
    to: &mut Vec<(u32, Order)>,
) -> Result<(), OutOfMemory>
    requires { HasServer server client.old }
    ensures state { OnOk result (client.new ≡ (linked server (M.rule by.now) client.old).client) }
    ensures orders { OnOk result (to.new.items ≡ to.old.items ++ (linked server (M.rule by.now) client.old).orders) }
    ensures links { OnOk result (length client.new.links ≡ length client.old.links) }
{
    let mut orders = Vec::new(alloc);
    let mut notices = Vec::new(alloc);
    client.make(alloc, server, by, &mut orders, &mut notices)?;
    tell_all(alloc, client, server, &notices)?;
    put_all(server, orders, to)
}
