ghost use Rattle.std.specs.Prelude.{◌≡◌, ◌++◌, ℕ, List, OnOk};
ghost use Rattle.ua_channel.specs.declared.ear.Ear.{Ear};
ghost use Rattle.ua_channel.specs.declared.heard.Heard.{Heard};
ghost use Rattle.ua_channel.specs.declared.wire.Order.{Order};
ghost use Rattle.ua_channel.specs.Sharing.{others, others_first, own, own_first, taken_at};

use crate::channel::Channel;
use crate::channels::Channels;
use crate::ear::Ear;
use crate::ends::obey_at;
use crate::heard::Heard;
use crate::node::{Core, take_bytes};
use crate::side::Side;
use crate::wire::Order;
use std::alloc::Global;
use ua_base::OutOfMemory;

/// What stands behind the ends of all connections of a node: as a `Core`, but it may order something of any connection.
pub trait Hub: Drop {
    ghost ears: { ℕ → Self → Ear };

    ghost answers: { ℕ → Heard → Self → Self × List (ℕ × Order) };

    /// What the end of this connection takes next; `Deaf` of a connection that isn't there.
    fn ear(&self, conn: u32) -> Ear
        ensures { result ≡ ears conn self.now };

    /// Hears, and appends the orders, each with the number of its connection.
    fn hear(
        &mut self,
        alloc: Global,
        conn: u32,
        heard: &Heard,
        to: &mut Vec<(u32, Order)>,
    ) -> Result<(), OutOfMemory>
        ensures hub { OnOk result (self.new ≡ (answers conn heard.now self.old).0) }
        ensures orders { OnOk result (to.new.items ≡ to.old.items ++ (answers conn heard.now self.old).1) };
}

/// Appends an order for this connection, and obeys one for another.
fn share_one(
    alloc: Global,
    channels: &mut Channels,
    conn: u32,
    entry: (u32, Order),
    to: &mut Vec<Order>,
) -> Result<(), OutOfMemory>
    ensures channels { OnOk result (channels.new ≡ others_first conn entry channels.old) }
    ensures own { OnOk result (to.new.items ≡ to.old.items ++ own_first conn entry) }
{
    let (number, order) = entry;
    if number == conn {
        to.push(order)?;
        Ok(())
    } else {
        obey_at(alloc, channels, number, &order)
    }
}

/// Appends the orders for this connection, and obeys those for others.
fn share(
    alloc: Global,
    channels: &mut Channels,
    conn: u32,
    orders: Vec<(u32, Order)>,
    to: &mut Vec<Order>,
) -> Result<(), OutOfMemory>
    ensures channels { OnOk result (channels.new ≡ others conn orders.items channels.old) }
    ensures own { OnOk result (to.new.items ≡ to.old.items ++ own conn orders.items) }
{
    for entry in orders {
        share_one(alloc, channels, conn, entry, to)?;
    }
    Ok(())
}

/// A hub and the ends of its connections: the core of one that was taken out.
#[derive(Drop)]
pub struct Rest<H: Hub> {
    pub hub: H,
    pub channels: Channels,
}

impl<H: Hub> Core for Rest<H> {
    ghost use Rattle.ua_channel.specs.Sharing.{others, own};

    ghost ears = { λ conn r. H.ears conn r.hub };

    ghost answer = { λ conn h r. (
      record { hub = (H.answers conn h r.hub).0; channels = others conn (H.answers conn h r.hub).1 r.channels },
      own conn (H.answers conn h r.hub).1,
    ) };

    fn ear(&self, conn: u32) -> Ear {
        self.hub.ear(conn)
    }

    fn hear(
        &mut self,
        alloc: Global,
        conn: u32,
        heard: &Heard,
        to: &mut Vec<Order>,
    ) -> Result<(), OutOfMemory> {
        let mut orders = Vec::new(alloc);
        self.hub.hear(alloc, conn, heard, &mut orders)?;
        share(alloc, &mut self.channels, conn, orders, to)
    }
}

impl<H: Hub> Rest<H> {
    /// Takes some bytes of a connection's stream, as `take_bytes` does: its end is taken out, and is put back with what
    /// they made of it. Bytes for a connection that isn't there are for nobody.
    ///
    /// # Errors
    ///
    /// Want of memory. Nothing is said of what stands then.
    pub fn take(&mut self, alloc: Global, conn: u32, bytes: &[u8]) -> Result<(), OutOfMemory>
        ensures { OnOk result (self.new ≡ taken_at (λ r. H.ears conn r.hub)
            (λ h r. (
              record {
                hub = (H.answers conn h r.hub).0;
                channels = others conn (H.answers conn h r.hub).1 r.channels;
              },
              own conn (H.answers conn h r.hub).1,
            )) (λ r. r.channels) (λ ends r. record r { channels = ends }) conn bytes.now self.old) }
    {
        if !self.channels.contains(conn) {
            return Ok(());
        }
        let mut channel = self.channels.swap(conn, Channel::new(alloc, Side::Server));
        take_bytes(alloc, self, conn, &mut channel, bytes)?;
        self.channels.swap(conn, channel);
        Ok(())
    }
}
