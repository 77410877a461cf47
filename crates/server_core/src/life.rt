ghost use Rattle.std.specs.Prelude.{◌≡◌, ◌++◌, OnOk};
ghost use Rattle.server_rules.specs.Connecting.{is_above};
ghost use Rattle.server_rules.specs.Said.{orders_of};
ghost use Rattle.server_rules.specs.State.{new_server};
ghost use Rattle.server_rules.specs.Step.{after};
ghost use Rattle.server_rules.specs.Step.{Opens, Closes, Feeds, Ticks, Levels};

use crate::connecting;
use redundancy_nodes::CurrentChanges;
use server_rules::ServerConfig;
use server_subs::ServerData;
use set_model::Change;
use std::alloc::Global;
use std::marker::Model;
use ua_base::OutOfMemory;
use ua_channel::{Ear, Heard, Hub, Order};

/// A life of a server, over whole messages. What it says are orders, each with the number of the connection whose end
/// is to obey it.
#[derive(Debug, Drop)]
pub struct ServerCore {
    data: ServerData,
}

impl Model for ServerCore {
    ghost use Rattle.server_rules.specs.State.{ServerState};

    ghost Value = { ServerState };

    ghost view = { λ c. c.data };
}

impl Hub for ServerCore {
    ghost use Rattle.server_rules.specs.Said.{orders_of};
    ghost use Rattle.server_rules.specs.Step.{ears};
    ghost use Rattle.server_rules.specs.Step as step;

    ghost ears = { λ conn s. ears conn s };

    ghost answers = { λ conn h s. ((step.heard conn h s).state, orders_of (step.heard conn h s).said) };

    fn ear(&self, conn: u32) -> Ear {
        connecting::ear(&self.data, conn)
    }

    fn hear(
        &mut self,
        alloc: Global,
        conn: u32,
        heard: &Heard,
        to: &mut Vec<(u32, Order)>,
    ) -> Result<(), OutOfMemory> {
        connecting::hear(alloc, &mut self.data, conn, heard, to)
    }
}

impl ServerCore {
    /// A life that begins, with the items' current values. It takes no memory.
    pub fn new(alloc: Global, config: ServerConfig, current: CurrentChanges) -> ServerCore
        ensures { result ≡ new_server config current }
    {
        ServerCore {
            data: ServerData::new(alloc, config, current),
        }
    }

    /// Whether a connection of this number may be opened: its number is above those of all that were.
    pub fn is_new(&self, conn: u32) -> bool
        ensures { result ≡ is_above self.now.highest conn }
    {
        connecting::is_above(self.data.highest(), conn)
    }

    /// A connection is opened. One whose number isn't above those before is none, and of a 33rd nothing is heard.
    ///
    /// # Errors
    ///
    /// Want of memory, here and in each call below. Nothing is said of what stands then.
    pub fn open(&mut self, conn: u32, to: &mut Vec<(u32, Order)>) -> Result<(), OutOfMemory>
        ensures state { OnOk result (self.new ≡ (after (Opens conn) self.old).state) }
        ensures orders { OnOk result (to.new.items ≡ to.old.items ++ orders_of (after (Opens conn) self.old).said) }
    {
        connecting::open(&mut self.data, conn)
    }

    /// A connection ended: its sessions are bound to none, and what they had queued is dropped.
    pub fn close(&mut self, conn: u32, to: &mut Vec<(u32, Order)>) -> Result<(), OutOfMemory>
        ensures state { OnOk result (self.new ≡ (after (Closes conn) self.old).state) }
        ensures orders { OnOk result (to.new.items ≡ to.old.items ++ orders_of (after (Closes conn) self.old).said) }
    {
        connecting::close(&mut self.data, conn);
        Ok(())
    }

    /// An item has a new value, which each monitored item of its node takes.
    pub fn feed(&mut self, change: Change, to: &mut Vec<(u32, Order)>) -> Result<(), OutOfMemory>
        ensures state { OnOk result (self.new ≡ (after (Feeds change) self.old).state) }
        ensures orders { OnOk result (to.new.items ≡ to.old.items ++ orders_of (after (Feeds change) self.old).said) }
    {
        connecting::feed(&mut self.data, change)
    }

    /// So many milliseconds go by.
    pub fn tick(
        &mut self,
        alloc: Global,
        ms: u32,
        to: &mut Vec<(u32, Order)>,
    ) -> Result<(), OutOfMemory>
        ensures state { OnOk result (self.new ≡ (after (Ticks ms) self.old).state) }
        ensures orders { OnOk result (to.new.items ≡ to.old.items ++ orders_of (after (Ticks ms) self.old).said) }
    {
        self.data.tick(alloc, ms, to)
    }

    /// Sets the ServiceLevel (OPC 10000-4, 6.6.2.4.2).
    pub fn level(&mut self, level: u8, to: &mut Vec<(u32, Order)>) -> Result<(), OutOfMemory>
        ensures state { OnOk result (self.new ≡ (after (Levels level) self.old).state) }
        ensures orders { OnOk result (to.new.items ≡ to.old.items ++ orders_of (after (Levels level) self.old).said) }
    {
        connecting::set_level(&mut self.data, level);
        Ok(())
    }
}
