ghost use Rattle.std.specs.Prelude.{◌≡◌, ◌≤◌, ◌++◌, false, true, OnErr, OnOk};
ghost use Rattle.ua_server.specs.State.{held_of, is_closing, life_of, new_bytes, out_of, without_out};
ghost use Rattle.ua_server.specs.Step.{stepped};

use crate::event::ServerEvent;
use crate::step;
use redundancy_nodes::CurrentChanges;
use server_core::ServerCore;
use server_rules::ServerConfig;
use std::alloc::Global;
use std::marker::Model;
use ua_base::OutOfMemory;
use ua_channel::{Channels, Hub, Rest, take_out};

/// One life of a server.
#[derive(Drop)]
pub struct Server {
    rest: Rest<ServerCore>,
    failed: bool,
}

impl Model for Server {
    ghost use Rattle.ua_server.specs.State.{Life};

    ghost Value = { Life };

    ghost view = { λ s. record { failed = s.failed; bytes = s.rest } };
}

impl Server {
    /// A life that begins: its ServiceLevel is 255 and its age 0, and it has these changes as the current values of
    /// their items. It takes no memory.
    pub fn new(alloc: Global, config: ServerConfig, current: CurrentChanges) -> Server
        ensures { result ≡ life_of (new_bytes config current) }
    {
        let rest = Rest {
            hub: ServerCore::new(alloc, config, current),
            channels: Channels::new(alloc),
        };
        Server {
            rest,
            failed: false,
        }
    }

    /// Lets an event happen. Every fault of a peer is answered in bytes.
    ///
    /// # Errors
    ///
    /// Want of memory, and nothing else. The server has failed then, and answers it from then on; of its state nothing is
    /// said.
    pub fn step(&mut self, alloc: Global, event: &ServerEvent) -> Result<(), OutOfMemory>
        ensures state { OnOk result (self.new ≡ life_of (stepped event.now self.old.bytes)) }
        ensures lived { OnOk result (self.old.failed ≡ false) }
        ensures failed { OnErr result (self.new.failed ≡ true) }
    {
        if self.failed {
            return Err(OutOfMemory);
        }
        match step::step(alloc, &mut self.rest, event) {
            Ok(()) => Ok(()),
            Err(OutOfMemory) => {
                self.failed = true;
                Err(OutOfMemory)
            }
        }
    }

    /// Whether memory was refused to an event.
    pub fn failed(&self) -> bool
        ensures { result ≡ self.now.failed }
    {
        self.failed
    }

    /// The bytes for a connection that weren't taken; none where it isn't there.
    pub fn out(&self, conn: u32) -> &[u8]
        ensures { result.now ≡ out_of conn self.now.bytes }
    {
        match self.rest.channels.at(conn) {
            Some(channel) => channel.out(),
            None => &[],
        }
    }

    /// Moves those bytes to the end of `to`.
    ///
    /// # Errors
    ///
    /// Want of memory; all stays as it was.
    pub fn take_out(
        &mut self,
        alloc: Global,
        conn: u32,
        to: &mut Vec<u8>,
    ) -> Result<(), OutOfMemory>
        ensures bytes { OnOk result (to.new.items ≡ to.old.items ++ out_of conn self.old.bytes) }
        ensures state { OnOk result (self.new ≡ record self.old { bytes = without_out conn self.old.bytes }) }
        ensures unchanged { OnErr result (self.new ≡ self.old) }
        ensures nothing { OnErr result (to.new.items ≡ to.old.items) }
    {
        take_out(alloc, &mut self.rest.channels, conn, to)
    }

    /// Whether a connection is to be closed once its bytes are taken: nothing more is heard of it. One that isn't there
    /// isn't.
    pub fn closing(&self, conn: u32) -> bool
        ensures { result ≡ is_closing conn self.now.bytes }
    {
        self.rest.channels.contains(conn) && self.rest.hub.ear(conn).is_deaf()
    }

    /// How many bytes are held of what came on a connection and is no whole message: the bytes that are in no whole
    /// frame, and those of a message that isn't whole. None are where the connection isn't there or nothing is heard of
    /// it, and never more than `ua_channel::MOST_HELD`, whatever came.
    pub fn held(&self, conn: u32) -> usize
        ensures bytes { result ≡ held_of conn self.now.bytes }
        ensures bound { result ≤ 1114111 }
    {
        match self.rest.channels.at(conn) {
            Some(channel) => channel.held(self.rest.hub.ear(conn)),
            None => 0,
        }
    }
}
