ghost use Rattle.std.specs.Prelude.{◌≡◌, ◌≢◌, ◌≤◌, ◌++◌, IfOk, false, length, true, OnErr, OnOk};
ghost use Rattle.ua_base.specs.declared.modes.SetMode.TheVariants.{Direct};
ghost use Rattle.ua_client.specs.State.{held_of, life_of, new_bytes, out_of, without_out, without_wish, wished};
ghost use Rattle.ua_client.specs.Step.{stepped};

use crate::client_core::ClientCore;
use crate::dialling::dial;
use crate::ends::first_ends;
use crate::event::ClientEvent;
use crate::step;
use client_rules::ClientConfig;
use link_rules::Wish;
use set_model::LogLine;
use std::alloc::Global;
use std::marker::Model;
use ua_base::OutOfMemory;
use ua_channel::{Hub, Rest, take_out};

/// A client that fails over between the servers of a set.
#[derive(Drop)]
pub struct Client {
    rest: Rest<ClientCore>,
    failed: bool,
}

impl Model for Client {
    ghost use Rattle.ua_client.specs.State.{Life};

    ghost Value = { Life };

    ghost view = { λ c. record { failed = c.failed; bytes = c.rest } };
}

impl Client {
    /// A client that begins: it knows nothing of its servers, and has dialled.
    ///
    /// # Errors
    ///
    /// Want of memory.
    pub fn new(alloc: Global, config: ClientConfig) -> Result<Client, OutOfMemory>
        requires mode { config.mode ≢ Direct }
        requires servers { (1 ≤ length config.urls) × (length config.urls ≤ 255) }
        ensures { IfOk result (λ client. client ≡ life_of (new_bytes config)) }
    {
        let mut hub = ClientCore::new(alloc, config)?;
        let channels = first_ends(alloc, hub.count())?;
        dial(&mut hub);
        Ok(Client {
            rest: Rest { hub, channels },
            failed: false,
        })
    }

    /// Lets an event happen. No byte of a server makes it answer a fault: each closes that server's link. An event of a
    /// server that the client doesn't have has no effect.
    ///
    /// # Errors
    ///
    /// Want of memory, and nothing else. The client has failed then, and answers it from then on; of its state nothing is
    /// said.
    pub fn step(&mut self, alloc: Global, event: &ClientEvent) -> Result<(), OutOfMemory>
        ensures state { OnOk result (self.new ≡ life_of (stepped event.now self.old.bytes)) }
        ensures lived { OnOk result (self.old.failed ≡ false) }
        ensures failed { OnErr result (self.new.failed ≡ true) }
    {
        if self.failed {
            return Err(OutOfMemory);
        }
        match step::step(alloc, &mut self.rest, event) {
            Ok(()) => Ok(()),
            Err(OutOfMemory) => {
                self.failed = true;
                Err(OutOfMemory)
            }
        }
    }

    /// Whether memory was refused to an event.
    pub fn failed(&self) -> bool
        ensures { result ≡ self.now.failed }
    {
        self.failed
    }

    /// The bytes for a server that weren't taken; none for one that the client doesn't have.
    pub fn out(&self, server: u8) -> &[u8]
        ensures { result.now ≡ out_of server self.now.bytes }
    {
        match self.rest.channels.at(u32::from(server)) {
            Some(channel) => channel.out(),
            None => &[],
        }
    }

    /// Moves those bytes to the end of `to`.
    ///
    /// # Errors
    ///
    /// Want of memory; all stays as it was.
    pub fn take_out(
        &mut self,
        alloc: Global,
        server: u8,
        to: &mut Vec<u8>,
    ) -> Result<(), OutOfMemory>
        ensures bytes { OnOk result (to.new.items ≡ to.old.items ++ out_of server self.old.bytes) }
        ensures state { OnOk result (self.new ≡ record self.old { bytes = without_out server self.old.bytes }) }
        ensures unchanged { OnErr result (self.new ≡ self.old) }
        ensures nothing { OnErr result (to.new.items ≡ to.old.items) }
    {
        take_out(alloc, &mut self.rest.channels, u32::from(server), to)
    }

    /// What the client wishes for its connection to a server, which is taken by that; `None` for one that it doesn't have.
    /// It takes no memory.
    pub fn take_wish(&mut self, server: u8) -> Wish
        ensures wish { result ≡ wished server self.old.bytes.hub }
        ensures state { self.new ≡ record self.old {
          bytes = record self.old.bytes { hub = without_wish server self.old.bytes.hub };
        } }
    {
        match self.rest.hub.server(u32::from(server)) {
            Some(server) => self.rest.hub.take_wish(server),
            None => Wish::None,
        }
    }

    /// How many bytes are held of what came from a server and is no whole message: the bytes that are in no whole frame,
    /// and those of a message that isn't whole. None are where nothing is heard of it, and never more than
    /// `ua_channel::MOST_HELD`, whatever came.
    pub fn held(&self, server: u8) -> usize
        ensures bytes { result ≡ held_of server self.now.bytes }
        ensures bound { result ≤ 1114111 }
    {
        let number = u32::from(server);
        match self.rest.channels.at(number) {
            Some(channel) => channel.held(self.rest.hub.ear(number)),
            None => 0,
        }
    }

    /// The lines of the report so far: `data`, `gap`, `ready`, `lost`, `unsupported` and `switch` lines, in order.
    pub fn lines(&self) -> &[LogLine]
        ensures { result.now ≡ self.now.bytes.hub.log.lines }
    {
        self.rest.hub.lines()
    }
}
