//! One server of the set: its lives, and its connection to the client.

ghost use Rattle.std.specs.Prelude.{[], ◌≡◌, ◌+◌, ◌≤◌, drop, is_some, length, max, OnOk, take};
ghost use Rattle.client_cuts.specs.Resting.{IsAtRest};
ghost use Rattle.set_rules.specs.Moves.{asked_by, cleared_by, is_left};
ghost use Rattle.set_rules.specs.Slots.{accepted, collected, fed, fed_all, happens, new_slot, next_boot, parted, served, started, stopped};
ghost use Rattle.ua_server.specs.Step.{stepped};
ghost use Rattle.set_world.specs.Bytes.{Takes, nodes};
ghost use Rattle.set_world.specs.Flight.{flight_in};

use crate::pieces;
use direct_world::next_changes;
use set_model::Change;
use std::alloc::Global;
use std::marker::Model;
use std::mem;
use ua_base::OutOfMemory;
use ua_client::Client;
use ua_server::{Server, ServerEvent};

/// A connection that stands, with the bytes that are in flight on it.
#[derive(Drop)]
pub(crate) struct Connection {
    number: u32,
    there: Vec<u8>,
    back: Vec<u8>,
}

impl Model for Connection {
    ghost use Rattle.std.specs.Prelude.{List, ℕ};
    ghost use Rattle.set_rules.specs.State as state;

    ghost Value = { state.Connection (List ℕ) };

    ghost view = { λ c. record { number = c.number; there = c.there.items; back = c.back.items } };
}

/// A server of the set.
#[derive(Drop)]
pub(crate) struct Slot {
    boot: u16,
    life: Option<Server>,
    position: usize,
    held: bool,
    given: u32,
    connection: Option<Connection>,
}

impl Model for Slot {
    ghost use Rattle.std.specs.Option.{option_map};
    ghost use Rattle.set_world.specs.Bytes.{ByteSlot};
    ghost use Rattle.ua_server.specs.State.{Life};

    ghost Value = { ByteSlot };

    ghost view = { λ s. record {
      boot = s.boot;
      life = option_map (λ (l : Life). l.bytes) s.life;
      position = s.position;
      held = s.held;
      given = s.given;
      connection = s.connection;
    } };
}

impl Slot {
    /// The bytes in flight on the connection to the server, or from it.
    pub(crate) fn flight(&self, to_server: bool) -> &[u8]
        ensures { result.now ≡ flight_in [] self.now.connection to_server }
    {
        match &self.connection {
            Some(connection) => {
                if to_server {
                    &connection.there
                } else {
                    &connection.back
                }
            }
            None => &[],
        }
    }

    /// Moves what the life put for the connection that stands to what is in flight.
    fn collect(&mut self, alloc: Global) -> Result<(), OutOfMemory>
        ensures { OnOk result (self.new ≡ collected nodes self.old) }
    {
        if let Some(life) = &mut self.life {
            if let Some(connection) = &mut self.connection {
                life.take_out(alloc, connection.number, &mut connection.back)?;
            }
        }
        Ok(())
    }

    /// Lets an event of the life happen, if the server runs.
    pub(crate) fn happen(&mut self, alloc: Global, event: &ServerEvent) -> Result<(), OutOfMemory>
        ensures { OnOk result (self.new ≡ happens nodes (stepped event.now) self.old) }
    {
        if let Some(life) = &mut self.life {
            life.step(alloc, event)?;
        } else {
            return Ok(());
        }
        self.collect(alloc)
    }

    /// A server that runs its first life.
    pub(crate) fn new(life: Server) -> Slot
        ensures { result ≡ new_slot life.bytes }
    {
        Slot {
            boot: 1,
            life: Some(life),
            position: 0,
            held: false,
            given: 0,
            connection: None,
        }
    }

    /// Whether rounds leave the server out.
    pub(crate) fn is_held(&self) -> bool
        ensures { result ≡ self.now.held }
    {
        self.held
    }

    /// From now on rounds leave the server out, or no more.
    pub(crate) fn hold(&mut self, held: bool)
        ensures { self.new ≡ record self.old { held = held } }
    {
        self.held = held;
    }

    /// Whether the server runs.
    pub(crate) fn is_running(&self) -> bool
        ensures { result ≡ is_some self.now.life }
    {
        self.life.is_some()
    }

    /// Whether a connection stands.
    pub(crate) fn is_connected(&self) -> bool
        ensures { result ≡ is_some self.now.connection }
    {
        self.connection.is_some()
    }

    /// Whether the server is closing the connection.
    pub(crate) fn is_left(&self) -> bool
        ensures { result ≡ is_left nodes self.now }
    {
        match (&self.life, &self.connection) {
            (Some(life), Some(connection)) => life.closing(connection.number),
            _ => false,
        }
    }

    /// Feeds the life changes, one after another.
    fn feed_all(&mut self, alloc: Global, changes: &[Change]) -> Result<(), OutOfMemory>
        ensures { OnOk result (self.new ≡ fed_all nodes changes.now self.old) }
    {
        for change in changes {
            self.happen(alloc, &ServerEvent::Feed { change: *change })?;
        }
        Ok(())
    }

    /// Feeds the life the next changes of the source, up to so many.
    pub(crate) fn feed(
        &mut self,
        alloc: Global,
        source: &[Change],
        count: usize,
    ) -> Result<(), OutOfMemory>
        ensures { OnOk result (self.new ≡ fed nodes count source.now self.old) }
    {
        let position = self.position;
        let next = next_changes(source, position, count);
        self.feed_all(alloc, next)?;
        self.position = position + next.len();
        Ok(())
    }

    /// A connection is made to the life.
    fn accept(&mut self, alloc: Global) -> Result<(), OutOfMemory>
        ensures { OnOk result (self.new ≡ accepted nodes self.old) }
    {
        let number = self.given.saturating_add(1);
        self.given = number;
        self.connection = Some(Connection {
            number,
            there: Vec::new(alloc),
            back: Vec::new(alloc),
        });
        self.happen(alloc, &ServerEvent::Opened { conn: number })
    }

    /// The connection ends, if one stands: what is in flight on it is lost, and the life hears of it.
    pub(crate) fn part(&mut self, alloc: Global) -> Result<(), OutOfMemory>
        ensures { OnOk result (self.new ≡ parted nodes self.old) }
    {
        let conn = match &self.connection {
            Some(connection) => connection.number,
            None => return Ok(()),
        };
        self.connection = None;
        self.happen(alloc, &ServerEvent::Closed { conn })
    }

    /// A connection is made to the life, in place of one that stood.
    pub(crate) fn reconnect(&mut self, alloc: Global) -> Result<(), OutOfMemory>
        ensures { OnOk result (self.new ≡ accepted nodes (parted nodes self.old)) }
    {
        self.part(alloc)?;
        self.accept(alloc)
    }

    /// What came on a connection is heard, in pieces of at most this size.
    fn hear(
        &mut self,
        alloc: Global,
        conn: u32,
        bytes: Vec<u8>,
        size: usize,
    ) -> Result<(), OutOfMemory>
        requires { 1 ≤ size }
        ensures { OnOk result (self.new ≡ happens nodes (nodes.hears conn bytes.items) self.old) }
    {
        if let Some(life) = &mut self.life {
            pieces::serve(alloc, life, conn, bytes, size)?;
        } else {
            return Ok(());
        }
        self.collect(alloc)
    }

    /// All that is in flight to the server comes to it, in pieces of at most this size.
    pub(crate) fn serve(&mut self, alloc: Global, size: usize) -> Result<(), OutOfMemory>
        requires { 1 ≤ size }
        ensures { OnOk result (self.new ≡ served nodes self.old) }
    {
        let Some(connection) = &mut self.connection else {
            return Ok(());
        };
        let conn = connection.number;
        let there = mem::replace(&mut connection.there, Vec::new(alloc));
        self.hear(alloc, conn, there, size)
    }

    /// The life ends, and with it its connection.
    pub(crate) fn stop(&mut self)
        ensures { self.new ≡ stopped self.old }
    {
        self.life = None;
        self.connection = None;
    }

    /// The number of the next life.
    pub(crate) fn next_boot(&self) -> u16
        ensures { result ≡ next_boot self.now }
    {
        self.boot.saturating_add(1)
    }

    /// The next life begins, at this place of the source.
    pub(crate) fn start(&mut self, life: Server, position: usize)
        ensures { self.new ≡ started life.bytes position self.old }
    {
        self.boot = self.next_boot();
        self.life = Some(life);
        self.position = position;
        self.given = 0;
        self.connection = None;
    }

    /// Moves what the client put for this server to what is in flight, if a connection stands.
    #[tactic(auto, using(client_cuts::proofs::Resting::out_rests))]
    pub(crate) fn gather(
        &mut self,
        alloc: Global,
        client: &mut Client,
        server: u8,
    ) -> Result<(), OutOfMemory>
        requires { IsAtRest client.old.bytes }
        ensures slot { OnOk result (self.new ≡ asked_by nodes self.old.connection (nodes.asked server client.old.bytes) self.old) }
        ensures client { OnOk result (client.new.bytes ≡ cleared_by nodes self.old.connection server client.old.bytes) }
        ensures rests { OnOk result (IsAtRest client.new.bytes) }
    {
        if let Some(connection) = &mut self.connection {
            client.take_out(alloc, server, &mut connection.there)?;
        }
        Ok(())
    }

    /// Takes what is in flight to the client, if a connection stands.
    pub(crate) fn take_back(&mut self, alloc: Global) -> Option<Vec<u8>>
        ensures { Takes (λ bytes. bytes.items) result self.old self.new }
    {
        match &mut self.connection {
            Some(connection) => Some(mem::replace(&mut connection.back, Vec::new(alloc))),
            None => None,
        }
    }
}
