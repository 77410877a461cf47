ghost use Rattle.std.specs.Prelude.{◌≡◌, ◌^◌, ◌<◌, ◌≤◌, length, replicate, true, false, OnOk, OnErr, IfOk, IfSome, IsErr, IsTrue, Some};
ghost use Rattle.delivery_log.specs.Log.{CoversServer};
ghost use Rattle.direct_world.specs.Acts.{after_acts, reopening};
ghost use Rattle.direct_world.specs.Server.{place_in, new_server};
ghost use Rattle.direct_world.specs.World.{after, after_step, appended, fed_at, new_world, server_at, started_at, stopped_at, taken_at};

use crate::server::Server;
use crate::shared::{append, place_in};
use delivery_log::{Joint, Log, Turn};
use scenario::Line;
use set_model::{Change, GapCause, LogLine, SourceLog};
use std::alloc::Global;
use std::marker::Model;
use ua_base::OutOfMemory;

/// The world of direct servers: the source, the servers and the client's log.
#[derive(Debug, Drop)]
pub struct World {
    source: SourceLog,
    servers: Vec<Server>,
    log: Log,
    failed: bool,
}

impl Model for World {
    ghost use Rattle.direct_world.specs.State.{WorldState};
    ghost use Rattle.direct_world.specs.Shape.{IsShaped};

    ghost Value = { WorldState };

    ghost view = { λ w. record { source = w.source; servers = w.servers.items; log = w.log; failed = w.failed } };

    ghost invariant = { λ w. IsShaped w.servers.items w.log };
}

/// Makes the joints of a server's items those of a new life.
fn reopen(log: &mut Log, server: u8)
    requires { CoversServer server log.old }
    ensures log { log.new ≡ after_acts (reopening server) log.old }
    ensures items { length log.new.lasts ≡ length log.old.lasts }
    ensures servers { length log.new.joints ≡ length log.old.joints }
{
    log.turn_all(server, Turn::Become(Joint::Open(GapCause::Late)));
}

impl World {
    /// The world when the set begins: every server runs its first life, and nothing changed yet. The queue of an item
    /// holds `queue` entries, from 1 to 1,000. A full one discards its oldest entry or, with `oldest` false, its newest
    /// (OPC 10000-4, 5.12.1.5).
    pub fn new(
        alloc: Global,
        servers: u8,
        items: u8,
        queue: u32,
        oldest: bool,
    ) -> Result<World, OutOfMemory>
        requires least { 1 ≤ queue }
        requires most { queue ≤ 1000 }
        ensures { IfOk result (λ world. world ≡ new_world servers items oldest queue) }
    {
        Ok(World {
            source: SourceLog::new(alloc),
            servers: new_servers(alloc, servers, items, queue, oldest)?,
            log: Log::new(alloc, servers, items)?,
            failed: false,
        })
    }

    /// The client's log so far.
    pub fn lines(&self) -> &[LogLine]
        ensures { result.now ≡ self.now.log.lines }
    {
        self.log.lines()
    }

    /// All changes of the source so far.
    pub fn changes(&self) -> &[Change]
        ensures { result.now ≡ self.now.source }
    {
        self.source.changes()
    }

    fn place_of(&self, server: u8) -> Option<usize>
        ensures place { result ≡ place_in server (length self.now.servers) }
        ensures within { IfSome result (λ place. place < length self.now.servers) }
    {
        place_in(server, self.servers.len())
    }

    fn change(&mut self, change: Change) -> Result<(), OutOfMemory>
        ensures { OnOk result (self.new ≡ record self.old { source = appended change self.old.source }) }
    {
        append(&mut self.source, change)
    }

    fn feed(&mut self, place: usize, count: u32)
        requires { place < length self.old.servers }
        ensures { self.new ≡ after_step (fed_at count place self.old) self.old }
    {
        if self.servers[place].is_running() {
            self.servers[place].feed(&self.source, count);
        }
    }

    fn take(&mut self, alloc: Global, place: usize, count: u32) -> Result<(), OutOfMemory>
        requires { place < length self.old.servers }
        ensures { OnOk result (self.new ≡ after_step (taken_at count place self.old) self.old) }
    {
        if self.servers[place].is_running() {
            self.servers[place].take(alloc, &mut self.log, (place + 1) as u8, count)?;
        }
        Ok(())
    }

    fn stop(&mut self, place: usize)
        requires { place < length self.old.servers }
        ensures { self.new ≡ after_step (stopped_at place self.old) self.old }
    {
        self.servers[place].stop();
    }

    fn start(&mut self, place: usize)
        requires { place < length self.old.servers }
        ensures { self.new ≡ after_step (started_at place self.old) self.old }
    {
        self.servers[place].start(&self.source);
        reopen(&mut self.log, (place + 1) as u8);
    }

    /// What the line does to the world.
    fn step(&mut self, alloc: Global, line: &Line) -> Result<(), OutOfMemory>
        ensures { OnOk result (self.new ≡ after line.now self.old) }
    {
        match *line {
            Line::Change { change } => self.change(change),
            Line::Feed { server, count } => {
                if let Some(place) = self.place_of(server) {
                    self.feed(place, count);
                }
                Ok(())
            }
            Line::Take { server, count } => match self.place_of(server) {
                Some(place) => self.take(alloc, place, count),
                None => Ok(()),
            },
            Line::Stop { server } => {
                if let Some(place) = self.place_of(server) {
                    self.stop(place);
                }
                Ok(())
            }
            Line::Start { server } => {
                if let Some(place) = self.place_of(server) {
                    self.start(place);
                }
                Ok(())
            }
            _ => Ok(()),
        }
    }

    /// Takes the next line of a scenario, after those that `new` was given. A line that names a server that is not
    /// there, and one that says nothing of direct servers, leaves the world as it is. After want of memory the world
    /// has failed, and answers it from then on.
    pub fn line(&mut self, alloc: Global, line: &Line) -> Result<(), OutOfMemory>
        ensures ok { OnOk result (self.new ≡ after line.now self.old) }
        ensures works { OnOk result (self.old.failed ≡ false) }
        ensures failed { OnErr result (self.new.failed ≡ true) }
    {
        if self.failed {
            return Err(OutOfMemory);
        }
        let result = self.step(alloc, line);
        if result.is_err() {
            self.failed = true;
        }
        result
    }
}

fn new_servers(
    alloc: Global,
    servers: u8,
    items: u8,
    queue: u32,
    oldest: bool,
) -> Result<Vec<Server>, OutOfMemory>
    requires least { 1 ≤ queue }
    requires most { queue ≤ 1000 }
    ensures { IfOk result (λ made. made.items ≡ replicate servers (new_server items oldest queue)) }
{
    let mut made = Vec::new(alloc);
    for _server in 0..servers {
        made.push(Server::new(alloc, items, queue, oldest)?)?;
    }
    Ok(made)
}
