ghost use Rattle.std.specs.Prelude.{[], ◌≡◌, ◌≤◌, IfOk, OnErr, OnOk, false, true};
ghost use Rattle.set_world.specs.Worlds.{flight_in, has_failed, lines_of, taken, world_of};

use crate::over_bytes::OverBytes;
use scenario::Line;
use set_model::LogLine;
use std::alloc::Global;
use ua_base::{OutOfMemory, SetMode};

/// The world of a set in any mode.
#[derive(Drop)]
pub enum World {
    /// A client that takes entries from the queues of independent servers.
    Direct(direct_world::World),
    /// A redundant set in hot, warm or cold mode (OPC 10000-4, 6.6.2.4.5), over bytes.
    Redundant(OverBytes),
}

impl World {
    /// The world when the set begins: every server runs its first life, and nothing changed yet. The set has from 1 to 8
    /// servers, and each server so many items, from 1 to 64. The queue of an item holds `queue` values, up to 1000; a full
    /// one discards its oldest or, with `oldest` false, its newest (OPC 10000-4, 5.12.1.5).
    ///
    /// # Errors
    ///
    /// Want of memory.
    pub fn new(
        alloc: Global,
        mode: SetMode,
        servers: u8,
        items: u8,
        queue: u32,
        oldest: bool,
    ) -> Result<World, OutOfMemory>
        requires servers { (1 ≤ servers) × (servers ≤ 8) }
        requires queue { (1 ≤ queue) × (queue ≤ 1000) }
        ensures { IfOk result (λ world. world ≡ world_of mode servers items queue oldest) }
    {
        match mode {
            SetMode::Direct => {
                let world = direct_world::World::new(alloc, servers, items, queue, oldest)?;
                Ok(World::Direct(world))
            }
            SetMode::Hot | SetMode::Warm | SetMode::Cold => {
                let world = OverBytes::new(alloc, mode, servers, items, queue, oldest)?;
                Ok(World::Redundant(world))
            }
        }
    }

    /// The report of the client so far.
    pub fn lines(&self) -> &[LogLine]
        ensures { result.now ≡ lines_of self.now }
    {
        match self {
            World::Direct(world) => world.lines(),
            World::Redundant(world) => world.lines(),
        }
    }

    /// The bytes in flight to the server of this number, or, with `to_server` false, from it: those that one node put and the
    /// other hasn't taken. They are none where no connection stands, or there is no such server; nothing is in flight in a
    /// direct set.
    pub fn flight(&self, server: u8, to_server: bool) -> &[u8]
        ensures { result.now ≡ flight_in server to_server self.now }
    {
        match self {
            World::Direct(_) => &[],
            World::Redundant(world) => world.flight(server, to_server),
        }
    }

    /// Takes the next line of a scenario. A line that names a server that isn't there leaves the world as it is, and so do
    /// those that say nothing of the nodes of such a set, as its first two.
    ///
    /// # Errors
    ///
    /// Want of memory. The world has failed then, and answers it from then on; of its state nothing else is said.
    pub fn line(&mut self, alloc: Global, line: &Line) -> Result<(), OutOfMemory>
        ensures ok { OnOk result (self.new ≡ taken line.now self.old) }
        ensures works { OnOk result (has_failed self.old ≡ false) }
        ensures failed { OnErr result (has_failed self.new ≡ true) }
    {
        match self {
            World::Direct(world) => world.line(alloc, line),
            World::Redundant(world) => world.line(alloc, line),
        }
    }
}
