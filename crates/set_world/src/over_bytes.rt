ghost use Rattle.std.specs.Prelude.{[], ◌≡◌, ◌≢◌, ◌<◌, ◌≤◌, IfOk, IfSome, OnErr, OnOk, false, length, true};
ghost use Rattle.ua_base.specs.declared.modes.SetMode.TheVariants.{Direct};
ghost use Rattle.client_cuts.specs.Resting.{IsAtRest};
ghost use Rattle.set_rules.specs.World.{after};
ghost use Rattle.set_world.specs.Bytes.{beginning, nodes};
ghost use Rattle.set_world.specs.Flight.{flight_of};
ghost use Rattle.set_world.specs.State.{new_world, world_after};

use crate::making::{Kind, client};
use crate::set::{Set, new_slots};
use scenario::Line;
use set_model::{LogLine, SourceLog};
use std::alloc::Global;
use std::marker::Model;
use ua_base::{OutOfMemory, SetMode};
use ua_server::ServerEvent;

/// How many bytes come at once at most, where no line says it.
const FIRST_PIECE: usize = 65_536;

/// The world of a redundant set: its servers, a client that fails over between them, and the bytes in flight.
#[derive(Drop)]
pub struct OverBytes {
    kind: Kind,
    set: Set,
    failed: bool,
}

impl Model for OverBytes {
    ghost use Rattle.std.specs.Prelude.{◌≡◌, false};
    ghost use Rattle.client_cuts.specs.Resting.{IsAtRest};
    ghost use Rattle.set_world.specs.State.{WorldState};

    ghost Value = { WorldState };

    ghost view = { λ w. record {
      mode = w.kind.mode;
      servers = w.kind.servers;
      items = w.kind.items;
      set = w.set;
      failed = w.failed;
    } };

    ghost invariant = { λ w. w.failed ≡ false → IsAtRest w.set.client };
}

impl OverBytes {
    /// The world when the set begins: every server runs its first life, the client has dialled, and nothing changed yet.
    /// The set has from 1 to 8 servers and each server from 1 to 64 items. The queue of an item holds `queue` values,
    /// from 2 to 1000, and a full one discards its oldest or, with `oldest` false, its newest (OPC 10000-4, 5.12.1.5).
    ///
    /// # Errors
    ///
    /// Want of memory.
    pub fn new(
        alloc: Global,
        mode: SetMode,
        servers: u8,
        items: u8,
        queue: u32,
        oldest: bool,
    ) -> Result<OverBytes, OutOfMemory>
        requires mode { mode ≢ Direct }
        requires servers { (1 ≤ servers) × (servers ≤ 8) }
        ensures { IfOk result (λ world. world ≡ new_world mode servers items queue oldest) }
    {
        let kind = Kind {
            mode,
            servers,
            items,
        };
        let set = new_set(alloc, kind, queue, oldest)?;
        Ok(OverBytes {
            kind,
            set,
            failed: false,
        })
    }

    /// The report of the client so far.
    pub fn lines(&self) -> &[LogLine]
        ensures { result.now ≡ self.now.set.client.hub.log.lines }
    {
        self.set.client.lines()
    }

    /// The bytes in flight to the server of this number, or, with `to_server` false, from it: those that one node put and the
    /// other hasn't taken. They are none where no connection stands, or there is no such server.
    pub fn flight(&self, server: u8, to_server: bool) -> &[u8]
        ensures { result.now ≡ flight_of [] server to_server self.now.set }
    {
        self.set.flight(server, to_server)
    }

    /// Takes the next line of a scenario. A line that names a server that isn't there leaves the world as it is, and so do
    /// those that say nothing of the nodes of a set, as its first two.
    ///
    /// # Errors
    ///
    /// Want of memory. The world has failed then, and answers it from then on; of its state nothing is said.
    pub fn line(&mut self, alloc: Global, line: &Line) -> Result<(), OutOfMemory>
        ensures ok { OnOk result (self.new ≡ world_after line.now self.old) }
        ensures works { OnOk result (self.old.failed ≡ false) }
        ensures failed { OnErr result (self.new.failed ≡ true) }
    {
        if self.failed {
            return Err(OutOfMemory);
        }
        let result = step(alloc, self.kind, &mut self.set, line);
        if result.is_err() {
            self.failed = true;
        }
        result
    }
}

/// What the line does to a set.
fn step(alloc: Global, kind: Kind, set: &mut Set, line: &Line) -> Result<(), OutOfMemory>
    requires { IsAtRest set.old.client }
    ensures set { OnOk result (set.new
        ≡ after nodes (beginning kind.mode kind.servers kind.items) kind.items line.now set.old) }
    ensures rests { OnOk result (IsAtRest set.new.client) }
{
    match *line {
        Line::Change { change } => set.change(change),
        Line::Tick { ms } => set.tick(alloc, ms),
        Line::Pass { rounds } => set.pass(alloc, rounds),
        Line::Feed { server, count } => match set.place_of(server) {
            Some(place) => set.feed(alloc, place, count),
            None => Ok(()),
        },
        Line::Level { server, level } => match set.place_of(server) {
            Some(place) => {
                let event = ServerEvent::Level { level };
                set.happen(alloc, place, &event)
            },
            None => Ok(()),
        },
        Line::Stop { server } => match set.place_of(server) {
            Some(place) => set.stop(alloc, place),
            None => Ok(()),
        },
        Line::Start { server } => match set.place_of(server) {
            Some(place) => set.start(alloc, kind, place),
            None => Ok(()),
        },
        Line::Cut { server } => match set.place_of(server) {
            Some(place) => set.lose(alloc, place),
            None => Ok(()),
        },
        Line::Half { server } => match set.place_of(server) {
            Some(place) => set.halve(alloc, place),
            None => Ok(()),
        },
        Line::Hold { server } => {
            if let Some(place) = set.place_of(server) {
                set.hold(place, true);
            }
            Ok(())
        }
        Line::Free { server } => {
            if let Some(place) = set.place_of(server) {
                set.hold(place, false);
            }
            Ok(())
        }
        Line::Piece { bytes } => {
            set.cut(bytes);
            Ok(())
        }
        _ => Ok(()),
    }
}

/// A set that begins.
fn new_set(alloc: Global, kind: Kind, queue: u32, oldest: bool) -> Result<Set, OutOfMemory>
    requires mode { kind.mode ≢ Direct }
    requires servers { (1 ≤ kind.servers) × (kind.servers ≤ 8) }
    ensures set { IfOk result (λ set. set
        ≡ (new_world kind.mode kind.servers kind.items queue oldest).set) }
    ensures rests { IfOk result (λ set. IsAtRest set.client) }
{
    let client = client(alloc, kind, queue, oldest)?;
    let slots = new_slots(alloc, kind)?;
    Ok(Set {
        source: SourceLog::new(alloc),
        slots,
        client,
        piece: FIRST_PIECE,
    })
}
