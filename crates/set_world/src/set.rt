//! The set: its source, its servers and its client, and what happens between them.

ghost use Rattle.std.specs.Prelude.{[], ◌≡◌, ◌++◌, ◌<◌, ◌≤◌, ◌+◌, IfOk, IfSome, length, OnOk};
ghost use Rattle.client_cuts.specs.Resting.{IsAtRest};
ghost use Rattle.direct_world.specs.Server.{place_in};
ghost use Rattle.direct_world.specs.World.{appended};
ghost use Rattle.set_rules.specs.Moves as moves;
ghost use Rattle.set_rules.specs.Rounds as rounds;
ghost use Rattle.set_rules.specs.Slots.{accepted, current_of, currents, fed, happens, parted};
ghost use Rattle.set_rules.specs.World as world;
ghost use Rattle.ua_server.specs.Step as serving;
ghost use Rattle.ua_client.specs.Step.{stepped};
ghost use Rattle.set_world.specs.Flight.{flight_of};
ghost use Rattle.set_world.specs.State.{first_slots};
ghost use Rattle.set_world.specs.Bytes.{beginning, nodes};

use crate::making::{Kind, life};
use crate::pieces;
use crate::slot::Slot;
use direct_world::{append, place_in};
use link_rules::Wish;
use redundancy_nodes::CurrentChanges;
use set_model::{Change, SourceLog};
use std::alloc::Global;
use std::marker::Model;
use ua_base::OutOfMemory;
use ua_client::{Client, ClientEvent};
use ua_server::{Server, ServerEvent};

/// The source, the servers, server 1 first, and the client.
#[derive(Drop)]
pub(crate) struct Set {
    pub(crate) source: SourceLog,
    pub(crate) slots: Vec<Slot>,
    pub(crate) client: Client,
    /// How many bytes come at once at most.
    pub(crate) piece: usize,
}

impl Model for Set {
    ghost use Rattle.std.specs.Prelude.{◌≤◌, length};
    ghost use Rattle.set_world.specs.State.{ByteSet};

    ghost Value = { ByteSet };

    ghost view = { λ s. record { source = s.source; slots = s.slots.items; client = s.client.bytes } };

    ghost invariant = { λ s. (length s.slots.items ≤ 8) × (1 ≤ s.piece) };
}

/// Lets an event of the client happen.
fn learn_one(alloc: Global, client: &mut Client, event: &ClientEvent) -> Result<(), OutOfMemory>
    requires { IsAtRest client.old.bytes }
    ensures bytes { OnOk result (client.new.bytes ≡ stepped event.now client.old.bytes) }
    ensures rests { OnOk result (IsAtRest client.new.bytes) }
{
    client.step(alloc, event)?;
    Ok(())
}

/// Appends an item's current value, if it has one.
fn push_current(list: &mut Vec<Change>, current: Option<Change>) -> Result<(), OutOfMemory>
    ensures { OnOk result (list.new.items ≡ list.old.items ++ current_of current) }
{
    if let Some(change) = current {
        list.push(change)?;
    }
    Ok(())
}

impl Set {
    /// How many servers there are.
    pub(crate) fn count(&self) -> usize
        ensures count { result ≡ length self.now.slots }
        ensures most { result ≤ 8 }
    {
        self.slots.len()
    }

    /// The place of the server of a number.
    pub(crate) fn place_of(&self, server: u8) -> Option<usize>
        ensures place { result ≡ place_in server (length self.now.slots) }
        ensures within { IfSome result (λ place. place < length self.now.slots) }
    {
        place_in(server, self.slots.len())
    }

    /// The bytes in flight to the server, or from it.
    pub(crate) fn flight(&self, server: u8, to_server: bool) -> &[u8]
        ensures { result.now ≡ flight_of [] server to_server self.now }
    {
        match self.place_of(server) {
            Some(place) => self.slots[place].flight(to_server),
            None => &[],
        }
    }

    /// The number of the server at a place.
    fn server(&self, place: usize) -> u8
        requires { place < length self.now.slots }
        ensures { result ≡ place + 1 }
    {
        self.count();
        (place + 1) as u8
    }

    /// Moves what the client put for a server to what is in flight.
    fn gather_at(&mut self, alloc: Global, place: usize) -> Result<(), OutOfMemory>
        requires place { place < length self.old.slots }
        requires rests { IsAtRest self.old.client }
        ensures set { OnOk result (self.new ≡ moves.gathered_at nodes place self.old) }
        ensures width { length self.new.slots ≡ length self.old.slots }
        ensures rests { OnOk result (IsAtRest self.new.client) }
    {
        self.slots[place].gather(alloc, &mut self.client, (place + 1) as u8)
    }

    /// Moves what the client put for each server to what is in flight.
    #[tactic(auto, using(crate::proofs::Counting::gathered_none, crate::proofs::Counting::gathered_next))]
    fn gather(&mut self, alloc: Global) -> Result<(), OutOfMemory>
        requires rests { IsAtRest self.old.client }
        ensures set { OnOk result (self.new ≡ moves.gathered_among nodes (length self.old.slots) self.old) }
        ensures width { length self.new.slots ≡ length self.old.slots }
        ensures rests { OnOk result (IsAtRest self.new.client) }
    {
        for place in 0..self.count() {
            self.gather_at(alloc, place)?;
        }
        Ok(())
    }

    /// Lets an event of the client happen, after which what it put is in flight.
    fn learn(&mut self, alloc: Global, event: &ClientEvent) -> Result<(), OutOfMemory>
        requires rests { IsAtRest self.old.client }
        ensures set { OnOk result (self.new ≡ moves.client_does nodes (stepped event.now) self.old) }
        ensures width { length self.new.slots ≡ length self.old.slots }
        ensures rests { OnOk result (IsAtRest self.new.client) }
    {
        learn_one(alloc, &mut self.client, event)?;
        self.gather(alloc)
    }

    /// The connection to a server ends for both.
    pub(crate) fn lose(&mut self, alloc: Global, place: usize) -> Result<(), OutOfMemory>
        requires place { place < length self.old.slots }
        requires rests { IsAtRest self.old.client }
        ensures set { OnOk result (self.new ≡ moves.lost nodes place self.old) }
        ensures width { length self.new.slots ≡ length self.old.slots }
        ensures rests { OnOk result (IsAtRest self.new.client) }
    {
        if !self.slots[place].is_connected() {
            return Ok(());
        }
        let server = self.server(place);
        self.slots[place].part(alloc)?;
        self.learn(alloc, &ClientEvent::Closed { server })
    }

    /// A server that is stopped refuses.
    fn refuse(&mut self, alloc: Global, place: usize) -> Result<(), OutOfMemory>
        requires place { place < length self.old.slots }
        requires rests { IsAtRest self.old.client }
        ensures set { OnOk result (self.new
            ≡ moves.client_does nodes (nodes.is_refused (place + 1)) self.old) }
        ensures width { length self.new.slots ≡ length self.old.slots }
        ensures rests { OnOk result (IsAtRest self.new.client) }
    {
        let server = self.server(place);
        self.learn(alloc, &ClientEvent::Refused { server })
    }

    /// A connection to a server that runs is made.
    fn connect(&mut self, alloc: Global, place: usize) -> Result<(), OutOfMemory>
        requires place { place < length self.old.slots }
        requires rests { IsAtRest self.old.client }
        ensures set { OnOk result (self.new ≡ moves.client_does nodes (nodes.connects (place + 1))
            (moves.in_slot place (λ s. accepted nodes (parted nodes s)) self.old)) }
        ensures width { length self.new.slots ≡ length self.old.slots }
        ensures rests { OnOk result (IsAtRest self.new.client) }
    {
        let server = self.server(place);
        self.slots[place].reconnect(alloc)?;
        self.learn(alloc, &ClientEvent::Opened { server })
    }

    /// The client dials a server.
    fn dial(&mut self, alloc: Global, place: usize) -> Result<(), OutOfMemory>
        requires place { place < length self.old.slots }
        requires rests { IsAtRest self.old.client }
        ensures set { OnOk result (self.new ≡ moves.dialled nodes place self.old) }
        ensures width { length self.new.slots ≡ length self.old.slots }
        ensures rests { OnOk result (IsAtRest self.new.client) }
    {
        if self.slots[place].is_running() {
            self.connect(alloc, place)
        } else {
            self.refuse(alloc, place)
        }
    }

    /// Takes what the client wishes for the connection to a server.
    #[tactic(auto, using(client_cuts::proofs::Resting::wish_rests))]
    fn take_wish(&mut self, place: usize) -> Wish
        requires place { place < length self.old.slots }
        requires rests { IsAtRest self.old.client }
        ensures wish { result ≡ nodes.wish (place + 1) self.old.client }
        ensures set { self.new ≡ moves.wish_taken nodes place self.old }
        ensures width { length self.new.slots ≡ length self.old.slots }
        ensures rests { IsAtRest self.new.client }
    {
        self.client.take_wish((place + 1) as u8)
    }

    /// Takes the wish behind one for the connection's end, and does it.
    fn close(&mut self, alloc: Global, place: usize) -> Result<(), OutOfMemory>
        requires place { place < length self.old.slots }
        requires rests { IsAtRest self.old.client }
        ensures set { OnOk result (self.new ≡ moves.closed nodes place self.old) }
        ensures width { length self.new.slots ≡ length self.old.slots }
        ensures rests { OnOk result (IsAtRest self.new.client) }
    {
        match self.take_wish(place) {
            Wish::Dial => self.dial(alloc, place),
            Wish::None | Wish::Close => Ok(()),
        }
    }

    /// Does what the client wishes for the connection to a server.
    fn do_wish(&mut self, alloc: Global, place: usize) -> Result<(), OutOfMemory>
        requires place { place < length self.old.slots }
        requires rests { IsAtRest self.old.client }
        ensures set { OnOk result (self.new ≡ moves.wished nodes place self.old) }
        ensures width { length self.new.slots ≡ length self.old.slots }
        ensures rests { OnOk result (IsAtRest self.new.client) }
    {
        match self.take_wish(place) {
            Wish::None => Ok(()),
            Wish::Dial => self.dial(alloc, place),
            Wish::Close => {
                self.slots[place].part(alloc)?;
                self.close(alloc, place)
            }
        }
    }

    /// All that is in flight from a server comes to the client.
    fn receive(&mut self, alloc: Global, place: usize) -> Result<(), OutOfMemory>
        requires place { place < length self.old.slots }
        requires rests { IsAtRest self.old.client }
        ensures set { OnOk result (self.new ≡ moves.learned nodes place self.old) }
        ensures width { length self.new.slots ≡ length self.old.slots }
        ensures rests { OnOk result (IsAtRest self.new.client) }
    {
        let server = self.server(place);
        match self.slots[place].take_back(alloc) {
            Some(back) => {
                pieces::learn(alloc, &mut self.client, server, &back, self.piece)?;
                self.gather(alloc)
            }
            None => Ok(()),
        }
    }

    /// A connection that its server is closing ends.
    fn leave(&mut self, alloc: Global, place: usize) -> Result<(), OutOfMemory>
        requires place { place < length self.old.slots }
        requires rests { IsAtRest self.old.client }
        ensures set { OnOk result (self.new ≡ rounds.left nodes place self.old) }
        ensures width { length self.new.slots ≡ length self.old.slots }
        ensures rests { OnOk result (IsAtRest self.new.client) }
    {
        if self.slots[place].is_left() {
            self.lose(alloc, place)
        } else {
            Ok(())
        }
    }

    fn turn(&mut self, alloc: Global, place: usize) -> Result<(), OutOfMemory>
        requires place { place < length self.old.slots }
        requires rests { IsAtRest self.old.client }
        ensures set { OnOk result (self.new ≡ rounds.turn nodes place self.old) }
        ensures width { length self.new.slots ≡ length self.old.slots }
        ensures rests { OnOk result (IsAtRest self.new.client) }
    {
        self.do_wish(alloc, place)?;
        self.slots[place].serve(alloc, self.piece)?;
        self.receive(alloc, place)?;
        self.leave(alloc, place)
    }

    fn turn_if_free(&mut self, alloc: Global, place: usize) -> Result<(), OutOfMemory>
        requires place { place < length self.old.slots }
        requires rests { IsAtRest self.old.client }
        ensures set { OnOk result (self.new ≡ rounds.turn_if_free nodes place self.old) }
        ensures width { length self.new.slots ≡ length self.old.slots }
        ensures rests { OnOk result (IsAtRest self.new.client) }
    {
        if self.slots[place].is_held() {
            Ok(())
        } else {
            self.turn(alloc, place)
        }
    }

    #[tactic(auto, using(crate::proofs::Counting::turns_none, crate::proofs::Counting::turns_next))]
    fn round(&mut self, alloc: Global) -> Result<(), OutOfMemory>
        requires rests { IsAtRest self.old.client }
        ensures set { OnOk result (self.new ≡ rounds.round nodes self.old) }
        ensures width { length self.new.slots ≡ length self.old.slots }
        ensures rests { OnOk result (IsAtRest self.new.client) }
    {
        for place in 0..self.count() {
            self.turn_if_free(alloc, place)?;
        }
        Ok(())
    }

    /// So many rounds.
    #[tactic(auto, using(crate::proofs::Counting::rounds_none, crate::proofs::Counting::rounds_next))]
    pub(crate) fn pass(&mut self, alloc: Global, count: u32) -> Result<(), OutOfMemory>
        requires rests { IsAtRest self.old.client }
        ensures set { OnOk result (self.new ≡ rounds.rounds nodes count self.old) }
        ensures width { length self.new.slots ≡ length self.old.slots }
        ensures rests { OnOk result (IsAtRest self.new.client) }
    {
        for _before in 0..count {
            self.round(alloc)?;
        }
        Ok(())
    }

    /// Lets an event of a server's life happen.
    pub(crate) fn happen(
        &mut self,
        alloc: Global,
        place: usize,
        event: &ServerEvent,
    ) -> Result<(), OutOfMemory>
        requires place { place < length self.old.slots }
        requires rests { IsAtRest self.old.client }
        ensures set { OnOk result (self.new
            ≡ moves.in_slot place (happens nodes (serving.stepped event.now)) self.old) }
        ensures width { length self.new.slots ≡ length self.old.slots }
        ensures rests { OnOk result (IsAtRest self.new.client) }
    {
        self.slots[place].happen(alloc, event)
    }

    #[tactic(auto, using(crate::proofs::Counting::ticks_none, crate::proofs::Counting::ticks_next))]
    fn tick_servers(&mut self, alloc: Global, ms: u32) -> Result<(), OutOfMemory>
        requires rests { IsAtRest self.old.client }
        ensures set { OnOk result (self.new ≡ rounds.ticked_among nodes ms (length self.old.slots) self.old) }
        ensures width { length self.new.slots ≡ length self.old.slots }
        ensures rests { OnOk result (IsAtRest self.new.client) }
    {
        for place in 0..self.count() {
            self.happen(alloc, place, &ServerEvent::Tick { ms })?;
        }
        Ok(())
    }

    /// So many milliseconds go by.
    pub(crate) fn tick(&mut self, alloc: Global, ms: u32) -> Result<(), OutOfMemory>
        requires rests { IsAtRest self.old.client }
        ensures set { OnOk result (self.new ≡ rounds.ticked nodes ms self.old) }
        ensures width { length self.new.slots ≡ length self.old.slots }
        ensures rests { OnOk result (IsAtRest self.new.client) }
    {
        self.tick_servers(alloc, ms)?;
        self.learn(alloc, &ClientEvent::Tick { ms })
    }

    /// Feeds a server the next changes of the source, up to so many.
    pub(crate) fn feed(
        &mut self,
        alloc: Global,
        place: usize,
        count: u32,
    ) -> Result<(), OutOfMemory>
        requires place { place < length self.old.slots }
        requires rests { IsAtRest self.old.client }
        ensures set { OnOk result (self.new
            ≡ moves.in_slot place (fed nodes count self.old.source) self.old) }
        ensures width { length self.new.slots ≡ length self.old.slots }
        ensures rests { OnOk result (IsAtRest self.new.client) }
    {
        self.slots[place].feed(alloc, self.source.changes(), count as usize)
    }

    /// From now on at most so many bytes come at once, and one at least.
    pub(crate) fn cut(&mut self, bytes: u32)
        ensures { self.new ≡ self.old }
    {
        self.piece = (bytes as usize).max(1);
    }

    /// The source changes.
    pub(crate) fn change(&mut self, change: Change) -> Result<(), OutOfMemory>
        requires rests { IsAtRest self.old.client }
        ensures set { OnOk result (self.new
            ≡ record self.old { source = appended change self.old.source }) }
        ensures width { length self.new.slots ≡ length self.old.slots }
        ensures rests { OnOk result (IsAtRest self.new.client) }
    {
        append(&mut self.source, change)
    }

    /// From now on rounds leave a server out, or no more.
    pub(crate) fn hold(&mut self, place: usize, held: bool)
        requires place { place < length self.old.slots }
        requires rests { IsAtRest self.old.client }
        ensures set { self.new ≡ moves.in_slot place (λ s. record s { held = held }) self.old }
        ensures width { length self.new.slots ≡ length self.old.slots }
        ensures rests { IsAtRest self.new.client }
    {
        self.slots[place].hold(held);
    }

    /// What is in flight to a server still comes to it, and what is in flight from it is lost.
    pub(crate) fn halve(&mut self, alloc: Global, place: usize) -> Result<(), OutOfMemory>
        requires place { place < length self.old.slots }
        requires rests { IsAtRest self.old.client }
        ensures set { OnOk result (self.new ≡ moves.halved nodes place self.old) }
        ensures width { length self.new.slots ≡ length self.old.slots }
        ensures rests { OnOk result (IsAtRest self.new.client) }
    {
        self.slots[place].serve(alloc, self.piece)?;
        self.lose(alloc, place)
    }

    /// The life of a server ends.
    pub(crate) fn stop(&mut self, alloc: Global, place: usize) -> Result<(), OutOfMemory>
        requires place { place < length self.old.slots }
        requires rests { IsAtRest self.old.client }
        ensures set { OnOk result (self.new ≡ moves.ended nodes place self.old) }
        ensures width { length self.new.slots ≡ length self.old.slots }
        ensures rests { OnOk result (IsAtRest self.new.client) }
    {
        let server = self.server(place);
        let was_connected = self.slots[place].is_connected();
        self.slots[place].stop();
        if was_connected {
            self.learn(alloc, &ClientEvent::Closed { server })
        } else {
            Ok(())
        }
    }

    /// The current values of so many items: each one's last change.
    #[tactic(auto, using(crate::proofs::Counting::currents_none, crate::proofs::Counting::currents_next))]
    fn currents(&self, alloc: Global, items: u8) -> Result<CurrentChanges, OutOfMemory>
        ensures { IfOk result (λ current. current ≡ currents items self.now.source) }
    {
        let mut list = Vec::new(alloc);
        for before in 0..items {
            push_current(&mut list, self.source.last_of(before + 1))?;
        }
        Ok(CurrentChanges::new(list))
    }

    /// The life that a server would begin now.
    fn next_life(&self, alloc: Global, kind: Kind, place: usize) -> Result<Server, OutOfMemory>
        requires { place < length self.now.slots }
        ensures { IfOk result (λ life. life.bytes
            ≡ world.next_life nodes (beginning kind.mode kind.servers kind.items) kind.items place self.now) }
    {
        let number = self.server(place);
        let boot = self.slots[place].next_boot();
        let current = self.currents(alloc, kind.items)?;
        life(alloc, kind, number, boot, current)
    }

    /// The next life of a server begins.
    pub(crate) fn start(
        &mut self,
        alloc: Global,
        kind: Kind,
        place: usize,
    ) -> Result<(), OutOfMemory>
        requires place { place < length self.old.slots }
        requires rests { IsAtRest self.old.client }
        ensures set { OnOk result (self.new
            ≡ world.begun nodes (beginning kind.mode kind.servers kind.items) kind.items place self.old) }
        ensures width { length self.new.slots ≡ length self.old.slots }
        ensures rests { OnOk result (IsAtRest self.new.client) }
    {
        let life = self.next_life(alloc, kind, place)?;
        let position = self.source.changes().len();
        self.slots[place].start(life, position);
        Ok(())
    }
}

/// The servers of a set that begins.
#[tactic(auto, using(crate::proofs::Counting::slots_none, crate::proofs::Counting::slots_next))]
pub(crate) fn new_slots(alloc: Global, kind: Kind) -> Result<Vec<Slot>, OutOfMemory>
    ensures { IfOk result (λ slots. slots.items
        ≡ first_slots kind.mode kind.servers kind.items kind.servers) }
{
    let mut slots = Vec::new(alloc);
    for before in 0..kind.servers {
        let none = CurrentChanges::new(Vec::new(alloc));
        let life = life(alloc, kind, before + 1, 1, none)?;
        slots.push(Slot::new(life))?;
    }
    Ok(slots)
}
