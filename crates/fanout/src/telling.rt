ghost use Rattle.std.specs.Prelude.{◌≡◌, ◌∷◌, ◌++◌, ◌+◌, ◌-◌, ◌<◌, ◌≤◌, ◌==◌, ℕ, List, None, Some, IfOk, IfErr, IfSome, OnOk, OnErr, true, false, length, map, vec_len, vec_capacity};
ghost use Rattle.fanout.specs.Calls.{Attach, Detach, Leaves, Remains, Tells, after, is_for, is_full, new_fanout, tally_of};
ghost use Rattle.fanout.specs.Shown.{one_shown, place_from, shown};
ghost use Rattle.fanout.specs.State.{Attached};
ghost use Rattle.fanout.specs.Walk.{IsUnderWay};
ghost use Rattle.fanout.specs.declared.hearing.Stopped.{Stopped};

use crate::attached::{Entry, Fanout};
use crate::hearing::{Listener, NoSuch, Stop, Stopped, Tally};
use set_model::LogLine;
use std::alloc::Global;
use ua_base::OutOfMemory;

/// The most listeners that are attached at a time.
const MOST_ATTACHED: usize = 16;

/// Whether a line is told to the listeners of an item.
fn is_for(line: &LogLine, item: u8) -> bool
    ensures { result ≡ is_for line.now item }
{
    match line {
        LogLine::Delivered { item: of, .. } | LogLine::Gap { item: of, .. } => *of == item,
        LogLine::Switch { .. }
        | LogLine::Ready { .. }
        | LogLine::Lost { .. }
        | LogLine::Unsupported { .. }
        | LogLine::Heard { .. }
        | LogLine::Done { .. } => false,
    }
}

/// Where the listener of an id stands.
fn place_of(entries: &[Entry], id: u8) -> Option<usize>
    ensures place { result ≡ place_from 0 id entries.now }
    ensures within { IfSome result (λ place. place < length entries.now) }
{
    for place in 0..entries.len() {
        if entries[place].id == id {
            return Some(place);
        }
    }
    None
}

/// How many lines an entry's listener was told.
fn summary_of(entry: &Entry) -> Tally
    ensures { result ≡ (heard entry.now.listener).tally }
{
    entry.listener.summary()
}

/// Tells a listener the line if it is one of its item. It answers Err where the listener stops.
fn tell_one(entry: &mut Entry, line: &LogLine) -> Result<(), Stopped>
    ensures remains { OnOk result (Remains line.now (one_shown (λ e. heard e.listener) entry.old) (one_shown (λ e. heard e.listener) entry.new)) }
    ensures leaves { IfErr result (λ stopped. Leaves line.now (one_shown (λ e. heard e.listener) entry.old) stopped) }
{
    if !is_for(line, entry.item) {
        return Ok(());
    }
    match entry.listener.told(line) {
        Ok(()) => Ok(()),
        Err(Stop) => Err(Stopped {
            id: entry.id,
            tally: entry.listener.summary(),
        }),
    }
}

impl Fanout {
    /// Nobody is attached. It takes all memory that attaching needs.
    pub fn new(alloc: Global) -> Result<Fanout, OutOfMemory>
        ensures { IfOk result (λ fanout. shown (λ e. heard e.listener) fanout ≡ new_fanout) }
    {
        let entries = Vec::with_capacity(alloc, MOST_ATTACHED)?;
        Ok(Fanout { entries, last: 0 })
    }

    /// Whether no further listener can be attached now.
    fn is_full(&self) -> bool
        ensures { result ≡ is_full (shown (λ e. heard e.listener) self.now) }
    {
        self.entries.len() >= MOST_ATTACHED || self.last == u8::MAX
    }

    /// From now on the listener is told the item's lines, until it stops or is detached by the id that is given.
    ///
    /// Its box comes back where 16 are attached, or where 255 ids were given. It takes no memory.
    pub fn attach(&mut self, item: u8, listener: Box<dyn Listener>) -> Result<u8, Box<dyn Listener>>
        ensures state { shown (λ e. heard e.listener) self.new ≡ after (Attach item (heard listener)) (shown (λ e. heard e.listener) self.old) }
        ensures id { IfOk result (λ id. id ≡ (shown (λ e. heard e.listener) self.old).last + 1) }
        ensures room { OnOk result (is_full (shown (λ e. heard e.listener) self.old) ≡ false) }
        ensures back { IfErr result (λ back. back ≡ listener) }
        ensures full { OnErr result (is_full (shown (λ e. heard e.listener) self.old) ≡ true) }
    {
        if self.is_full() {
            return Err(listener);
        }
        let id = self.last + 1;
        self.entries.push_reserved(Entry { id, item, listener });
        self.last = id;
        Ok(id)
    }

    /// The listener is told nothing more and is dropped; its tally is the answer.
    pub fn detach(&mut self, id: u8) -> Result<Tally, NoSuch>
        ensures state { shown (λ e. heard e.listener) self.new ≡ after (Detach id) (shown (λ e. heard e.listener) self.old) }
        ensures tally { IfOk result (λ tally. tally_of id (shown (λ e. heard e.listener) self.old).attached ≡ Some tally) }
        ensures none { OnErr result (tally_of id (shown (λ e. heard e.listener) self.old).attached ≡ None) }
    {
        let Some(place) = place_of(&self.entries, id) else {
            return Err(NoSuch);
        };
        let gone = self.entries.remove(place);
        Ok(summary_of(&gone))
    }

    /// Tells the listener at a place the line if it is one of its item, and drops it where it stops. Gives the place of
    /// the listener after it.
    fn tell_at(&mut self, place: usize, line: &LogLine, to: &mut Vec<Stopped>) -> usize
        requires within { place < vec_len self.old.entries }
        requires room { vec_len to.old + vec_len self.old.entries ≤ vec_capacity to.old }
        ensures on { (olds : List Attached) (before : List Stopped)
            → IsUnderWay line.now olds before (shown (λ e. heard e.listener) self.old).attached to.old.items place
            → IsUnderWay line.now olds before (shown (λ e. heard e.listener) self.new).attached to.new.items result }
        ensures last { self.new.last ≡ self.old.last }
        ensures fewer { vec_len self.new.entries - result < vec_len self.old.entries - place }
        ensures capacity { vec_len to.new + vec_len self.new.entries ≤ vec_capacity to.new }
    {
        match tell_one(&mut self.entries[place], line) {
            Ok(()) => place + 1,
            Err(stopped) => {
                self.entries.remove(place);
                to.push_reserved(stopped);
                place
            }
        }
    }

    /// Tells a data or gap line to each listener of its item, by rising id, and any other line to none.
    ///
    /// A listener that stops is dropped, and its id and tally are appended. Where memory is refused nobody was told.
    pub fn tell(&mut self, line: &LogLine, to: &mut Vec<Stopped>) -> Result<(), OutOfMemory>
        ensures ok { OnOk result (Tells line.now (shown (λ e. heard e.listener) self.old) (shown (λ e. heard e.listener) self.new) to.old.items to.new.items) }
        ensures memory { OnErr result (shown (λ e. heard e.listener) self.new ≡ shown (λ e. heard e.listener) self.old) }
        ensures nobody { OnErr result (to.new.items ≡ to.old.items) }
    {
        to.reserve(self.entries.len())?;
        let mut place = 0;
        while place < self.entries.len() {
            place = self.tell_at(place, line, to);
        }
        Ok(())
    }
}
