ghost use Rattle.std.specs.Prelude.{◌≡◌, ℕ, ◌+◌, ◌-◌, ◌^◌, ◌<◌, ◌≤◌, [], Some, None, length, take, drop, max, OnOk, OnErr, IfOk, IfSome};
ghost use Rattle.item_queue.specs.Queue.{without_oldest};
ghost use Rattle.delivery_log.specs.Log.{Covers};
ghost use Rattle.direct_world.specs.Acts.{after_acts, entering, taking, taking_place};
ghost use Rattle.direct_world.specs.Server.{place_in, pushed_at, new_server, next_of, pushed_all, fed, stopped, opened, opened_all, values_of, started, arrived, left_after, taken_place};
ghost use Rattle.direct_world.specs.Lives.{values_from};

use crate::shared::{next_changes, place_in};
use delivery_log::Log;
use item_queue::{Entry, ItemQueue};
use set_model::{Arrived, Change, Seen, SourceLog};
use std::alloc::Global;
use std::marker::Model;
use ua_base::OutOfMemory;
use ua_base::status::OVERFLOW_BITS;

/// One server: its life, if it runs, and the queue of each item.
#[derive(Debug, Drop)]
pub(crate) struct Server {
    boot: u16,
    running: bool,
    position: usize,
    queues: Vec<ItemQueue>,
}

impl Model for Server {
    ghost use Rattle.direct_world.specs.State.{ServerState};

    ghost Value = { ServerState };

    ghost view = { λ s. record { boot = s.boot; running = s.running; position = s.position; queues = s.queues.items } };
}

/// Pushes a change into the queue of its item, if there is one.
fn push_change(queues: &mut [ItemQueue], change: Change)
    ensures { queues.new ≡ pushed_at (place_in change.item (length queues.old)) change queues.old }
{
    if let Some(place) = place_in(change.item, queues.len()) {
        queues[place].push(change);
    }
}

fn push_all(queues: &mut [ItemQueue], changes: &[Change])
    ensures { queues.new ≡ pushed_all changes.now queues.old }
{
    for change in changes {
        push_change(queues, *change);
    }
}

/// An entry as it reaches the client (OPC 10000-4, 7.7): a mark is the overflow bit of its status.
fn arrived(entry: Entry) -> Arrived
    ensures { result ≡ arrived entry }
{
    Arrived {
        time: Some(entry.change.stamp()),
        value: Seen::Whole(entry.change.value),
        status: if entry.marked { OVERFLOW_BITS } else { 0 },
    }
}

/// Moves the oldest entry of a queue, if there is one, into the client's log.
fn take_entry(
    alloc: Global,
    queue: &mut ItemQueue,
    log: &mut Log,
    server: u8,
    item: u8,
) -> Result<(), OutOfMemory>
    requires { Covers server item log.old }
    ensures queue { OnOk result (queue.new ≡ without_oldest 1 queue.old) }
    ensures log { OnOk result (log.new ≡ after_acts (entering server item (take 1 queue.old.entries)) log.old) }
    ensures items { length log.new.lasts ≡ length log.old.lasts }
    ensures servers { length log.new.joints ≡ length log.old.joints }
{
    match queue.take_one() {
        Some(entry) => log.enter(alloc, server, item, &arrived(entry)),
        None => Ok(()),
    }
}

/// Moves up to so many oldest entries of a queue into the client's log. An empty queue costs a comparison.
fn take_item(
    alloc: Global,
    queue: &mut ItemQueue,
    log: &mut Log,
    server: u8,
    item: u8,
    count: usize,
) -> Result<(), OutOfMemory>
    requires { Covers server item log.old }
    ensures queue { OnOk result (queue.new ≡ without_oldest count queue.old) }
    ensures log { OnOk result (log.new ≡ after_acts (entering server item (take count queue.old.entries)) log.old) }
    ensures items { length log.new.lasts ≡ length log.old.lasts }
    ensures servers { length log.new.joints ≡ length log.old.joints }
{
    for _entry in 0..count.min(queue.len()) {
        take_entry(alloc, queue, log, server, item)?;
    }
    Ok(())
}

/// Moves up to so many oldest entries of the queue of a place, from 0 on, into the client's log.
fn take_place(
    alloc: Global,
    queues: &mut [ItemQueue],
    log: &mut Log,
    server: u8,
    place: usize,
    count: usize,
) -> Result<(), OutOfMemory>
    requires place { place < length queues.old }
    requires server { (1 ≤ server) × (server ≤ length log.old.joints) }
    requires items { length queues.old ≤ length log.old.lasts }
    requires few { length log.old.lasts < 2 ^ 8 }
    ensures queues { OnOk result (queues.new ≡ taken_place place count queues.old) }
    ensures log { OnOk result (log.new ≡ after_acts (taking_place server place count queues.old) log.old) }
    ensures width { length queues.new ≡ length queues.old }
    ensures items { length log.new.lasts ≡ length log.old.lasts }
    ensures servers { length log.new.joints ≡ length log.old.joints }
{
    take_item(
        alloc,
        &mut queues[place],
        log,
        server,
        (place + 1) as u8,
        count,
    )
}

/// Moves up to so many oldest entries of each queue into the client's log, item 1 first.
fn take_all(
    alloc: Global,
    queues: &mut [ItemQueue],
    log: &mut Log,
    server: u8,
    count: usize,
) -> Result<(), OutOfMemory>
    requires server { (1 ≤ server) × (server ≤ length log.old.joints) }
    requires items { length queues.old ≤ length log.old.lasts }
    requires few { length log.old.lasts < 2 ^ 8 }
    ensures queues { OnOk result (queues.new ≡ left_after count queues.old) }
    ensures log { OnOk result (log.new ≡ after_acts (taking server 1 count queues.old) log.old) }
    ensures items { length log.new.lasts ≡ length log.old.lasts }
    ensures servers { length log.new.joints ≡ length log.old.joints }
{
    for place in 0..queues.len() {
        take_place(alloc, queues, log, server, place, count)?;
    }
    Ok(())
}

/// Begins a new stream with the item's current value, if it has one.
fn open(queue: &mut ItemQueue, current: Option<Change>)
    ensures { queue.new ≡ opened current queue.old }
{
    queue.clear();
    if let Some(change) = current {
        queue.push(change);
    }
}

/// Begins a new stream of each item.
fn open_all(queues: &mut [ItemQueue], source: &SourceLog)
    requires { length queues.old < 2 ^ 8 }
    ensures { queues.new ≡ opened_all (values_from 1 (length queues.old) source.now) queues.old }
{
    for place in 0..queues.len() {
        let current = source.last_of((place + 1) as u8);
        open(&mut queues[place], current);
    }
}

impl Server {
    /// A server that runs from the beginning of the set.
    pub(crate) fn new(
        alloc: Global,
        items: u8,
        size: u32,
        oldest: bool,
    ) -> Result<Server, OutOfMemory>
        requires least { 1 ≤ size }
        requires most { size ≤ 1000 }
        ensures made { IfOk result (λ s. s ≡ new_server items oldest size) }
        ensures width { IfOk result (λ s. length s.queues ≡ items) }
    {
        let mut queues = Vec::new(alloc);
        for _item in 0..items {
            queues.push(ItemQueue::new(alloc, size, oldest)?)?;
        }
        Ok(Server {
            boot: 1,
            running: true,
            position: 0,
            queues,
        })
    }

    /// Gives the server the next changes of the source, up to so many.
    pub(crate) fn feed(&mut self, source: &SourceLog, count: u32)
        ensures fed { self.new ≡ fed (next_of count source.now self.old) self.old }
        ensures width { length self.new.queues ≡ length self.old.queues }
    {
        let next = next_changes(source.changes(), self.position, count as usize);
        push_all(self.queues.as_mut_slice(), next);
        self.position += next.len();
    }

    pub(crate) fn stop(&mut self)
        ensures stopped { self.new ≡ stopped self.old }
        ensures width { length self.new.queues ≡ length self.old.queues }
    {
        self.running = false;
    }

    /// Begins the next life: at the end of the source, with each item's last change as its current value.
    pub(crate) fn start(&mut self, source: &SourceLog)
        requires { length self.old.queues < 2 ^ 8 }
        ensures started { self.new ≡ started source.now self.old }
        ensures width { length self.new.queues ≡ length self.old.queues }
    {
        open_all(self.queues.as_mut_slice(), source);
        self.boot = self.boot.saturating_add(1);
        self.running = true;
        self.position = source.changes().len();
    }

    /// Moves up to so many oldest entries of each queue into the client's log.
    pub(crate) fn take(
        &mut self,
        alloc: Global,
        log: &mut Log,
        number: u8,
        count: u32,
    ) -> Result<(), OutOfMemory>
        requires server { (1 ≤ number) × (number ≤ length log.old.joints) }
        requires items { length self.old.queues ≤ length log.old.lasts }
        requires few { length log.old.lasts < 2 ^ 8 }
        ensures server { OnOk result (self.new ≡ record self.old { queues = left_after count self.old.queues }) }
        ensures log { OnOk result (log.new ≡ after_acts (taking number 1 count self.old.queues) log.old) }
        ensures width { length self.new.queues ≡ length self.old.queues }
        ensures items { length log.new.lasts ≡ length log.old.lasts }
        ensures servers { length log.new.joints ≡ length log.old.joints }
    {
        take_all(
            alloc,
            self.queues.as_mut_slice(),
            log,
            number,
            count as usize,
        )
    }

    /// Whether a life of it goes on.
    pub(crate) fn is_running(&self) -> bool
        ensures { result ≡ self.now.running }
    {
        self.running
    }
}
