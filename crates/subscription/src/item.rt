ghost use Rattle.std.specs.Prelude.{◌≡◌, ◌+◌, ◌≤◌, ◌<◌, ◌++◌, length, take, map, IfOk, OnOk, OnErr, vec_len};
ghost use Rattle.std.specs.Vec.{vec_capacity};
ghost use Rattle.std.specs.List.{list_any};
ghost use Rattle.subscription.specs.Items.{count_told, fed_item, has_entries, IsPart, is_disabled, is_reporting, is_there, left, left_of, moded_if, new_item, opened, telling, told, told_of, with_item_mode, with_mode, without_item};
ghost use Rattle.subscription.specs.Message.{notified};
ghost use Rattle.item_queue.specs.Queue.{without_oldest};

use crate::message::notification;
use crate::spec::ItemSpec;
use item_queue::ItemQueue;
use set_model::Change;
use std::alloc::Global;
use std::marker::Model;
use ua_base::{Mode, OutOfMemory, Timestamps};
use ua_sub_msgs::MonitoredItemNotification;

/// A monitored item (OPC 10000-4, 5.12.1).
#[derive(Debug, Drop)]
pub(crate) struct Item {
    id: u32,
    node: u8,
    handle: u32,
    mode: Mode,
    stamps: Timestamps,
    queue: ItemQueue,
}

impl Model for Item {
    ghost use Rattle.subscription.specs.State.{ItemState};

    ghost Value = { ItemState };

    ghost view = { λ i. record { id = i.id; node = i.node; handle = i.handle; mode = i.mode; stamps = i.stamps; queue = i.queue } };
}

/// Whether an item of this mode samples nothing.
fn is_disabled(mode: Mode) -> bool
    ensures { result ≡ is_disabled mode }
{
    match mode {
        Mode::Disabled => true,
        Mode::Sampling | Mode::Reporting => false,
    }
}

/// Whether an item of this mode tells what it samples.
fn is_reporting(mode: Mode) -> bool
    ensures { result ≡ is_reporting mode }
{
    match mode {
        Mode::Disabled | Mode::Sampling => false,
        Mode::Reporting => true,
    }
}

/// Begins a new stream with the current value, if there is one.
fn open(queue: &mut ItemQueue, current: Option<Change>)
    ensures { queue.new ≡ opened current queue.old }
{
    queue.clear();
    if let Some(change) = current {
        queue.push(change);
    }
}

impl Item {
    /// A new item, whose stream begins with the current value where it isn't Disabled.
    pub(crate) fn new(
        alloc: Global,
        id: u32,
        spec: ItemSpec,
        current: Option<Change>,
    ) -> Result<Item, OutOfMemory>
        requires least { 1 ≤ spec.queue }
        requires most { spec.queue ≤ 1000 }
        ensures { IfOk result (λ item. item ≡ new_item id spec current) }
    {
        let queue = ItemQueue::new(alloc, spec.queue, spec.oldest)?;
        let mut item = Item {
            id,
            node: spec.node,
            handle: spec.handle,
            mode: Mode::Disabled,
            stamps: spec.stamps,
            queue,
        };
        item.set_mode(spec.mode, current);
        Ok(item)
    }

    /// Its id.
    pub(crate) fn id(&self) -> u32
        ensures { result ≡ self.now.id }
    {
        self.id
    }

    /// The number of its node.
    pub(crate) fn node(&self) -> u8
        ensures { result ≡ self.now.node }
    {
        self.node
    }

    /// The client's handle.
    pub(crate) fn handle(&self) -> u32
        ensures { result ≡ self.now.handle }
    {
        self.handle
    }

    /// Whether it has an entry to tell.
    pub(crate) fn has_entries(&self) -> bool
        ensures { result ≡ has_entries self.now }
    {
        is_reporting(self.mode) && !self.queue.is_empty()
    }

    /// Gives it a mode. Going to Disabled ends its stream, and leaving Disabled begins one with the current value.
    pub(crate) fn set_mode(&mut self, mode: Mode, current: Option<Change>)
        ensures { self.new ≡ with_mode mode current self.old }
    {
        if is_disabled(mode) {
            self.queue.clear();
        } else if is_disabled(self.mode) {
            open(&mut self.queue, current);
        }
        self.mode = mode;
    }

    /// Takes in a change, where it is of its node and it isn't Disabled.
    fn feed(&mut self, change: Change)
        ensures { self.new ≡ fed_item change self.old }
    {
        if self.node == change.item && !is_disabled(self.mode) {
            self.queue.push(change);
        }
    }

    /// How many entries it tells where there is room for so many.
    fn count_told(&self, room: usize) -> usize
        ensures told { result ≡ count_told room self.now }
        ensures within { result ≤ length self.now.queue.entries }
        ensures room { result ≤ room }
    {
        if is_reporting(self.mode) {
            room.min(self.queue.len())
        } else {
            0
        }
    }

    /// Moves its oldest entry, if there is one, to the end of a list that has room for it.
    fn tell_one(&mut self, now: i64, to: &mut Vec<MonitoredItemNotification>)
        requires { vec_len to.old < vec_capacity to.old }
        ensures item { self.new ≡ record self.old { queue = without_oldest 1 self.old.queue } }
        ensures list { to.new.items
            ≡ to.old.items ++ map (notified now) (map (telling self.old) (take 1 self.old.queue.entries)) }
        ensures len { vec_len to.new ≤ vec_len to.old + 1 }
        ensures room { vec_capacity to.new ≡ vec_capacity to.old }
    {
        if let Some(entry) = self.queue.take_one() {
            to.push_reserved(notification(self.handle, now, self.stamps, entry));
        }
    }

    /// Moves its oldest entries, as many as there is room for in the message, to the end of a list, and answers how
    /// many. Where memory is refused, the item is as it was.
    fn tell(
        &mut self,
        now: i64,
        room: usize,
        to: &mut Vec<MonitoredItemNotification>,
    ) -> Result<usize, OutOfMemory>
        ensures count { IfOk result (λ count. count ≡ count_told room self.old) }
        ensures item { OnOk result (self.new ≡ left_of room self.old) }
        ensures list { OnOk result (to.new.items ≡ to.old.items ++ map (notified now) (told_of room self.old)) }
        ensures unchanged { OnErr result (self.new ≡ self.old) }
    {
        let count = self.count_told(room);
        to.reserve(count)?;
        for _entry in 0..count {
            self.tell_one(now, to);
        }
        Ok(count)
    }
}

/// Gives the item of an id a mode.
fn moded_if(item: &mut Item, id: u32, mode: Mode, current: Option<Change>)
    ensures { item.new ≡ moded_if id mode current item.old }
{
    if item.id == id {
        item.set_mode(mode, current);
    }
}

/// Gives the item of an id a mode.
pub(crate) fn set_mode(items: &mut [Item], id: u32, mode: Mode, current: Option<Change>)
    ensures { items.new ≡ with_item_mode id mode current items.old }
{
    for item in items.iter_mut() {
        moded_if(item, id, mode, current);
    }
}

/// Whether there is an item of this id.
pub(crate) fn is_there(items: &[Item], id: u32) -> bool
    ensures { result ≡ is_there id items.now }
{
    items.iter().any(|item| item.id() == id)
}

/// Takes out the item of an id.
pub(crate) fn remove(items: &mut Vec<Item>, id: u32)
    ensures { items.new.items ≡ without_item id items.old.items }
{
    items.retain(|item| item.id() != id);
}

/// Gives a change to each item that samples it.
pub(crate) fn feed(items: &mut [Item], change: Change)
    ensures { items.new ≡ map (fed_item change) items.old }
{
    for item in items.iter_mut() {
        item.feed(change);
    }
}

/// Whether an item has an entry to tell.
pub(crate) fn have_entries(items: &[Item]) -> bool
    ensures { result ≡ list_any has_entries items.now }
{
    items.iter().any(|item| item.has_entries())
}

/// Moves the items' oldest entries, as many as there is room for in the message, to the end of a list: the items in
/// order.
pub(crate) fn tell(
    items: &mut [Item],
    now: i64,
    most: usize,
    to: &mut Vec<MonitoredItemNotification>,
) -> Result<(), OutOfMemory>
    ensures items { OnOk result (items.new ≡ left most items.old) }
    ensures list { OnOk result (to.new.items ≡ to.old.items ++ map (notified now) (told most items.old)) }
    ensures part { OnErr result (IsPart items.new (left most items.old) items.old) }
{
    let mut room = most;
    for place in 0..items.len() {
        room -= items[place].tell(now, room, to)?;
    }
    Ok(())
}

/// Appends the items' ids and the client's handles to two lists, in the items' order. Where memory is refused, both
/// are as they were.
pub(crate) fn append_ids(
    items: &[Item],
    ids: &mut Vec<u32>,
    handles: &mut Vec<u32>,
) -> Result<(), OutOfMemory>
    ensures ids { OnOk result (ids.new.items ≡ ids.old.items ++ map (λ item. item.id) items.now) }
    ensures handles { OnOk result (handles.new.items ≡ handles.old.items ++ map (λ item. item.handle) items.now) }
    ensures ids_stay { OnErr result (ids.new.items ≡ ids.old.items) }
    ensures handles_stay { OnErr result (handles.new.items ≡ handles.old.items) }
{
    ids.reserve(items.len())?;
    handles.reserve(items.len())?;
    for item in items {
        ids.push_reserved(item.id());
        handles.push_reserved(item.handle());
    }
    Ok(())
}
