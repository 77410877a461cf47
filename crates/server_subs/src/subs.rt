ghost use Rattle.std.specs.Prelude.{◌≡◌, ◌≤◌, ◌<◌, ◌++◌, ◌∷◌, [], is_some, length, map, position, IfOk, IfSome, IsNone, OnErr, OnOk};
ghost use Rattle.std.specs.Option.{option_copied};
ghost use Rattle.retransmit.specs.Kept.{message_of};
ghost use Rattle.subscription.specs.Calls.{acknowledged, added, fed, modified, moved, published, removed, with_enabled, with_mode_of};
ghost use Rattle.subscription.specs.Cycle.{cycled};
ghost use Rattle.subscription.specs.Items.{is_there};
ghost use Rattle.server_rules.specs.State.{changed_if, is_sub, sub_at, without_sub};
ghost use Rattle.server_rules.specs.Publishing.{kept_of};
ghost use Rattle.server_subs.specs.Access.{HasRoom, has_item_of};
ghost use Rattle.server_subs.specs.Outgoing.{outgoing, outgoing_of, row_at};

use crate::outgoing::Outgoing;
use set_model::Change;
use std::alloc::Global;
use std::marker::Model;
use subscription::{Cycle, ItemSpec, SubSpec, Subscription};
use ua_base::{Mode, OutOfMemory};
use ua_structures::UaArray;

/// The place of the subscription of an id.
fn place_of(subs: &[Subscription], id: u32) -> Option<usize>
    ensures place { result ≡ position (is_sub id) subs.now }
    ensures within { IfSome result (λ place. place < length subs.now) }
{
    subs.iter().position(|sub| sub.spec().id == id)
}

/// The subscription of an id.
fn sub_at(subs: &[Subscription], id: u32) -> Option<&Subscription>
    ensures { option_copied result ≡ sub_at id subs.now }
{
    subs.iter().find(|sub| sub.spec().id == id)
}

/// Gives a change to each item that samples it.
fn feed_all(subs: &mut Vec<Subscription>, change: Change)
    ensures { subs.new.items ≡ map (fed change) subs.old.items }
{
    for sub in subs.iter_mut() {
        sub.feed(change);
    }
}

/// Drops the subscription of an id.
fn drop_sub(subs: &mut Vec<Subscription>, id: u32)
    ensures { subs.new.items ≡ without_sub id subs.old.items }
{
    subs.retain(|sub| sub.spec().id != id);
}

/// Appends a subscription, in the place of the one of its id.
fn replace(subs: &mut Vec<Subscription>, sub: Subscription) -> Result<(), OutOfMemory>
    ensures ok { OnOk result (subs.new.items ≡ without_sub sub.spec.id subs.old.items ++ sub ∷ []) }
    ensures err { OnErr result (subs.new.items ≡ without_sub sub.spec.id subs.old.items) }
{
    drop_sub(subs, sub.spec().id);
    subs.push(sub)?;
    Ok(())
}

/// Adds an item to a subscription.
fn add_to(
    alloc: Global,
    sub: &mut Subscription,
    spec: ItemSpec,
    current: Option<Change>,
) -> Result<(), OutOfMemory>
    requires least { 1 ≤ spec.queue }
    requires most { spec.queue ≤ 1000 }
    requires room { HasRoom sub.old }
    ensures added { OnOk result (sub.new ≡ added spec current sub.old) }
    ensures id { sub.new.spec.id ≡ sub.old.spec.id }
{
    sub.add(alloc, spec, current)?;
    Ok(())
}

/// Gives an item of a subscription a mode.
fn set_mode_in(
    sub: &mut Subscription,
    item: u32,
    mode: Mode,
    current: Option<Change>,
) -> Result<bool, OutOfMemory>
    ensures set { sub.new ≡ with_mode_of item mode current sub.old }
    ensures there { IfOk result (λ there. there ≡ is_there item sub.old.items) }
{
    sub.set_mode(item, mode, current)
}

/// Forms a subscription's next message.
fn publish_next(alloc: Global, sub: &mut Subscription, now: i64) -> Result<Outgoing, OutOfMemory>
    ensures out { IfOk result (λ out. out ≡ outgoing_of now sub.old) }
    ensures published { OnOk result (sub.new ≡ published now sub.old) }
    ensures id { sub.new.spec.id ≡ sub.old.spec.id }
{
    let id = sub.spec().id;
    let message = sub.publish(alloc, now)?;
    let mut numbers = Vec::new(alloc);
    sub.numbers(&mut numbers)?;
    Ok(Outgoing {
        id,
        message,
        numbers: UaArray::new(numbers),
        more: sub.more(),
    })
}

/// Acknowledges a message, and tells whether it was kept.
fn ack_one(sub: &mut Subscription, number: u32) -> bool
    ensures known { result ≡ is_some (message_of number sub.old.kept) }
    ensures acknowledged { sub.new ≡ acknowledged number sub.old }
{
    sub.ack(number).is_ok()
}

/// A server's subscriptions, in order of their ids. No two have one id.
#[derive(Debug, Drop)]
pub(crate) struct Subs {
    list: Vec<Subscription>,
}

impl Model for Subs {
    ghost use Rattle.std.specs.Prelude.{List};
    ghost use Rattle.subscription.specs.State.{SubState};
    ghost use Rattle.server_subs.specs.Apart.{AreApart};

    ghost Value = { List SubState };

    ghost view = { λ s. s.list.items };

    ghost invariant = { λ s. AreApart s.list.items };
}

impl Subs {
    /// No subscription.
    pub(crate) fn new(alloc: Global) -> Subs
        ensures { result ≡ [] }
    {
        Subs {
            list: Vec::new(alloc),
        }
    }

    /// The subscriptions, in order.
    pub(crate) fn as_slice(&self) -> &[Subscription]
        ensures { result.now ≡ self.now }
    {
        self.list.as_slice()
    }

    /// The subscription of an id.
    pub(crate) fn get(&self, id: u32) -> Option<&Subscription>
        ensures { option_copied result ≡ sub_at id self.now }
    {
        sub_at(&self.list, id)
    }

    /// Gives a change to each item that samples it.
    pub(crate) fn feed(&mut self, change: Change)
        ensures { self.new ≡ map (fed change) self.old }
    {
        feed_all(&mut self.list, change);
    }

    /// Removes the subscription of an id.
    pub(crate) fn remove(&mut self, id: u32)
        ensures { self.new ≡ without_sub id self.old }
    {
        drop_sub(&mut self.list, id);
    }

    /// Adds a subscription behind the others, in the place of the one of its id.
    pub(crate) fn add(&mut self, sub: Subscription) -> Result<(), OutOfMemory>
        ensures { OnOk result (self.new ≡ without_sub sub.spec.id self.old ++ sub ∷ []) }
    {
        replace(&mut self.list, sub)
    }

    /// A subscription takes what was revised of it.
    pub(crate) fn modify(&mut self, id: u32, spec: SubSpec, now: u64)
        ensures { self.new ≡ map (changed_if id (modified spec now)) self.old }
    {
        match place_of(&self.list, id) {
            Some(place) => self.list[place].modify(spec, now),
            None => {}
        }
    }

    /// Enables publishing of a subscription or disables it.
    pub(crate) fn set_enabled(&mut self, id: u32, enabled: bool)
        ensures { self.new ≡ map (changed_if id (with_enabled enabled)) self.old }
    {
        match place_of(&self.list, id) {
            Some(place) => self.list[place].set_enabled(enabled),
            None => {}
        }
    }

    /// Another session owns a subscription now.
    pub(crate) fn moved(&mut self, id: u32)
        ensures { self.new ≡ map (changed_if id moved) self.old }
    {
        match place_of(&self.list, id) {
            Some(place) => self.list[place].moved(),
            None => {}
        }
    }

    /// Adds an item to a subscription.
    pub(crate) fn add_item(
        &mut self,
        alloc: Global,
        id: u32,
        spec: ItemSpec,
        current: Option<Change>,
    ) -> Result<(), OutOfMemory>
        requires least { 1 ≤ spec.queue }
        requires most { spec.queue ≤ 1000 }
        requires room { IfSome (sub_at id self.old) HasRoom }
        ensures { OnOk result (self.new ≡ map (changed_if id (added spec current)) self.old) }
    {
        match place_of(&self.list, id) {
            Some(place) => add_to(alloc, &mut self.list[place], spec, current),
            None => Ok(()),
        }
    }

    /// Removes an item of a subscription, and answers whether there was one.
    pub(crate) fn remove_item(&mut self, id: u32, item: u32) -> bool
        ensures removed { self.new ≡ map (changed_if id (removed item)) self.old }
        ensures there { result ≡ has_item_of item (sub_at id self.old) }
    {
        match place_of(&self.list, id) {
            Some(place) => self.list[place].remove(item),
            None => false,
        }
    }

    /// Gives an item of a subscription a mode, and answers whether there is one.
    pub(crate) fn set_item_mode(
        &mut self,
        id: u32,
        item: u32,
        mode: Mode,
        current: Option<Change>,
    ) -> Result<bool, OutOfMemory>
        ensures set { OnOk result (self.new ≡ map (changed_if id (with_mode_of item mode current)) self.old) }
        ensures there { IfOk result (λ there. there ≡ has_item_of item (sub_at id self.old)) }
    {
        match place_of(&self.list, id) {
            Some(place) => set_mode_in(&mut self.list[place], item, mode, current),
            None => Ok(false),
        }
    }

    /// One cycle of a subscription, where a Publish is queued for it or none is; it answers which row it took.
    pub(crate) fn timer(&mut self, id: u32, queued: bool) -> Option<Cycle>
        ensures row { result ≡ row_at queued (sub_at id self.old) }
        ensures cycled { self.new ≡ map (changed_if id (cycled queued)) self.old }
        ensures none { IsNone result → self.new ≡ self.old }
    {
        match place_of(&self.list, id) {
            Some(place) => Some(self.list[place].timer(queued)),
            None => None,
        }
    }

    /// Forms the next message of a subscription at a time of the server.
    pub(crate) fn publish(
        &mut self,
        alloc: Global,
        id: u32,
        now: i64,
    ) -> Result<Option<Outgoing>, OutOfMemory>
        ensures out { IfOk result (λ out. out ≡ outgoing now (sub_at id self.old)) }
        ensures published { OnOk result (self.new ≡ map (changed_if id (published now)) self.old) }
        ensures none { IfOk result (λ out. IsNone out → self.new ≡ self.old) }
    {
        match place_of(&self.list, id) {
            Some(place) => Ok(Some(publish_next(alloc, &mut self.list[place], now)?)),
            None => Ok(None),
        }
    }

    /// Acknowledges a message of a subscription, and tells whether it was kept.
    pub(crate) fn ack(&mut self, id: u32, number: u32) -> bool
        ensures known { result ≡ is_some (message_of number (kept_of (sub_at id self.old))) }
        ensures acknowledged { self.new ≡ map (changed_if id (acknowledged number)) self.old }
    {
        match place_of(&self.list, id) {
            Some(place) => ack_one(&mut self.list[place], number),
            None => false,
        }
    }
}
