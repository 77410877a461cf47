//! What each millisecond brings.

ghost use Rattle.std.specs.Prelude.{◌≡◌, ◌+◌, ◌-◌, ◌^◌, ◌++◌, ◌∷◌, [], ◌<◌, ◌≤◌, filter, map, IfOk, OnOk};
ghost use Rattle.sessions.specs.Sound.{IsSound};
ghost use Rattle.server_rules.specs.Said.{each, orders_of};
ghost use Rattle.server_rules.specs.Timer.{cycle, has_come, ids_due, is_waiting, moment, sends_for, ticked};
ghost use Rattle.server_subs.specs.Due.{advanced, due_or_last, next_age, subs_due};
ghost use Rattle.server_subs.specs.Continuing.{Continues};

use crate::data::ServerData;
use std::alloc::Global;
use subscription::{Cycle, Subscription};
use ua_base::OutOfMemory;
use ua_channel::Order;

/// Whether a moment has come.
fn has_come(age: u64, due: Option<u64>) -> bool
    ensures { result ≡ has_come age due }
{
    match due {
        Some(due) => due <= age,
        None => false,
    }
}

/// Appends a subscription's id, where its cycle is due.
fn add_due(age: u64, sub: &Subscription, to: &mut Vec<u32>) -> Result<(), OutOfMemory>
    ensures { OnOk result (to.new.items
        ≡ to.old.items ++ map (λ sub. sub.spec.id) (filter (λ sub. has_come age sub.due) (sub.now ∷ []))) }
{
    if has_come(age, sub.due()) {
        to.push(sub.spec().id)?;
    }
    Ok(())
}

/// The ids of the subscriptions whose cycle is due at an age, in order.
fn ids_due(alloc: Global, subs: &[Subscription], age: u64) -> Result<Vec<u32>, OutOfMemory>
    ensures { IfOk result (λ ids. ids.items ≡ map (λ sub. sub.spec.id) (filter (λ sub. has_come age sub.due) subs.now)) }
{
    let mut ids = Vec::new(alloc);
    for sub in subs {
        add_due(age, sub, &mut ids)?;
    }
    Ok(ids)
}

/// The age at which a subscription's cycle is due.
fn due_or_last(sub: &Subscription) -> u64
    ensures { result ≡ due_or_last sub.now.due }
{
    match sub.due() {
        Some(due) => due,
        None => u64::MAX,
    }
}

/// The earliest age at which a cycle is due.
fn subs_due(subs: &[Subscription]) -> u64
    ensures { result ≡ subs_due subs.now }
{
    let mut due = u64::MAX;
    for sub in subs {
        due = due.min(due_or_last(sub));
    }
    due
}

impl ServerData {
    /// Whether a Publish of a session is queued.
    fn is_waiting(&self, owner: Option<u32>) -> bool
        ensures { result ≡ is_waiting owner self.now }
    {
        match owner {
            Some(session) => self.sessions.waits(session),
            None => false,
        }
    }

    /// One cycle of a subscription (OPC 10000-4, 5.13.1.2).
    #[tactic(auto, unfolding(server_rules::specs::Timer::cycle))]
    fn cycle(
        &mut self,
        alloc: Global,
        id: u32,
        to: &mut Vec<(u32, Order)>,
    ) -> Result<(), OutOfMemory>
        ensures state { OnOk result (self.new ≡ (cycle id self.old).state) }
        ensures orders { OnOk result (to.new.items ≡ to.old.items ++ orders_of (cycle id self.old).said) }
    {
        let owner = self.sessions.owner(id);
        let queued = self.is_waiting(owner);
        match self.subs.timer(id, queued) {
            None | Some(Cycle::Quiet | Cycle::Late) => Ok(()),
            Some(Cycle::Notify | Cycle::KeepAlive) => self.send_for(alloc, owner, id, to),
            Some(Cycle::Expired) => self.expire_sub(alloc, id, to),
        }
    }

    /// A subscription sends with the queued Publishes of the session that owns it.
    fn send_for(
        &mut self,
        alloc: Global,
        owner: Option<u32>,
        id: u32,
        to: &mut Vec<(u32, Order)>,
    ) -> Result<(), OutOfMemory>
        ensures state { OnOk result (self.new ≡ (sends_for owner id self.old).state) }
        ensures orders { OnOk result (to.new.items ≡ to.old.items ++ orders_of (sends_for owner id self.old).said) }
    {
        match owner {
            Some(session) => self.sends(alloc, id, session, to),
            None => Ok(()),
        }
    }

    /// The subscriptions whose cycle is due.
    fn ids_due(&self, alloc: Global) -> Result<Vec<u32>, OutOfMemory>
        ensures { IfOk result (λ ids. ids.items ≡ ids_due self.now) }
    {
        ids_due(alloc, self.subs.as_slice(), self.age)
    }

    /// The cycles of these subscriptions, in turn.
    fn cycles(
        &mut self,
        alloc: Global,
        ids: &[u32],
        to: &mut Vec<(u32, Order)>,
    ) -> Result<(), OutOfMemory>
        ensures state { OnOk result (self.new ≡ (each cycle ids.now self.old).state) }
        ensures orders { OnOk result (to.new.items ≡ to.old.items ++ orders_of (each cycle ids.now self.old).said) }
    {
        for id in ids {
            self.cycle(alloc, *id, to)?;
        }
        Ok(())
    }

    /// What is due at this age.
    #[tactic(auto, unfolding(server_rules::specs::Timer::moment))]
    fn moment(&mut self, alloc: Global, to: &mut Vec<(u32, Order)>) -> Result<(), OutOfMemory>
        ensures state { OnOk result (self.new ≡ (moment self.old).state) }
        ensures orders { OnOk result (to.new.items ≡ to.old.items ++ orders_of (moment self.old).said) }
    {
        let ids = self.ids_due(alloc)?;
        self.cycles(alloc, &ids, to)?;
        self.sessions.expire(self.age);
        Ok(())
    }

    /// The next age at which something may be due.
    fn next_age(&self) -> u64
        requires { self.now.age < 2 ^ 64 - 1 }
        ensures { result ≡ next_age self.now }
    {
        let due = self.sessions.due().min(subs_due(self.subs.as_slice()));
        due.max(self.age + 1)
    }

    /// Lets time go by up to the next age at which something may be due, or up to an end before it.
    fn advance(
        &mut self,
        alloc: Global,
        end: u64,
        to: &mut Vec<(u32, Order)>,
    ) -> Result<(), OutOfMemory>
        requires { self.old.age < end }
        ensures state { OnOk result (self.new ≡ (advanced end self.old).state) }
        ensures orders { OnOk result (to.new.items ≡ to.old.items ++ orders_of (advanced end self.old).said) }
        ensures sound { IsSound self.old.sessions }
    {
        self.sessions.sound();
        let next = self.next_age();
        if next <= end {
            self.age = next;
            self.moment(alloc, to)
        } else {
            self.age = end;
            Ok(())
        }
    }

    /// Lets time go by on the way to an end, and at least a millisecond.
    fn leap(
        &mut self,
        alloc: Global,
        end: u64,
        to: &mut Vec<(u32, Order)>,
    ) -> Result<(), OutOfMemory>
        requires { self.old.age < end }
        ensures left { OnOk result (Continues (ticked (end - self.new.age) self.new) (ticked (end - self.old.age) self.old)
            to.new.items to.old.items) }
        ensures later { OnOk result (self.old.age < self.new.age) }
        ensures early { OnOk result (self.new.age ≤ end) }
    {
        self.advance(alloc, end, to)?;
        Ok(())
    }

    /// So many milliseconds go by: the cycles and the expiries that are due, in order of time. At the last age,
    /// `u64::MAX`, time stands.
    pub fn tick(
        &mut self,
        alloc: Global,
        ms: u32,
        to: &mut Vec<(u32, Order)>,
    ) -> Result<(), OutOfMemory>
        ensures state { OnOk result (self.new ≡ (ticked ms self.old).state) }
        ensures orders { OnOk result (to.new.items ≡ to.old.items ++ orders_of (ticked ms self.old).said) }
    {
        let end = self.age.saturating_add(u64::from(ms));
        while self.age < end {
            self.leap(alloc, end, to)?;
        }
        Ok(())
    }
}
