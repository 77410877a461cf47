//! The calls on a subscription.

use crate::making::{change, current, item, mode, spec};
use crate::telling::{put_list, put_message};
use rows::{Driver, Stop, number, put, put_number, put_truth, truth};
use set_model::Change;
use std::alloc::Global;
use subscription::{MOST_ITEMS, Subscription};

/// The subscription that lines speak of.
#[derive(Drop)]
pub(crate) struct Calls {
    sub: Subscription,
}

impl Calls {
    pub(crate) fn new(sub: Subscription) -> Calls {
        Calls { sub }
    }

    /// Adds an item, where there may be one more.
    fn add(&mut self, alloc: Global, words: [&str; 6], now: &[&str]) -> Result<u32, Stop> {
        let item = item(words)?;
        let current = current(item.node, now)?;
        if self.sub.len() >= MOST_ITEMS || self.sub.given() == u32::MAX {
            return Err(Stop::BadLine);
        }
        Ok(self.sub.add(alloc, item, current)?)
    }

    fn set_mode(&mut self, id: u32, word: &str, now: &[&str]) -> Result<bool, Stop> {
        let current = current(self.sub.node(id).unwrap_or(0), now)?;
        Ok(self.sub.set_mode(id, mode(word)?, current)?)
    }

    /// Feeds each of these values, at the time that is the value.
    fn feed_each(&mut self, node: u8, first: i64, last: i64) {
        for value in first..=last {
            self.sub.feed(Change {
                item: node,
                time: value,
                pico: 0,
                value,
            });
        }
    }

    /// Appends the row that each of so many cycles takes.
    fn put_cycles(
        &mut self,
        alloc: Global,
        to: &mut String,
        queued: bool,
        count: u32,
    ) -> Result<(), Stop> {
        for place in 0..count {
            let space = if place == 0 { "" } else { " " };
            let row = self.sub.timer(queued);
            put(to, format!(in alloc; "{space}{row:?}")?.as_str())?;
        }
        Ok(())
    }

    fn publish(&mut self, alloc: Global, to: &mut String, now: i64) -> Result<(), Stop> {
        let message = self.sub.publish(alloc, now)?;
        put_message(alloc, to, &message)
    }

    /// Feeds a node and publishes, so many times, with the values from 1 on.
    fn publish_each(&mut self, alloc: Global, node: u8, count: i64) -> Result<(), Stop> {
        for value in 1..=count {
            self.feed_each(node, value, value);
            self.sub.publish(alloc, value)?;
        }
        Ok(())
    }

    /// Feeds the nodes 1 to 64 so many changes each.
    fn feed_nodes(&mut self, count: i64) {
        for node in 1..=64 {
            self.feed_each(node, 1, count);
        }
    }

    /// Publishes so many times.
    fn publish_often(&mut self, alloc: Global, count: u32) -> Result<(), Stop> {
        for _ in 0..count {
            self.sub.publish(alloc, 0)?;
        }
        Ok(())
    }

    /// Feeds the nodes 1 to 64 so many changes each and publishes so many times, again and again.
    fn run_rounds(
        &mut self,
        alloc: Global,
        rounds: u32,
        changes: i64,
        messages: u32,
    ) -> Result<(), Stop> {
        for _ in 0..rounds {
            self.feed_nodes(changes);
            self.publish_often(alloc, messages)?;
        }
        Ok(())
    }

    fn put_due(&self, alloc: Global, to: &mut String) -> Result<(), Stop> {
        match self.sub.due() {
            Some(due) => put_number(alloc, to, due),
            None => put(to, "none"),
        }
    }

    fn put_node(&self, alloc: Global, to: &mut String, id: u32) -> Result<(), Stop> {
        match self.sub.node(id) {
            Some(node) => put_number(alloc, to, u64::from(node)),
            None => put(to, "none"),
        }
    }

    fn put_items(&self, alloc: Global, to: &mut String) -> Result<(), Stop> {
        let mut ids = Vec::new(alloc);
        let mut handles = Vec::new(alloc);
        self.sub.items(&mut ids, &mut handles)?;
        put_list(alloc, to, &ids)?;
        put(to, " / ")?;
        put_list(alloc, to, &handles)
    }

    fn put_numbers(&self, alloc: Global, to: &mut String) -> Result<(), Stop> {
        let mut numbers = Vec::new(alloc);
        self.sub.numbers(&mut numbers)?;
        put_list(alloc, to, &numbers)
    }

    fn put_ack(&mut self, alloc: Global, to: &mut String, number: u32) -> Result<(), Stop> {
        match self.sub.ack(number) {
            Ok(()) => put(to, "done"),
            Err(unknown) => put(to, format!(in alloc; "{unknown}")?.as_str()),
        }
    }

    fn put_kept(&self, alloc: Global, to: &mut String, number: u32) -> Result<(), Stop> {
        match self.sub.get(number) {
            Some(message) => put_message(alloc, to, message),
            None => put(to, "none"),
        }
    }

    /// Answers a line that changes something.
    fn change(&mut self, alloc: Global, words: &[&str], to: &mut String) -> Result<(), Stop> {
        match words {
            ["new", interval, keep, life, most, enabled, now] => {
                let spec = spec([interval, keep, life, most, enabled])?;
                self.sub = Subscription::new(alloc, spec, number(now)?)?;
            }
            ["modify", interval, keep, life, most, now] => {
                let spec = spec([interval, keep, life, most, "true"])?;
                self.sub.modify(spec, number(now)?);
            }
            ["enabled", enabled] => self.sub.set_enabled(truth(enabled)?),
            ["moved"] => self.sub.moved(),
            ["feed", node, at, value] => self.sub.feed(change(number(node)?, at, value)?),
            ["feeds", node, first, last] => {
                self.feed_each(number(node)?, number(first)?, number(last)?);
            }
            ["rounds", rounds, changes, messages] => {
                self.run_rounds(alloc, number(rounds)?, number(changes)?, number(messages)?)?;
            }
            ["publishes", node, count] => self.publish_each(alloc, number(node)?, number(count)?)?,
            _ => return Err(Stop::BadLine),
        }
        put(to, "done")
    }
}

impl Driver for Calls {
    fn answer(&mut self, alloc: Global, words: &[&str], to: &mut String) -> Result<(), Stop> {
        match words {
            ["add", node, handle, mode, size, rule, stamps, now @ ..] => {
                let id = self.add(alloc, [node, handle, mode, size, rule, stamps], now)?;
                put_number(alloc, to, u64::from(id))
            }
            ["remove", id] => put_truth(to, self.sub.remove(number(id)?)),
            ["mode", id, mode, now @ ..] => {
                let there = self.set_mode(number(id)?, mode, now)?;
                put_truth(to, there)
            }
            ["timer", queued] => self.put_cycles(alloc, to, truth(queued)?, 1),
            ["timer", queued, count] => self.put_cycles(alloc, to, truth(queued)?, number(count)?),
            ["publish", now] => self.publish(alloc, to, number(now)?),
            ["due"] => self.put_due(alloc, to),
            ["late"] => put_truth(to, self.sub.late()),
            ["more"] => put_truth(to, self.sub.more()),
            ["next"] => put_number(alloc, to, u64::from(self.sub.next())),
            ["node", id] => self.put_node(alloc, to, number(id)?),
            ["items"] => self.put_items(alloc, to),
            ["numbers"] => self.put_numbers(alloc, to),
            ["ack", sent] => self.put_ack(alloc, to, number(sent)?),
            ["get", sent] => self.put_kept(alloc, to, number(sent)?),
            _ => self.change(alloc, words, to),
        }
    }
}
