//! The queue of an item; all its changes are of item 1.

use crate::words::change;
use item_queue::{Entry, ItemQueue};
use rows::{Stop, number, put, put_number, put_truth};
use std::alloc::Global;

#[derive(Drop)]
pub struct QueueTable {
    queue: ItemQueue,
}

/// A queue of this size, which drops its oldest or its newest entry.
fn queue(alloc: Global, size: u32, which: &str) -> Result<ItemQueue, Stop> {
    let oldest = match which {
        "oldest" => true,
        "newest" => false,
        _ => return Err(Stop::BadLine),
    };
    if size < 1 || size > 1000 {
        return Err(Stop::BadLine);
    }
    Ok(ItemQueue::new(alloc, size, oldest)?)
}

fn put_entry(alloc: Global, to: &mut String, entry: Entry) -> Result<(), Stop> {
    put(to, format!(in alloc; "{entry:?}")?.as_str())
}

/// Appends entries, with a space between; none are `-`.
fn put_entries(alloc: Global, to: &mut String, entries: &[Entry]) -> Result<(), Stop> {
    if entries.is_empty() {
        return put(to, "-");
    }
    for (place, entry) in entries.iter().enumerate() {
        if place > 0 {
            put(to, " ")?;
        }
        put_entry(alloc, to, *entry)?;
    }
    Ok(())
}

impl QueueTable {
    pub(crate) fn new(alloc: Global) -> Result<QueueTable, Stop> {
        let queue = queue(alloc, 1, "oldest")?;
        Ok(QueueTable { queue })
    }

    fn begin(&mut self, alloc: Global, size: u32, which: &str) -> Result<(), Stop> {
        self.queue = queue(alloc, size, which)?;
        Ok(())
    }

    fn push(&mut self, at: &str, value: &str) -> Result<(), Stop> {
        self.queue.push(change("1", at, value)?);
        Ok(())
    }

    fn clear(&mut self) -> Result<(), Stop> {
        self.queue.clear();
        Ok(())
    }

    /// Pushes a value at the time that is the value.
    fn push_at(&mut self, value: &str) -> Result<(), Stop> {
        self.push(value, value)
    }

    /// Pushes each of these values, at the time that is the value.
    fn push_each(&mut self, alloc: Global, first: u32, last: u32) -> Result<(), Stop> {
        for value in first..=last {
            self.push_at(&format!(in alloc; "{value}")?)?;
        }
        Ok(())
    }

    fn take_one(&mut self, alloc: Global, to: &mut String) -> Result<(), Stop> {
        match self.queue.take_one() {
            Some(entry) => put_entry(alloc, to, entry),
            None => put(to, "none"),
        }
    }

    fn take(&mut self, alloc: Global, most: usize, to: &mut String) -> Result<(), Stop> {
        let mut taken = Vec::new(alloc);
        self.queue.take(most, &mut taken)?;
        put_entries(alloc, to, &taken)
    }

    /// Makes a call that answers nothing.
    fn make(&mut self, alloc: Global, words: &[&str]) -> Result<(), Stop> {
        match words {
            ["new", size, which] => self.begin(alloc, number(size)?, which),
            ["push", at, value] => self.push(at, value),
            ["pushes", first, last] => self.push_each(alloc, number(first)?, number(last)?),
            ["clear"] => self.clear(),
            _ => Err(Stop::BadLine),
        }
    }

    /// Answers a call of these words.
    pub(crate) fn answer(
        &mut self,
        alloc: Global,
        words: &[&str],
        to: &mut String,
    ) -> Result<(), Stop> {
        match words {
            ["take_one"] => self.take_one(alloc, to),
            ["take", most] => self.take(alloc, number(most)?, to),
            ["len"] => put_number(alloc, to, self.queue.len() as u64),
            ["size"] => put_number(alloc, to, self.queue.size() as u64),
            ["is_empty"] => put_truth(to, self.queue.is_empty()),
            _ => {
                self.make(alloc, words)?;
                put(to, "done")
            }
        }
    }
}
