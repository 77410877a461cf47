ghost use Rattle.std.specs.Prelude.{◌≡◌, ◌==◌, ◌+◌, ◌≤◌, ◌↔◌, [], ◌++◌, true, false, drop, length, take, slice_get, IfOk, OnOk, OnErr, IsNone};
ghost use Rattle.circular_buffer.specs.Buffer.{buffer};
ghost use Rattle.item_queue.specs.Queue.{empty_queue, marked_first, pushed, replacing, unmarked, without_oldest, without_room};

use circular_buffer::HeapCircularBuffer;
use set_model::Change;
use std::alloc::Global;
use std::marker::Model;
use ua_base::OutOfMemory;

/// One entry of a queue.
#[derive(Clone, Copy, Debug, PartialEq, Eq)]
pub struct Entry {
    /// The change that was sampled.
    pub change: Change,
    /// Whether the queue dropped entries directly before this one. It is sent as the overflow bit of its status
    /// (OPC 10000-4, 7.34.1).
    pub marked: bool,
}

impl Entry {
    /// The entry of a change before which nothing was dropped.
    fn unmarked(change: Change) -> Entry
        ensures { result ≡ unmarked change }
    {
        Entry {
            change,
            marked: false,
        }
    }
}

/// The queue of one monitored item. Its size and which entry it discards are chosen when it is made and never change.
#[derive(Debug, Drop)]
pub struct ItemQueue {
    ring: HeapCircularBuffer<Entry>,
    oldest: bool,
}

impl Model for ItemQueue {
    ghost use Rattle.item_queue.specs.State.{QueueState, IsSized};

    ghost Value = { QueueState };

    ghost view = { λ q. record { oldest = q.oldest; size = q.ring.capacity; entries = q.ring.items } };

    ghost invariant = { λ q. IsSized q.ring.capacity q.ring.items };
}

/// Marks the oldest entry, if there is one.
fn mark_first(ring: &mut HeapCircularBuffer<Entry>)
    requires { length ring.old.items ≤ ring.old.capacity }
    ensures { ring.new ≡ buffer (marked_first ring.old.items) ring.old.capacity }
{
    if let Some(oldest) = ring.pop_front() {
        ring.push_front(Entry {
            marked: true,
            ..oldest
        });
    }
}

/// Puts a change into a full ring: the oldest entry is dropped for it, and the one after that is marked.
fn replace_oldest(ring: &mut HeapCircularBuffer<Entry>, change: Change)
    requires least { 1 ≤ ring.old.capacity }
    requires full { length ring.old.items ≡ ring.old.capacity }
    ensures { ring.new ≡ buffer (without_room true ring.old.capacity change ring.old.items) ring.old.capacity }
{
    ring.pop_front();
    mark_first(ring);
    ring.push_back(Entry::unmarked(change));
}

/// Puts a change into a full ring, in the place of the newest entry, and marks it where there are two places or more.
fn replace_newest(ring: &mut HeapCircularBuffer<Entry>, change: Change)
    requires least { 1 ≤ ring.old.capacity }
    requires full { length ring.old.items ≡ ring.old.capacity }
    ensures { ring.new ≡ buffer (without_room false ring.old.capacity change ring.old.items) ring.old.capacity }
{
    ring.pop_back();
    ring.push_back(Entry {
        change,
        marked: ring.capacity() >= 2,
    });
}

/// Appends the first `count` entries of two parts to a list.
fn append_first(
    first: &[Entry],
    second: &[Entry],
    count: usize,
    to: &mut Vec<Entry>,
) -> Result<(), OutOfMemory>
    requires { count ≤ length first.now + length second.now }
    ensures ok { OnOk result (to.new.items ≡ to.old.items ++ take count (first.now ++ second.now)) }
    ensures err { OnErr result (to.new.items ≡ to.old.items) }
{
    to.reserve(count)?;
    let split = count.min(first.len());
    to.extend_from_slice(&first[..split])?;
    to.extend_from_slice(&second[..count - split])?;
    Ok(())
}

impl ItemQueue {
    /// An empty queue of this size, from 1 to 1,000, with the memory for all its entries (OPC 10000-4, 5.12.1.5,
    /// queueSize). Where it is full, it discards its oldest entry or, with `oldest` false, its newest (discardOldest).
    pub fn new(alloc: Global, size: u32, oldest: bool) -> Result<ItemQueue, OutOfMemory>
        requires least { 1 ≤ size }
        requires most { size ≤ 1000 }
        ensures { IfOk result (λ queue. queue ≡ empty_queue oldest size) }
    {
        let ring = HeapCircularBuffer::with_capacity(alloc, size as usize)?;
        Ok(ItemQueue { ring, oldest })
    }

    /// How many entries it may hold, from 1 to 1,000.
    pub fn size(&self) -> usize
        ensures size { result ≡ self.now.size }
        ensures least { 1 ≤ result }
        ensures most { result ≤ 1000 }
    {
        self.ring.capacity()
    }

    /// How many entries it holds.
    pub fn len(&self) -> usize
        ensures len { result ≡ length self.now.entries }
        ensures within { result ≤ self.now.size }
    {
        self.ring.len()
    }

    /// Whether it holds no entry.
    pub fn is_empty(&self) -> bool
        ensures { result ≡ (length self.now.entries == 0) }
    {
        self.ring.is_empty()
    }

    /// Takes in a new change; it takes no memory (OPC 10000-4, 5.12.1.5, discardOldest). A full queue drops its oldest
    /// entry for it and marks the one after that; or it drops its newest entry and marks the change that comes in its
    /// place. A queue of size 1 only replaces its entry, and marks nothing.
    pub fn push(&mut self, change: Change)
        ensures { self.new ≡ pushed change self.old }
    {
        if !self.ring.is_full() {
            self.ring.push_back(Entry::unmarked(change));
        } else if self.oldest {
            replace_oldest(&mut self.ring, change);
        } else {
            replace_newest(&mut self.ring, change);
        }
    }

    /// Takes the oldest entry out, if there is one.
    pub fn take_one(&mut self) -> Option<Entry>
        ensures entry { result ≡ slice_get self.old.entries 0 }
        ensures none { IsNone result ↔ (self.old.entries ≡ []) }
        ensures rest { self.new ≡ without_oldest 1 self.old }
    {
        self.ring.pop_front()
    }

    /// Moves up to `most` entries, the oldest first, to the end of a list; an empty queue costs a comparison. Where
    /// memory is refused, queue and list are as they were.
    pub fn take(&mut self, most: usize, to: &mut Vec<Entry>) -> Result<(), OutOfMemory>
        ensures entries { OnOk result (to.new.items ≡ to.old.items ++ take most self.old.entries) }
        ensures rest { OnOk result (self.new ≡ without_oldest most self.old) }
        ensures list { OnErr result (to.new.items ≡ to.old.items) }
        ensures queue { OnErr result (self.new ≡ self.old) }
    {
        if self.ring.is_empty() {
            return Ok(());
        }
        let count = most.min(self.ring.len());
        let (first, second) = self.ring.as_slices();
        append_first(first, second, count, to)?;
        self.ring.truncate_front(self.ring.len() - count);
        Ok(())
    }

    /// Drops all entries, for the start of a new stream.
    pub fn clear(&mut self)
        ensures { self.new ≡ empty_queue self.old.oldest self.old.size }
    {
        self.ring.clear();
    }
}
