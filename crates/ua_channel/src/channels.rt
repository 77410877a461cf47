ghost use Rattle.std.specs.Prelude.{[], ◌≡◌, None, Some, OnErr, OnOk, option_copied, unwrap_or, is_some};
ghost use Rattle.std.specs.Ordering.{nat_cmp};
ghost use Rattle.std.specs.BTreeMap.{insert_entry, is_at};
ghost use Rattle.std.specs.Map.{lookup, remove_entry, set_value};

use crate::channel::Channel;
use slab::Slab;
use std::alloc::Global;
use std::collections::BTreeMap;
use std::marker::Model;
use ua_base::OutOfMemory;

/// The ends of a node's connections, by the connections' numbers. A key of the slab may come again, and a number is
/// whatever its caller gives.
#[derive(Drop)]
pub struct Channels {
    slots: Slab<Channel>,
    keys: BTreeMap<u32, usize>,
}

impl Model for Channels {
    ghost use Rattle.std.specs.Prelude.{ℕ, List};
    ghost use Rattle.ua_channel.specs.State.{ChannelState};
    ghost use Rattle.ua_channel.specs.Connections.{AreHeld, shown};

    ghost Value = { List (ℕ × ChannelState) };

    ghost view = { λ c. shown c.slots c.keys.entries };

    ghost invariant = { λ c. AreHeld c.slots c.keys.entries };
}

impl Channels {
    /// No connections.
    pub fn new(alloc: Global) -> Channels
        ensures { result ≡ [] }
    {
        Channels {
            slots: Slab::new(alloc),
            keys: BTreeMap::new(alloc),
        }
    }

    /// Whether a connection has this number.
    pub fn contains(&self, number: u32) -> bool
        ensures { result ≡ is_some (lookup (is_at (nat_cmp number)) self.now) }
    {
        self.at(number).is_some()
    }

    /// The end of the connection of this number.
    pub fn at(&self, number: u32) -> Option<&Channel>
        ensures { option_copied result ≡ lookup (is_at (nat_cmp number)) self.now }
    {
        match self.keys.get(&number) {
            Some(key) => self.slots.get(*key),
            None => None,
        }
    }

    /// The end of a connection of a number that none has.
    pub fn open(&mut self, number: u32, channel: Channel) -> Result<(), OutOfMemory>
        requires { lookup (is_at (nat_cmp number)) self.old ≡ None }
        ensures ok { OnOk result (self.new ≡ insert_entry nat_cmp self.old number channel) }
        ensures unchanged { OnErr result (self.new ≡ self.old) }
    {
        self.slots.reserve(1)?;
        let key = self.slots.vacant_key();
        self.keys.insert(number, key)?;
        self.slots.insert_reserved(channel);
        Ok(())
    }

    /// Takes out the end of the connection of this number. It takes no memory.
    pub fn close(&mut self, number: u32) -> Option<Channel>
        ensures channel { result ≡ lookup (is_at (nat_cmp number)) self.old }
        ensures state { self.new ≡ remove_entry (is_at (nat_cmp number)) self.old }
    {
        match self.keys.remove(&number) {
            Some(key) => self.slots.try_remove(key),
            None => None,
        }
    }

    /// Puts a channel in the place of the one that the connection of this number has, and gives that one; where no
    /// connection has the number it gives back the channel itself. It takes no memory.
    pub fn swap(&mut self, number: u32, channel: Channel) -> Channel
        ensures channel { result ≡ unwrap_or (lookup (is_at (nat_cmp number)) self.old) channel }
        ensures state { self.new ≡ set_value (is_at (nat_cmp number)) self.old channel }
    {
        let Some(key) = self.keys.get(&number) else {
            return channel;
        };
        let Some(former) = self.slots.try_remove(*key) else {
            return channel;
        };
        self.slots.insert_reserved(channel);
        former
    }
}
