ghost use Rattle.std.specs.Prelude.{◌≡◌, ◌≤◌, false, true, OnErr, OnOk};
ghost use Rattle.link_rules.specs.State.{is_idle, is_ready};
ghost use Rattle.link_rules.specs.Opening as opening;
ghost use Rattle.link_rules.specs.Step as rules;
ghost use Rattle.ua_link.specs.Talk.{held_of, life_of, new_talk, stepped, with_link, with_talk, without_notices, without_out};

use crate::event::LinkEvent;
use crate::step;
use crate::telling::Telling;
use link_rules::{LinkConfig, Notice, Wish};
use std::alloc::Global;
use std::marker::Model;
use ua_base::OutOfMemory;
use ua_channel::{Channel, Side};

/// A link over bytes.
#[derive(Drop)]
pub struct LinkTalk {
    telling: Telling,
    channel: Channel,
    failed: bool,
}

impl Model for LinkTalk {
    ghost use Rattle.std.specs.Coded.{codes};
    ghost use Rattle.ua_variants.specs.contracts.variant.Variant as variant;
    ghost use Rattle.ua_channel.specs.Node.{node_of};
    ghost use Rattle.ua_link.specs.Talk.{Life};

    ghost Value = { Life };

    ghost coded = { Prim.hlevel (codes, variant.the_row.coded) };

    ghost view = { λ t. record { failed = t.failed; talk = node_of t.telling t.channel } };
}

impl LinkTalk {
    /// A link that begins. It takes no memory.
    pub fn new(alloc: Global, config: LinkConfig) -> LinkTalk
        ensures { result ≡ life_of (new_talk config) }
    {
        LinkTalk {
            telling: Telling::new(alloc, config),
            channel: Channel::new(alloc, Side::Client),
            failed: false,
        }
    }

    /// Lets an event happen. Every fault of the server closes the link.
    ///
    /// # Errors
    ///
    /// Want of memory, and nothing else. The link has failed then, and answers it from then on; of its state nothing is
    /// said.
    pub fn step(&mut self, alloc: Global, event: &LinkEvent) -> Result<(), OutOfMemory>
        ensures state { OnOk result (self.new ≡ life_of (stepped event.now self.old.talk)) }
        ensures lived { OnOk result (self.old.failed ≡ false) }
        ensures failed { OnErr result (self.new.failed ≡ true) }
    {
        if self.failed {
            return Err(OutOfMemory);
        }
        match step::step(alloc, &mut self.telling, &mut self.channel, event) {
            Ok(()) => Ok(()),
            Err(OutOfMemory) => {
                self.failed = true;
                Err(OutOfMemory)
            }
        }
    }

    /// Whether memory was refused to an event.
    pub fn failed(&self) -> bool
        ensures { result ≡ self.now.failed }
    {
        self.failed
    }

    /// The bytes for the server that weren't taken.
    pub fn out(&self) -> &[u8]
        ensures { result.now ≡ self.now.talk.channel.out }
    {
        self.channel.out()
    }

    /// Gives those bytes.
    pub fn take_out(&mut self, alloc: Global) -> Vec<u8>
        ensures bytes { result.items ≡ self.old.talk.channel.out }
        ensures state { self.new ≡ with_talk (without_out self.old.talk) self.old }
    {
        self.channel.take_out(alloc)
    }

    /// What it told that wasn't taken, in order.
    pub fn notices(&self) -> &[Notice]
        ensures { result.now ≡ self.now.talk.core.notices }
    {
        self.telling.notices.as_slice()
    }

    /// Gives those notices.
    pub fn take_notices(&mut self, alloc: Global) -> Vec<Notice>
        ensures notices { result.items ≡ self.old.talk.core.notices }
        ensures state { self.new ≡ with_talk (without_notices self.old.talk) self.old }
    {
        self.telling.take_notices(alloc)
    }

    /// Takes what it wishes for its connection: a wish is taken once.
    pub fn take_wish(&mut self) -> Wish
        ensures wish { result ≡ rules.wish_of self.old.talk.core.link }
        ensures state { self.new ≡ with_talk (with_link (rules.wish_taken self.old.talk.core.link) self.old.talk) self.old }
    {
        self.telling.link.take_wish()
    }

    /// Whether it may wish for a connection.
    pub fn may_dial(&self) -> bool
        ensures { result ≡ opening.may_dial self.now.talk.core.link }
    {
        self.telling.link.may_dial()
    }

    /// Whether it has no connection.
    pub fn is_idle(&self) -> bool
        ensures { result ≡ is_idle self.now.talk.core.link }
    {
        self.telling.link.is_idle()
    }

    /// Whether its subscription sends.
    pub fn is_ready(&self) -> bool
        ensures { result ≡ is_ready self.now.talk.core.link }
    {
        self.telling.link.is_ready()
    }

    /// How many bytes are held of what came and is no whole message: never more than `ua_channel::MOST_HELD`, whatever
    /// came, and none where nothing is heard.
    pub fn held(&self) -> usize
        ensures bytes { result ≡ held_of self.now.talk }
        ensures bound { result ≤ 1114111 }
    {
        self.channel.held(self.telling.link.ear())
    }
}
