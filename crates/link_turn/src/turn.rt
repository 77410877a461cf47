ghost use Rattle.std.specs.Prelude.{◌≡◌, ◌∷◌, [], true, OnOk};
ghost use Rattle.link_rules.specs.Said.{tells};
ghost use Rattle.link_rules.specs.State.{forgotten, with_conversation, with_phase, with_ready, with_remembered};
ghost use Rattle.link_rules.specs.Messages.{acknowledged, awaits};
ghost use Rattle.link_rules.specs.Subscribing.{made};
ghost use Rattle.link_rules.specs.Opening.{connected};
ghost use Rattle.link_rules.specs.Time.{aged};
ghost use Rattle.link_turn.specs.Turns.{done, new_turn, with_link};

use crate::link::Link;
use link_rules::{Conversation, Monitored, Notice, Phase, ReadyState, Remembered};
use std::alloc::Global;
use std::marker::Model;
use ua_base::OutOfMemory;
use ua_channel::Order;
use ua_values::{NodeId, UaText};

/// One turn of a link: the link, the orders that it gave so far and the notices that it told so far.
#[derive(Debug, Drop)]
pub struct Turn {
    pub(crate) link: Link,
    pub(crate) orders: Vec<Order>,
    pub(crate) notices: Vec<Notice>,
}

impl Model for Turn {
    ghost use Rattle.std.specs.Coded.{codes};
    ghost use Rattle.ua_variants.specs.contracts.variant.Variant as variant;
    ghost use Rattle.link_turn.specs.Turns.{TurnState};

    ghost Value = { TurnState };

    ghost coded = { Prim.hlevel (codes, variant.the_row.coded) };

    ghost view = { λ t. record { link = t.link; orders = t.orders.items; notices = t.notices.items } };
}

impl Turn {
    /// A turn that begins. It takes no memory.
    pub fn new(alloc: Global, link: Link) -> Turn
        ensures { result ≡ new_turn link }
    {
        Turn {
            link,
            orders: Vec::new(alloc),
            notices: Vec::new(alloc),
        }
    }

    /// The link as it stands now.
    pub fn link(&self) -> &Link
        ensures { result.now ≡ self.now.link }
    {
        &self.link
    }

    /// The link, the orders and the notices.
    pub fn into_parts(self) -> (Link, Vec<Order>, Vec<Notice>)
        ensures link { result.0 ≡ self.link }
        ensures orders { result.1.items ≡ self.orders }
        ensures notices { result.2.items ≡ self.notices }
    {
        (self.link, self.orders, self.notices)
    }

    /// Tells the client.
    pub fn tell(&mut self, notice: Notice) -> Result<(), OutOfMemory>
        ensures { OnOk result (self.new ≡ done (tells (notice ∷ []) self.old.link) self.old) }
    {
        self.notices.push(notice)?;
        Ok(())
    }

    /// See [`Link::begin`].
    pub fn begin(&mut self, phase: Phase)
        ensures { self.new ≡ with_link (with_phase phase self.old.link) self.old }
    {
        self.link.begin(phase);
    }

    /// See [`Link::set_ready`].
    pub fn set_ready(&mut self, ready: ReadyState)
        ensures { self.new ≡ with_link (with_ready ready self.old.link) self.old }
    {
        self.link.set_ready(ready);
    }

    /// See [`Link::set_conversation`].
    pub fn set_conversation(&mut self, conversation: Conversation)
        ensures { self.new ≡ with_link (with_conversation conversation self.old.link) self.old }
    {
        self.link.set_conversation(conversation);
    }

    /// See [`Link::set_remembered`].
    pub fn set_remembered(&mut self, remembered: Remembered)
        ensures { self.new ≡ with_link (with_remembered remembered self.old.link) self.old }
    {
        self.link.set_remembered(remembered);
    }

    /// See [`Link::forget`].
    pub fn forget(&mut self, alloc: Global)
        ensures { self.new ≡ with_link (forgotten self.old.link) self.old }
    {
        self.link.forget(alloc);
    }

    /// See [`Link::acknowledge`].
    pub fn acknowledge(&mut self, number: u32) -> Result<(), OutOfMemory>
        ensures { OnOk result (self.new ≡ with_link (acknowledged number self.old.link) self.old) }
    {
        self.link.acknowledge(number)
    }

    /// See [`Link::await_next`].
    pub fn await_next(&mut self, next: u32, remembered: Remembered)
        ensures { self.new ≡ with_link (awaits next remembered self.old.link) self.old }
    {
        self.link.await_next(next, remembered);
    }

    /// See [`Link::make`].
    pub fn make(&mut self, alloc: Global, id: u32)
        ensures { self.new ≡ with_link (made id self.old.link) self.old }
    {
        self.link.make(alloc, id);
    }

    /// See [`Link::set_session`].
    pub fn set_session(&mut self, session: NodeId)
        ensures { self.new ≡ with_link (record self.old.link { session = session }) self.old }
    {
        self.link.set_session(session);
    }

    /// See [`Link::set_monitored`].
    pub fn set_monitored(&mut self, monitored: Vec<Monitored>)
        ensures { self.new ≡ with_link (record self.old.link { monitored = monitored.items }) self.old }
    {
        self.link.set_monitored(monitored);
    }

    /// See [`Link::set_unsupported`].
    pub fn set_unsupported(&mut self)
        ensures { self.new ≡ with_link (record self.old.link { unsupported = true }) self.old }
    {
        self.link.set_unsupported();
    }

    /// See [`Link::set_closes`].
    pub fn set_closes(&mut self, closes: bool)
        ensures { self.new ≡ with_link (record self.old.link { closes = closes }) self.old }
    {
        self.link.set_closes(closes);
    }

    /// See [`Link::set_since`].
    pub fn set_since(&mut self, since: u64)
        ensures { self.new ≡ with_link (record self.old.link { since = since }) self.old }
    {
        self.link.set_since(since);
    }

    /// See [`Link::connect`].
    pub fn connect(&mut self, url: UaText)
        ensures { self.new ≡ with_link (connected url self.old.link) self.old }
    {
        self.link.connect(url);
    }

    /// See [`Link::age_by`].
    pub fn age_by(&mut self, ms: u32)
        ensures { self.new ≡ with_link (aged ms self.old.link) self.old }
    {
        self.link.age_by(ms);
    }
}
