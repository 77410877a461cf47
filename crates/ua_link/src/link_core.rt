ghost use Rattle.std.specs.Prelude.{◌≡◌, ◌++◌, OnOk};
ghost use Rattle.link_rules.specs.State.{is_idle, is_ready, new_link};
ghost use Rattle.link_rules.specs.Said.{orders_of};
ghost use Rattle.link_rules.specs.Asking.{next_request};
ghost use Rattle.link_rules.specs.Opening as opening;
ghost use Rattle.link_rules.specs.Step as step;
ghost use Rattle.link_rules.specs.Time as time;
ghost use Rattle.link_turn.specs.Turns.{new_turn};

use crate::hearing;
use link_publishing::wants;
use link_ready::ticked;
use link_rules::{LinkConfig, Notice, Phase, Remembered, Wish};
use link_starting::{closed, opened, refused};
use link_turn::{Link, Turn};
use std::alloc::Global;
use std::marker::Model;
use std::mem;
use ua_base::{Mode, OutOfMemory};
use ua_channel::{Ear, Heard, Order};
use ua_values::UaText;

/// A link over whole messages.
#[derive(Debug, Drop)]
pub struct LinkCore {
    link: Link,
}

impl Model for LinkCore {
    ghost use Rattle.link_rules.specs.State.{LinkState};

    ghost Value = { LinkState };

    ghost view = { λ c. c.link };
}

/// Appends all of these.
fn join<T: Drop>(to: &mut Vec<T>, more: Vec<T>) -> Result<(), OutOfMemory>
    ensures { OnOk result (to.new.items ≡ to.old.items ++ more.items) }
{
    for one in more {
        to.push(one)?;
    }
    Ok(())
}

impl LinkCore {
    /// One that has no connection and of whose server nothing is known. It takes no memory.
    pub fn new(alloc: Global, config: LinkConfig) -> LinkCore
        ensures { result ≡ new_link config }
    {
        LinkCore {
            link: Link::new(alloc, config),
        }
    }

    /// Takes the link out for a turn.
    fn begin(&mut self, alloc: Global) -> Turn
        ensures { result ≡ new_turn self.old }
    {
        let blank = Link::new(alloc, self.link.config());
        Turn::new(alloc, mem::replace(&mut self.link, blank))
    }

    /// Puts the link back, with what it said and told.
    fn end(
        &mut self,
        turn: Turn,
        to: &mut Vec<Order>,
        notices: &mut Vec<Notice>,
    ) -> Result<(), OutOfMemory>
        ensures link { OnOk result (self.new ≡ turn.link) }
        ensures orders { OnOk result (to.new.items ≡ to.old.items ++ turn.orders) }
        ensures told { OnOk result (notices.new.items ≡ notices.old.items ++ turn.notices) }
    {
        let (link, orders, told) = turn.into_parts();
        self.link = link;
        let ordered = join(to, orders);
        let noticed = join(notices, told);
        ordered?;
        noticed
    }

    /// A connection to this endpoint was made; one that wasn't wished for is to be closed.
    ///
    /// # Errors
    ///
    /// Want of memory, and nothing else. Nothing is said then of the link, the orders and the notices; so it is of each
    /// call below.
    pub fn opened(
        &mut self,
        alloc: Global,
        url: UaText,
        to: &mut Vec<Order>,
        notices: &mut Vec<Notice>,
    ) -> Result<(), OutOfMemory>
        ensures link { OnOk result (self.new ≡ (opening.opened url self.old).link) }
        ensures orders { OnOk result (to.new.items ≡ to.old.items ++ orders_of (opening.opened url self.old).said) }
        ensures told { OnOk result (notices.new.items ≡ notices.old.items ++ (opening.opened url self.old).notices) }
    {
        let mut turn = self.begin(alloc);
        let done = opened(alloc, &mut turn, url);
        let ended = self.end(turn, to, notices);
        done?;
        ended
    }

    /// No connection could be made.
    pub fn refused(
        &mut self,
        alloc: Global,
        to: &mut Vec<Order>,
        notices: &mut Vec<Notice>,
    ) -> Result<(), OutOfMemory>
        ensures link { OnOk result (self.new ≡ (opening.refused self.old).link) }
        ensures orders { OnOk result (to.new.items ≡ to.old.items ++ orders_of (opening.refused self.old).said) }
        ensures told { OnOk result (notices.new.items ≡ notices.old.items ++ (opening.refused self.old).notices) }
    {
        let mut turn = self.begin(alloc);
        let done = refused(alloc, &mut turn);
        let ended = self.end(turn, to, notices);
        done?;
        ended
    }

    /// The connection ended: that which was to be closed, or the one that stood.
    pub fn closed(
        &mut self,
        alloc: Global,
        to: &mut Vec<Order>,
        notices: &mut Vec<Notice>,
    ) -> Result<(), OutOfMemory>
        ensures link { OnOk result (self.new ≡ (opening.closed self.old).link) }
        ensures orders { OnOk result (to.new.items ≡ to.old.items ++ orders_of (opening.closed self.old).said) }
        ensures told { OnOk result (notices.new.items ≡ notices.old.items ++ (opening.closed self.old).notices) }
    {
        let mut turn = self.begin(alloc);
        let done = closed(alloc, &mut turn);
        let ended = self.end(turn, to, notices);
        done?;
        ended
    }

    /// Something is heard. What comes to a deaf link has no effect.
    pub fn heard(
        &mut self,
        alloc: Global,
        heard: &Heard,
        to: &mut Vec<Order>,
        notices: &mut Vec<Notice>,
    ) -> Result<(), OutOfMemory>
        ensures link { OnOk result (self.new ≡ (step.heard heard.now self.old).link) }
        ensures orders { OnOk result (to.new.items ≡ to.old.items ++ orders_of (step.heard heard.now self.old).said) }
        ensures told { OnOk result (notices.new.items ≡ notices.old.items ++ (step.heard heard.now self.old).notices) }
    {
        let mut turn = self.begin(alloc);
        let done = hearing::heard(alloc, &mut turn, heard);
        let ended = self.end(turn, to, notices);
        done?;
        ended
    }

    /// So many milliseconds went by.
    pub fn ticked(
        &mut self,
        alloc: Global,
        ms: u32,
        to: &mut Vec<Order>,
        notices: &mut Vec<Notice>,
    ) -> Result<(), OutOfMemory>
        ensures link { OnOk result (self.new ≡ (time.ticked ms self.old).link) }
        ensures orders { OnOk result (to.new.items ≡ to.old.items ++ orders_of (time.ticked ms self.old).said) }
        ensures told { OnOk result (notices.new.items ≡ notices.old.items ++ (time.ticked ms self.old).notices) }
    {
        let mut turn = self.begin(alloc);
        let done = ticked(alloc, &mut turn, ms);
        let ended = self.end(turn, to, notices);
        done?;
        ended
    }

    /// The client wants a mode of all items.
    pub fn wants(
        &mut self,
        alloc: Global,
        mode: Mode,
        to: &mut Vec<Order>,
        notices: &mut Vec<Notice>,
    ) -> Result<(), OutOfMemory>
        ensures link { OnOk result (self.new ≡ (step.wants mode self.old).link) }
        ensures orders { OnOk result (to.new.items ≡ to.old.items ++ orders_of (step.wants mode self.old).said) }
        ensures told { OnOk result (notices.new.items ≡ notices.old.items ++ (step.wants mode self.old).notices) }
    {
        let mut turn = self.begin(alloc);
        let done = wants(alloc, &mut turn, mode);
        let ended = self.end(turn, to, notices);
        done?;
        ended
    }

    /// Wishes for a connection, where it may.
    pub fn dial(&mut self)
        ensures { self.new ≡ opening.dials self.old }
    {
        self.link.dial();
    }

    /// Takes what it wishes for its connection: a wish is taken once.
    pub fn take_wish(&mut self) -> Wish
        ensures wish { result ≡ step.wish_of self.old }
        ensures link { self.new ≡ step.wish_taken self.old }
    {
        self.link.take_wish()
    }

    /// What it wishes for its connection.
    pub fn wish(&self) -> Wish
        ensures { result ≡ step.wish_of self.now }
    {
        self.link.wish()
    }

    /// Which frames it takes next.
    pub fn ear(&self) -> Ear
        ensures { result ≡ step.ear_of self.now }
    {
        self.link.ear()
    }

    /// Whether it has no connection.
    pub fn is_idle(&self) -> bool
        ensures { result ≡ is_idle self.now }
    {
        self.link.is_idle()
    }

    /// Whether its subscription sends.
    pub fn is_ready(&self) -> bool
        ensures { result ≡ is_ready self.now }
    {
        self.link.is_ready()
    }

    /// Whether it may wish for a connection.
    pub fn may_dial(&self) -> bool
        ensures { result ≡ opening.may_dial self.now }
    {
        self.link.may_dial()
    }

    /// Whether bytes that weren't taken when a connection is opened were for one before.
    pub fn begins_anew(&self) -> bool
        ensures { result ≡ opening.begins_anew self.now }
    {
        matches!(self.link.phase(), Phase::Idle | Phase::Dialing { .. })
    }

    /// Its subscription.
    pub fn remembered(&self) -> Option<Remembered>
        ensures { result ≡ self.now.remembered }
    {
        self.link.remembered()
    }

    /// The number of its next request.
    pub fn next_request(&self) -> u32
        ensures { result ≡ next_request self.now }
    {
        self.link.next_request()
    }
}
