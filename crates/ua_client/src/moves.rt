//! What a link does in one go: one rule of a link each.

ghost use Rattle.std.specs.Prelude.{◌≡◌, ◌++◌, IfOk, OnOk};
ghost use Rattle.link_rules.specs.State.{LinkState};
ghost use Rattle.link_rules.specs.Said.{LinkDid, orders_of};
ghost use Rattle.client_rules.specs.Links.{falls};

use link_rules::Notice;
use std::alloc::Global;
use ua_base::{Mode, OutOfMemory};
use ua_channel::{Heard, Order};
use ua_link::LinkCore;
use ua_values::UaText;

/// A rule of a link.
pub(crate) trait Move {
    ghost rule: { Self → LinkState → LinkDid };

    /// Lets a link do it, and appends what it orders and what it tells.
    fn make(
        &self,
        alloc: Global,
        link: &mut LinkCore,
        to: &mut Vec<Order>,
        notices: &mut Vec<Notice>,
    ) -> Result<(), OutOfMemory>
        ensures state { OnOk result (link.new ≡ (rule self.now link.old).link) }
        ensures orders { OnOk result (to.new.items ≡ to.old.items ++ orders_of (rule self.now link.old).said) }
        ensures told { OnOk result (notices.new.items ≡ notices.old.items ++ (rule self.now link.old).notices) };
}

/// A connection to this endpoint is opened.
#[derive(Drop)]
pub(crate) struct Opening {
    pub(crate) url: UaText,
}

/// A connection is refused.
#[derive(Clone, Copy)]
pub(crate) struct Refusing;

/// A connection is closed.
#[derive(Clone, Copy)]
pub(crate) struct Closing;

/// So many milliseconds pass.
#[derive(Clone, Copy)]
pub(crate) struct Ticking {
    pub(crate) ms: u32,
}

impl Move for Opening {
    ghost use Rattle.link_rules.specs.Opening as rules;

    ghost rule = { λ o l. rules.opened o.url l };

    fn make(
        &self,
        alloc: Global,
        link: &mut LinkCore,
        to: &mut Vec<Order>,
        notices: &mut Vec<Notice>,
    ) -> Result<(), OutOfMemory> {
        let url = self.url.copy(alloc)?;
        link.opened(alloc, url, to, notices)
    }
}

impl Move for Refusing {
    ghost use Rattle.link_rules.specs.Opening as rules;

    ghost rule = { λ r l. rules.refused l };

    fn make(
        &self,
        alloc: Global,
        link: &mut LinkCore,
        to: &mut Vec<Order>,
        notices: &mut Vec<Notice>,
    ) -> Result<(), OutOfMemory> {
        link.refused(alloc, to, notices)
    }
}

impl Move for Closing {
    ghost use Rattle.link_rules.specs.Opening as rules;

    ghost rule = { λ c l. rules.closed l };

    fn make(
        &self,
        alloc: Global,
        link: &mut LinkCore,
        to: &mut Vec<Order>,
        notices: &mut Vec<Notice>,
    ) -> Result<(), OutOfMemory> {
        link.closed(alloc, to, notices)
    }
}

impl Move for Ticking {
    ghost use Rattle.link_rules.specs.Time as rules;

    ghost rule = { λ t l. rules.ticked t.ms l };

    fn make(
        &self,
        alloc: Global,
        link: &mut LinkCore,
        to: &mut Vec<Order>,
        notices: &mut Vec<Notice>,
    ) -> Result<(), OutOfMemory> {
        link.ticked(alloc, self.ms, to, notices)
    }
}

/// Something is heard.
impl Move for Heard {
    ghost use Rattle.link_rules.specs.Step as rules;

    ghost rule = { λ h l. rules.heard h l };

    fn make(
        &self,
        alloc: Global,
        link: &mut LinkCore,
        to: &mut Vec<Order>,
        notices: &mut Vec<Notice>,
    ) -> Result<(), OutOfMemory> {
        link.heard(alloc, self, to, notices)
    }
}

/// The client wants its items in this mode.
impl Move for Mode {
    ghost use Rattle.link_rules.specs.Step as rules;

    ghost rule = { λ mode l. rules.wants mode l };

    fn make(
        &self,
        alloc: Global,
        link: &mut LinkCore,
        to: &mut Vec<Order>,
        notices: &mut Vec<Notice>,
    ) -> Result<(), OutOfMemory> {
        link.wants(alloc, *self, to, notices)
    }
}

/// Lets a link do something, and says whether it falls by that.
pub(crate) fn made<M: Move>(
    alloc: Global,
    link: &mut LinkCore,
    by: &M,
    to: &mut Vec<Order>,
    notices: &mut Vec<Notice>,
) -> Result<bool, OutOfMemory>
    ensures state { OnOk result (link.new ≡ (M.rule by.now link.old).link) }
    ensures orders { OnOk result (to.new.items ≡ to.old.items ++ orders_of (M.rule by.now link.old).said) }
    ensures told { OnOk result (notices.new.items ≡ notices.old.items ++ (M.rule by.now link.old).notices) }
    ensures fallen { IfOk result (λ fell. fell ≡ falls link.old (M.rule by.now link.old).link) }
{
    let was_idle = link.is_idle();
    by.make(alloc, link, to, notices)?;
    Ok(!was_idle && link.is_idle())
}
