//! How a link ends.

ghost use Rattle.std.specs.Prelude.{◌≡◌, ◌++◌, OnOk};
ghost use Rattle.link_rules.specs.Closing.{broken, dropped, fallen, left_in, loss_of, stands_in};
ghost use Rattle.link_turn.specs.Turns.{done};

use crate::link::Link;
use crate::turn::Turn;
use link_rules::{Notice, Phase};
use std::alloc::Global;
use ua_base::OutOfMemory;

/// Whether there is a connection to close.
fn stands_in(phase: &Phase) -> bool
    ensures { result ≡ stands_in phase.now }
{
    !matches!(phase, Phase::Idle | Phase::Dialing { .. })
}

impl Link {
    /// Forgets a subscription whose items are being made.
    fn leave(&mut self, alloc: Global)
        ensures { self.new ≡ left_in self.old.phase self.old }
    {
        if matches!(&self.phase, Phase::Adding) {
            self.forget(alloc);
        }
    }

    /// Comes to no connection; a second goes by before the next dial.
    fn fall(&mut self, alloc: Global)
        ensures { self.new ≡ fallen self.old }
    {
        self.leave(alloc);
        self.phase = Phase::Idle;
        self.since = self.age;
        self.wait = 1000;
    }
}

impl Turn {
    /// Tells that a link which was ready is lost.
    fn tell_loss(&mut self) -> Result<(), OutOfMemory>
        ensures { OnOk result
            (self.new ≡ record self.old { notices = self.old.notices ++ loss_of self.old.link.phase }) }
    {
        if self.link.is_ready() {
            self.notices.push(Notice::Lost)?;
        }
        Ok(())
    }

    /// The connection is gone.
    #[tactic(auto, unfolding(link_rules::specs::Closing::dropped))]
    pub fn drop_off(&mut self, alloc: Global) -> Result<(), OutOfMemory>
        ensures { OnOk result (self.new ≡ done (dropped self.old.link) self.old) }
    {
        self.tell_loss()?;
        self.link.fall(alloc);
        Ok(())
    }

    /// Closes the link: it wishes that its connection be closed, if it has one.
    #[tactic(auto, unfolding(link_rules::specs::Closing::broken))]
    pub fn break_off(&mut self, alloc: Global) -> Result<(), OutOfMemory>
        ensures { OnOk result (self.new ≡ done (broken self.old.link) self.old) }
    {
        self.tell_loss()?;
        let closes = self.link.closes || stands_in(&self.link.phase);
        self.link.fall(alloc);
        self.link.closes = closes;
        Ok(())
    }
}
