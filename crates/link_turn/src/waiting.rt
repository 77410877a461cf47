//! What a link awaits, wishes and lets go by.

ghost use Rattle.std.specs.Prelude.{◌≡◌};
ghost use Rattle.link_rules.specs.State.{have_passed};
ghost use Rattle.link_rules.specs.Opening.{dials, may_dial};
ghost use Rattle.link_rules.specs.Ready.{is_left};
ghost use Rattle.link_rules.specs.Step.{ear_in, ear_of, taken_in, wish_in, wish_of, wish_taken};
ghost use Rattle.link_rules.specs.Time.{aged};

use crate::link::Link;
use link_rules::{Phase, Wish};
use ua_base::Mode;
use ua_channel::Ear;

/// Which frames are taken next in a phase.
fn ear_in(phase: &Phase) -> Ear
    ensures { result ≡ ear_in phase.now }
{
    match phase {
        Phase::Idle => Ear::Deaf,
        Phase::Dialing { .. } => Ear::Acknowledge,
        Phase::Hello => Ear::Acknowledge,
        Phase::Opening => Ear::Opening,
        _ => Ear::Open,
    }
}

/// What a phase wishes.
fn wish_in(phase: &Phase) -> Wish
    ensures { result ≡ wish_in phase.now }
{
    match phase {
        Phase::Dialing { taken: false } => Wish::Dial,
        _ => Wish::None,
    }
}

/// The wish of a phase was taken.
fn take_in(phase: &mut Phase)
    ensures { phase.new ≡ taken_in phase.old }
{
    if let Phase::Dialing { taken } = phase {
        *taken = true;
    }
}

impl Link {
    /// Whether so many milliseconds have passed since this age.
    pub fn has_passed(&self, span: u64, at: u64) -> bool
        ensures { result ≡ have_passed span at self.now }
    {
        self.age.saturating_sub(at) >= span
    }

    /// So many milliseconds went by.
    pub fn age_by(&mut self, ms: u32)
        ensures { self.new ≡ aged ms self.old }
    {
        self.age = self.age.saturating_add(u64::from(ms));
        self.wait = self.wait.saturating_sub(ms);
    }

    /// Whether a server of this ServiceLevel is left.
    pub fn is_left(&self, level: u8) -> bool
        ensures { result ≡ is_left level self.now }
    {
        match self.config.rest {
            Mode::Disabled | Mode::Sampling => false,
            Mode::Reporting => level < 2,
        }
    }

    /// Which frames are taken next.
    pub fn ear(&self) -> Ear
        ensures { result ≡ ear_of self.now }
    {
        if self.closes {
            Ear::Deaf
        } else {
            ear_in(&self.phase)
        }
    }

    /// Whether it may wish for a connection.
    pub fn may_dial(&self) -> bool
        ensures { result ≡ may_dial self.now }
    {
        self.is_idle() && self.wait == 0 && !self.unsupported
    }

    /// Wishes for a connection, where it may.
    pub fn dial(&mut self)
        ensures { self.new ≡ dials self.old }
    {
        if self.may_dial() {
            self.begin(Phase::Dialing { taken: false });
        }
    }

    /// What it wishes for its connection.
    pub fn wish(&self) -> Wish
        ensures { result ≡ wish_of self.now }
    {
        if self.closes {
            Wish::Close
        } else {
            wish_in(&self.phase)
        }
    }

    /// Takes what it wishes for its connection: a wish is taken once.
    pub fn take_wish(&mut self) -> Wish
        ensures wish { result ≡ wish_of self.old }
        ensures state { self.new ≡ wish_taken self.old }
    {
        let wish = self.wish();
        if self.closes {
            self.closes = false;
        } else {
            take_in(&mut self.phase);
        }
        wish
    }
}
