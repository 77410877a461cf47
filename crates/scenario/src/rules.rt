ghost use Rattle.std.specs.Prelude.{◌≡◌};
ghost use Rattle.scenario.specs.Rules.{allows, allows_rule, allows_set, rules_of_replay};

use crate::table::Group;
use ua_base::SetMode;

/// The most lines of a scenario.
pub const MOST_LINES: usize = 1_000_000;

/// The most changes of a scenario.
pub const MOST_CHANGES: u32 = 200_000;

/// The sets that a command's scenarios may begin with. Of any other set the line is no line of the command's.
#[derive(Clone, Copy, Debug, PartialEq, Eq)]
pub enum Sets {
    Any,
    /// Those in hot, warm and cold mode.
    OverBytes,
    /// One server in hot mode.
    OneHot,
}

/// The groups of lines that a command's scenarios have, beside those that all have.
#[derive(Clone, Copy, Debug, PartialEq, Eq)]
pub struct Allowed {
    pub links: bool,
    pub servers: bool,
    pub listeners: bool,
    /// Queues that drop their newest entry where they are full.
    pub newest: bool,
}

/// How a command judges a scenario.
#[derive(Clone, Copy, Debug, PartialEq, Eq)]
pub struct Rules {
    pub sets: Sets,
    pub allowed: Allowed,
    /// The most lines.
    pub lines: usize,
    /// The most changes. No source has more than 200,000.
    pub changes: u32,
    /// How many listeners there are.
    pub pool: usize,
}

impl Rules {
    /// Those of `replay`: the whole language.
    pub fn replay(pool: usize) -> Rules
        ensures { result ≡ rules_of_replay pool }
    {
        Rules {
            sets: Sets::Any,
            allowed: Allowed {
                links: true,
                servers: true,
                listeners: true,
                newest: true,
            },
            lines: MOST_LINES,
            changes: MOST_CHANGES,
            pool,
        }
    }

    /// Whether a scenario may begin with this set.
    pub(crate) fn allows_set(self, mode: SetMode, servers: u64) -> bool
        ensures { result ≡ allows_set self.sets mode servers }
    {
        match self.sets {
            Sets::Any => true,
            Sets::OverBytes => mode != SetMode::Direct,
            Sets::OneHot => mode == SetMode::Hot && servers == 1,
        }
    }

    /// Whether full queues may drop their oldest entry, or else their newest.
    pub(crate) fn allows_rule(self, oldest: bool) -> bool
        ensures { result ≡ allows_rule self.allowed oldest }
    {
        oldest || self.allowed.newest
    }

    /// Whether a scenario may have lines of this group.
    pub(crate) fn allows(self, group: Group) -> bool
        ensures { result ≡ allows self.allowed group }
    {
        match group {
            Group::Common => true,
            Group::Links => self.allowed.links,
            Group::Servers => self.allowed.servers,
            Group::Listeners => self.allowed.listeners,
        }
    }
}
