ghost use Rattle.std.specs.Prelude.{◌≡◌, ◌≢◌, None};
ghost use Rattle.ua_base.specs.declared.modes.SetMode.TheVariants.{Direct};
ghost use Rattle.failover_core.specs.Choice.{decided, is_same, number_of, resting, switch_between, switch_of, wanted};

use crate::choice::{Candidate, choose, is_active};
use std::marker::Model;
use ua_base::{Mode, SetMode};

/// Which server is the active one, from which data is taken, and how the set is used.
#[derive(Debug, Drop)]
pub struct Core {
    mode: SetMode,
    active: Option<u8>,
}

impl Model for Core {
    ghost use Rattle.failover_core.specs.State.{CoreState};

    ghost Value = { CoreState };

    ghost view = { λ c. record { mode = c.mode; active = c.active } };
}

/// Whether two choices are one.
fn is_same(before: Option<u8>, after: Option<u8>) -> bool
    ensures { result ≡ is_same before after }
{
    match (before, after) {
        (None, None) => true,
        (Some(before), Some(after)) => before == after,
        (None, Some(_)) | (Some(_), None) => false,
    }
}

/// The number of a server, and 0 where there is none.
fn number_of(server: Option<u8>) -> u8
    ensures { result ≡ number_of server }
{
    match server {
        Some(server) => server,
        None => 0,
    }
}

/// The switch from one choice to another, where they are two.
fn switch_between(before: Option<u8>, after: Option<u8>) -> Option<(u8, u8)>
    ensures { result ≡ switch_between before after }
{
    if is_same(before, after) {
        None
    } else {
        Some((number_of(before), number_of(after)))
    }
}

/// How a backup's items are monitored, and how each item is made: sampled in hot, disabled in warm, and reporting in cold,
/// where a client is connected to one server alone (OPC 10000-4, 6.6.2.4.5).
pub fn resting(mode: SetMode) -> Mode
    ensures { result ≡ resting mode }
{
    match mode {
        SetMode::Hot => Mode::Sampling,
        SetMode::Warm => Mode::Disabled,
        SetMode::Cold | SetMode::Direct => Mode::Reporting,
    }
}

impl Core {
    /// A client's choice before any server is ready: no server is active. A direct set has no such client.
    pub fn new(mode: SetMode) -> Core
        requires { mode ≢ Direct }
        ensures { result ≡ record { mode = mode; active = None } }
    {
        Core { mode, active: None }
    }

    /// How the set is used.
    pub fn mode(&self) -> SetMode
        ensures { result ≡ self.now.mode }
    {
        self.mode
    }

    /// The server from which data is taken, if there is one.
    pub fn active(&self) -> Option<u8>
        ensures { result ≡ self.now.active }
    {
        self.active
    }

    /// Chooses among the servers that are ready. Where the choice is another one than before, it answers the former one
    /// and the new one, 0 standing for none.
    pub fn decide(&mut self, ready: &[Candidate]) -> Option<(u8, u8)>
        ensures state { self.new ≡ decided ready.now self.old }
        ensures told { result ≡ switch_of ready.now self.old }
    {
        let before = self.active;
        self.active = choose(ready, before);
        switch_between(before, self.active)
    }

    /// How a server's items are to be monitored (OPC 10000-4, 6.6.2.4.5): the active one reports. A backup's items are
    /// sampled in hot, disabled in warm, and report in cold, where a client is connected to one server alone.
    pub fn wanted(&self, server: u8) -> Mode
        ensures { result ≡ wanted server self.now }
    {
        if is_active(self.active, server) {
            Mode::Reporting
        } else {
            resting(self.mode)
        }
    }
}
