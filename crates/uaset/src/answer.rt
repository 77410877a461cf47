//! What each command answers of its whole input.

ghost use Rattle.std.specs.Prelude.{IfOk};
ghost use Rattle.scenario.specs.Scenario.{scenario_of};
ghost use Rattle.show.specs.Value.{shown_value};
ghost use Rattle.show.specs.Stream.{shown_stream};
ghost use Rattle.uaset.specs.Answer.{Renders, answer_of};
ghost use Rattle.uaset.specs.Commands.{Answered, Means, answer_to, replayed, shown};

use crate::replay::replay;
use crate::words::Command;
use scenario::{FaultKind, ReadError};
use show::{ShowFault, show_stream, show_value};
use std::alloc::Global;

/// Why there is no answer.
#[derive(Clone, Copy)]
pub(crate) enum Refusal {
    /// The input is no scenario.
    Scenario { line: u64, kind: FaultKind },
    /// The input isn't what is to be shown.
    Show { place: u64, code: u32 },
    /// Memory was refused.
    OutOfMemory,
}

/// The report of a scenario, which may attach so many listeners.
fn replayed(alloc: Global, bytes: &[u8], pool: usize) -> Result<Vec<u8>, Refusal>
    ensures exact { Answered (λ text. text.items) result (replayed (answer_of pool bytes.now)) }
    ensures means { IfOk result (λ text. Means pool Command.Replay bytes.now text.items) }
{
    // The text that is made over bytes is that of the definition, which has whole messages alone.
    scenario::scenarios_are_read();
    set_messages::messages_show_bytes();
    // Of a redundant set it is what the client makes of all that happens to it.
    set_laws::histories_are_of_the_set();
    client_laws::gaps_have_true_causes();
    client_laws::stamps_rise();
    client_laws::switches_are_choices();
    client_laws::switches_go_to_the_best();
    client_links::switch_lines_are_switches();
    // And of a hot or a cold set it delivers the scenario's own changes.
    set_laws::the_source_is_the_lines_changes();
    set_laws::hot_and_cold_logs_are_safe();
    set_laws::levels_are_the_servers_own();
    match replay(alloc, bytes, pool) {
        Ok(text) => Ok(text),
        Err(ReadError::Fault(fault)) => Err(Refusal::Scenario {
            line: fault.line,
            kind: fault.kind,
        }),
        Err(ReadError::OutOfMemory) => Err(Refusal::OutOfMemory),
    }
}

/// What a DataValue holds.
fn value(alloc: Global, bytes: &[u8]) -> Result<Vec<u8>, Refusal>
    ensures exact { Answered (λ text. text.items) result (shown (shown_value bytes.now)) }
    ensures means { IfOk result (λ text. Means 0 Command.ShowValue bytes.now text.items) }
{
    match show_value(alloc, bytes) {
        Ok(text) => Ok(text),
        Err(ShowFault::Bad { place, code }) => Err(Refusal::Show { place, code }),
        Err(ShowFault::OutOfMemory) => Err(Refusal::OutOfMemory),
    }
}

/// The frames of a stream.
fn stream(alloc: Global, bytes: &[u8]) -> Result<Vec<u8>, Refusal>
    ensures exact { Answered (λ text. text.items) result (shown (shown_stream bytes.now)) }
    ensures means { IfOk result (λ text. Means 0 Command.ShowStream bytes.now text.items) }
{
    match show_stream(alloc, bytes) {
        Ok(text) => Ok(text),
        Err(ShowFault::Bad { place, code }) => Err(Refusal::Show { place, code }),
        Err(ShowFault::OutOfMemory) => Err(Refusal::OutOfMemory),
    }
}

impl Command {
    /// What the command writes of what it read, where so many listeners may be attached.
    pub(crate) fn answer(self, alloc: Global, bytes: &[u8], pool: usize) -> Result<Vec<u8>, Refusal>
        ensures exact { Answered (λ text. text.items) result (answer_to pool self bytes.now) }
        ensures means { IfOk result (λ text. Means pool self bytes.now text.items) }
    {
        match self {
            Command::Replay => replayed(alloc, bytes, pool),
            Command::ShowValue => value(alloc, bytes),
            Command::ShowStream => stream(alloc, bytes),
        }
    }
}
