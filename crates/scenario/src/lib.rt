//! The scenario language: lines that say what the servers of a set and their client do, one after another.
#![tactic(auto)]

mod course;
mod dice;
mod fault;
mod form;
mod laws;
mod line;
mod reader;
mod rules;
mod shape;
mod table;
mod tally;
mod text;
mod words;
mod worked;

pub use course::generate;
pub use fault::{FaultKind, ReadError, ScenarioFault};
pub use form::Form;
pub use laws::{generated_lines, grammar, reads_what_was_written, scenarios_are_read, valid_lines};
pub use line::Line;
pub use rules::{Allowed, MOST_CHANGES, MOST_LINES, Rules, Sets};
pub use table::{Name, Numbers};
pub use text::{read, read_by, write};
