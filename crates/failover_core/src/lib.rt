//! Which server of a non-transparent redundant set a client takes its data from, and how it has the items of the others
//! monitored (OPC 10000-4, 6.6.2).
#![tactic(auto)]

mod choice;
mod decision;
mod laws;

pub use choice::{Candidate, choose};
pub use decision::{Core, resting};
pub use laws::{choices_are_best, switches_are_choices};
