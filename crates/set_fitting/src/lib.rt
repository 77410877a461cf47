//! All that happens in a set fits the wire, and how much can happen there. The laws are contracts of functions that do
//! nothing; nothing here runs.
#![tactic(auto)]

mod laws;

pub use laws::{lives_and_ticks_are_counted, what_happens_fits};
