//! All that happens to the servers of a set and to its client over a whole scenario, as the histories of which the laws of
//! servers and of clients speak, and what passes between them. The laws are contracts of functions that do nothing; nothing
//! here runs.
#![tactic(auto)]

mod laws;

pub use laws::{histories_are_of_the_set, histories_meet};
