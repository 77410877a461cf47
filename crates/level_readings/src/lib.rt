//! The ServiceLevel that a link reads is the one that a server tells. Each law is the contract of a function that does nothing;
//! nothing here runs.
#![tactic(auto)]

mod levels;

pub use levels::{levels_are_read_first, levels_are_those_of_the_server};
