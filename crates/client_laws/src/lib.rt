//! What the rules of a client come to, over any list of events and whatever its servers send. Each law is the contract of
//! a function that does nothing; nothing here runs.
#![tactic(auto)]

mod log;
mod switching;

pub use log::{
    gaps_have_true_causes, items_are_held_until_they_report, logs_are_of_their_acts, stamps_rise,
};
pub use switching::{switches_are_choices, switches_are_few, switches_go_to_the_best};
