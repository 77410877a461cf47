//! What a client's acts tell of one server: the life of a link alone; what feeds the client's log; and the switches in it.
//! Each law is the contract of a function that does nothing; nothing here runs.
#![tactic(auto)]

mod feeding;
mod links;
mod switching;

pub use feeding::linked_values_feed_the_log;
pub use links::{links_live_in_clients, others_tell_nothing};
pub use switching::switch_lines_are_switches;
