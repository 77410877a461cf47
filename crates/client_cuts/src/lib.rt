//! That bytes of a server come to a client in two events or in one doesn't matter. Each law is the contract of a function
//! that does nothing; nothing here runs.
#![tactic(auto)]

mod laws;

pub use laws::{clients_are_at_rest, events_are_one, taken_bytes_have_no_part};
