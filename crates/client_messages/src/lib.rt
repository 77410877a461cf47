//! A client over whole messages, and that it shows the client over bytes, event by event. Each law is the contract of a
//! function that does nothing; nothing here runs.
#![tactic(auto)]

mod laws;

pub use laws::{a_client_begins, bytes_are_awaited, events_are_shown, what_is_put_is_taken};
