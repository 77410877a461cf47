//! What is heard in a set is heard where it is awaited. The laws are contracts of functions that do nothing; nothing here
//! runs.
#![tactic(auto)]

mod laws;

pub use laws::{lives_hear_what_they_await, the_client_hears_what_it_awaits};
