//! What the messages of a subscription tell of its items, from one message to the next, also where it is no more. Nothing
//! here runs.
#![tactic(auto)]

mod chains;

pub use chains::{courses_tell_linked_entries, subscriptions_tell_linked_entries};
