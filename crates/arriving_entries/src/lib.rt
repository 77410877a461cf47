//! What a server's subscription says of an entry, and what a client's log takes of it: they are the same change. Each law
//! is the contract of a function that does nothing; nothing here runs.
#![tactic(auto)]

mod entries;
mod messages;

pub use entries::{entries_arrive, linked_entries_arrive_linked};
pub use messages::{messages_bring_their_values, said_messages_are_read};
