//! A set over whole messages, with no bytes, no pieces and no numbers of chunks, and that it shows what a set over bytes
//! does. Each law is the contract of a function that does nothing; nothing here runs.
#![tactic(auto)]

mod laws;

pub use laws::{messages_show_bytes, pieces_change_nothing};
