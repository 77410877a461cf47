//! Where the connections of a client's links and those of its servers' lives meet. The law is the contract of a function that
//! does nothing; nothing here runs.
#![tactic(auto)]

mod connections;

pub use connections::connections_are_shared;
