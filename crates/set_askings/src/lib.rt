//! What is asked for in the lives of a client's server. The law is the contract of a function that does nothing; nothing
//! here runs.
#![tactic(auto)]

mod once;

pub use once::items_are_asked_for_once;
