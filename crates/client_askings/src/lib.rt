//! What a server hears of a client's messages: what the client asked for. The law is the contract of a function that does
//! nothing; nothing here runs.
#![tactic(auto)]

mod asking;

pub use asking::what_is_heard_was_asked;
