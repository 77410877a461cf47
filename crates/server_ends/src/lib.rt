//! What a server over bytes and its ends have in common, said of their definitions alone. Nothing here runs.
#![tactic(auto)]

mod numbers;

pub use numbers::ends_are_of_connections;
