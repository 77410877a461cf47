//! The world of direct servers: lives, the one source, and a client that takes entries from the servers' queues.
#![tactic(auto)]

pub mod laws;
mod server;
mod shared;
mod world;

pub use shared::{append, next_changes, place_in};
pub use world::World;
