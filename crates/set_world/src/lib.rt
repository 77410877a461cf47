//! The world of a set in any mode: of direct servers, or of a redundant set with its source, its servers, its client, and the
//! bytes in flight between them.
#![tactic(auto)]

mod making;
mod over_bytes;
mod pieces;
mod set;
mod slot;
mod world;

pub use over_bytes::OverBytes;
pub use world::World;
