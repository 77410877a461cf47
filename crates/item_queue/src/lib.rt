//! The bounded queue of one monitored item (OPC 10000-4, 5.12.1.5): where it is full it drops its oldest entry or its
//! newest, and marks what comes after a dropped one.
#![tactic(auto)]

mod laws;
mod queue;

pub use laws::{holds_the_places, keeps_the_places};
pub use queue::{Entry, ItemQueue};
