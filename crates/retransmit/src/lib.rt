//! The messages that a subscription keeps for Republish: its retransmission queue (OPC 10000-4, 5.13.1.1).
#![tactic(auto)]

mod laws;
mod retransmission;

pub use laws::keeps_what_is_available;
pub use retransmission::{Kept, MOST_KEPT, Sent, Unknown};
