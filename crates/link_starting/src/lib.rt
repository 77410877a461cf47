//! How a link comes to be ready: the rules of its connection and channel, of its session and of the server's redundancy,
//! and of its subscription, over a turn of the link (OPC 10000-4, 5.5.2, 5.6, 5.12.2, 5.13 and 6.6.2.4).
#![tactic(auto)]

mod opening;
mod starting;
mod subscribing;

pub use opening::{closed, greeted, in_opening, opened, refused};
pub use starting::{in_activating, in_creating, in_probing};
pub use subscribing::{in_adding, in_republishing, in_subscribing, in_transferring};
