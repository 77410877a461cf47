//! A server over whole messages: its connections and their secure channels, which service a message asks for, and
//! discovery and sessions (OPC 10000-4, 5.4 to 5.6; OPC 10000-6, 6.7 and 7.1).
#![tactic(auto)]

mod connecting;
mod discovery;
mod life;
mod opening;
mod requests;
mod session;

pub use life::ServerCore;
