//! A client over bytes that fails over between the servers of a redundant set (OPC 10000-4, 6.6.2): one link to each of
//! them, the choice among those that are ready, and the log of what they report. It does no input and output of its own.
#![tactic(auto)]

mod arrival;
mod client;
mod client_core;
mod dialling;
mod ends;
mod event;
mod happening;
mod laws;
mod linking;
mod moves;
mod settling;
mod step;
mod telling;

pub use arrival::arrived;
pub use client::Client;
pub use client_core::ClientCore;
pub use event::{ClientEvent, Piece};
pub use laws::{bytes_are_messages, others_are_nothing, pieces_are_one};
