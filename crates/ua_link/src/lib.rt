//! A client's link to one server: over whole messages, with a call for each event, and over bytes, from `LinkTalk::new`
//! on, by the events that its surroundings tell it (OPC 10000-4 and 10000-6). It does no input and output of its own.
#![tactic(auto)]

mod event;
mod hearing;
mod laws;
mod link_core;
mod step;
mod talk;
mod telling;

pub use event::{LinkEvent, Piece};
pub use laws::{bytes_are_messages, pieces_are_one};
pub use link_core::LinkCore;
pub use talk::LinkTalk;
