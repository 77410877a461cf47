//! A server over bytes (OPC 10000-4 and 10000-6): one life of it, from `Server::new` on, by the events that its
//! surroundings tell it. It does no input and output of its own.
#![tactic(auto)]

mod event;
mod laws;
mod server;
mod step;

pub use event::{Piece, ServerEvent};
pub use laws::{bytes_are_messages, none_is_nothing, pieces_are_one};
pub use server::Server;
