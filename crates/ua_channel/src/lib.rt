//! One end of a connection: bytes to whole messages and back (OPC 10000-6, 6.7 and 7.1), for server and client alike.
#![tactic(auto)]

mod channel;
mod channels;
mod ear;
mod ends;
mod fault;
mod heard;
mod hub;
mod laws;
mod node;
mod side;
mod wire;

pub use channel::{Channel, MOST_HELD};
pub use channels::Channels;
pub use ear::Ear;
pub use ends::{empty_end, obey_at, obey_each, shut_end, take_out};
pub use fault::ChannelFault;
pub use heard::Heard;
pub use hub::{Hub, Rest};
pub use laws::{
    chains_arrive, fronts_are_heard, messages_are_heard, messages_show_bytes, numbers_go_on,
    pieces_are_one,
};
pub use node::{Core, obey_all, take_bytes};
pub use side::Side;
pub use wire::{Limits, Order, Wire};
