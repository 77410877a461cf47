//! What the other end of a connection hears of a server's life: what the server said there, message by message. Nothing
//! here runs.
#![tactic(auto)]

mod carried;
mod heard;

pub use carried::{publish_responses_are_messages, repeated_messages_were_sent};
pub use heard::{data_heard_were_sent, what_is_heard_was_said};
