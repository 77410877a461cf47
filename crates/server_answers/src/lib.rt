//! Which message of a server's answers which one that came, on each connection of its life, and what a Republish is
//! answered with. Nothing here runs.
#![tactic(auto)]

mod repeats;
mod turns;

pub use repeats::repeated_messages_were_kept_then;
pub use turns::answers_come_in_turn;
