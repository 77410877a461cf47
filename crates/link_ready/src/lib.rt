//! What a link does whose subscription sends messages, at each reply and as time goes by (OPC 10000-4, 5.5.2, 5.10.2,
//! 5.12.4, 5.13.5 and 6.6.2.4.2).
#![tactic(auto)]

mod levels;
mod modes;
mod ready;
mod replies;
mod time;

pub use ready::in_ready;
pub use time::ticked;
