//! The rules of a server: what each message, each moment and each other event makes of it, and what it says then (OPC
//! 10000-4 and 10000-6). Its code is the plain data of which the rules speak; the rules stand in `specs/`.
#![tactic(auto)]

mod config;
mod conn;
mod durations;
mod opening;
mod trigger;
mod waiting;

pub use config::ServerConfig;
pub use conn::{Asker, Conn};
pub use durations::{
    duration_bits, revised_duration, revised_keep_alive, revised_lifetime, revised_most,
    revised_queue,
};
pub use opening::{OpeningRequest, SecurityMode, SecurityTokenRequestType};
pub use trigger::DataChangeTrigger;
pub use waiting::Waiting;
