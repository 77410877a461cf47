//! The rules of a link, the client's end of one connection after another to one server: what each message, each moment
//! and each other event makes of it, what it asks then and what it tells its client (OPC 10000-4, 5.5, 5.6, 5.12, 5.13
//! and 6.6.2). Its code is the plain data of which the rules speak; the rules stand in `specs/`.
#![tactic(auto)]

mod config;
mod content;
mod conversation;
mod notice;
mod phase;
mod remembered;

pub use config::LinkConfig;
pub use content::Content;
pub use conversation::{Asked, Conversation};
pub use notice::{Notice, Wish};
pub use phase::{Phase, Publishes, ReadyState, Setting};
pub use remembered::{Monitored, Remembered};
