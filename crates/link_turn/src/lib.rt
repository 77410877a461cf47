//! A turn of a link: the link with what it is asked and told, how it asks, and how it ends (OPC 10000-4, 5.5, 5.6, 5.10,
//! 5.12 and 5.13).
#![tactic(auto)]

mod answers;
mod asking;
mod closing;
mod levels;
mod link;
mod numbers;
mod requests;
mod saying;
mod services;
mod turn;
mod waiting;

pub use answers::{is_answer, is_answer_to, is_fault, is_good, is_good_status, is_reply_to};
pub use levels::level_of;
pub use link::Link;
pub use numbers::{ahead, is_jump, is_new, is_next};
pub use turn::Turn;
