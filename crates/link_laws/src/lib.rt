//! What the rules of a link come to, over any list of events and whatever its server sends. Each law is the contract of a
//! function that does nothing; nothing here runs.
#![tactic(auto)]

mod counts;
mod course;
mod lockstep;
mod missing;
mod numbers;
mod requests;
mod telling;

pub use counts::{dials_are_paced, levels_are_read, publishes_are_few};
pub use course::{numbers_go_onward, runs_follow, subscriptions_have_courses};
pub use lockstep::requests_go_in_lockstep;
pub use missing::missed_messages_are_asked_for;
pub use numbers::{acknowledged_were_heard, requests_are_numbered};
pub use requests::{items_are_made_once, modes_are_confirmed, modes_are_wanted};
pub use telling::links_alternate;
