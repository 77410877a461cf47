//! Of which subscription the data are that a link takes, and which one its requests name. Each law is the contract of a
//! function that does nothing; nothing here runs.
#![tactic(auto)]

mod exchange;
mod naming;
mod taking;

pub use exchange::republished_messages_were_asked_for;
pub use naming::requests_name_what_is_remembered;
pub use taking::{data_come_of_the_subscription, steps_make_courses};
