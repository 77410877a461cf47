//! The laws of sets, after any lines of a scenario: the logs of hot and cold sets are safe, and the levels that a client reads
//! are those of its servers. Each is the contract of a function that does nothing; nothing here runs.
#![tactic(auto)]

mod levels;
mod safe;

pub use levels::levels_are_the_servers_own;
pub use safe::hot_and_cold_logs_are_safe;
pub use set_feeds::the_source_is_the_lines_changes;
pub use set_histories::histories_are_of_the_set;
