//! What feeds the log of a warm set's client. The law is the contract of a function that does nothing; nothing here runs.
#![tactic(auto)]

mod feeding;

pub use feeding::values_while_reporting_feed_the_log;
