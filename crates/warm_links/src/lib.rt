//! What the values that a link tells owe to each other where its items are off from time to time. The law is the contract of a
//! function that does nothing; nothing here runs.
#![tactic(auto)]

mod following;

pub use following::values_of_a_reporting_link_follow;
