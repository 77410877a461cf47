//! What the values that a link tells owe to each other: each follows the one before it. Each law is the contract of a
//! function that does nothing; nothing here runs.
#![tactic(auto)]

mod following;

pub use following::values_of_a_link_follow;
