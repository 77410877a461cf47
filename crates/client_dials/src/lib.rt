//! The connections of a link, one after another: what is heard and said on each. Each law is the contract of a function that
//! does nothing; nothing here runs.
#![tactic(auto)]

mod dials;

pub use dials::{
    connections_are_few, items_are_asked_for_where_made, what_is_heard_comes_on_a_connection,
};
