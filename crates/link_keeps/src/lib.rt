//! Where what a link hears keeps the limits of the wire, what it says keeps them too, so that it is read again as it was
//! written. Each law is the contract of a function that does nothing; nothing here runs.
#![tactic(auto)]

mod keeping;

pub use keeping::{
    replies_that_keep_fit, what_is_said_is_read_again, what_is_said_keeps_the_limits,
};
