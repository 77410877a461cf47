//! Where the messages that a server takes keep the limits (numbers that their types hold, texts and lists that a reader
//! takes), those that it puts keep them; so each of them is read again. It is said of the server's rules alone (OPC
//! 10000-4), and nothing here runs.
#![tactic(auto)]

mod laws;

pub use laws::{
    orders_are_lawful, requests_that_keep_fit, what_is_put_is_read_again,
    what_is_put_keeps_the_limits,
};
