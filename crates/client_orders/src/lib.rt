//! The orders that a client gives for its servers' connections: each end may be given them, what is put fits where the
//! server hears it, and a link's connection stands until it ends. Each law is the contract of a function that does
//! nothing; nothing here runs.
#![tactic(auto)]

mod laws;

pub use laws::{
    a_connection_stands, connections_stand, orders_are_lawful,
    orders_are_lawful_on_each_connection, what_a_link_says_is_lawful,
    what_is_put_fits_where_it_is_heard,
};
