//! Where what a client hears keeps the limits of the wire, what it says to its servers keeps them too, so that it is read
//! again as it was written. Each law is the contract of a function that does nothing; nothing here runs.
#![tactic(auto)]

mod keeping;

pub use keeping::what_is_said_keeps_the_limits;
