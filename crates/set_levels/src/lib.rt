//! Each ServiceLevel that a client reads is one that the server had. The law is the contract of a function that does nothing;
//! nothing here runs.
#![tactic(auto)]

mod levels;

pub use levels::levels_read_were_had;
