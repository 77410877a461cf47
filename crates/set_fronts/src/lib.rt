//! What the ends of a connection put and took, over a whole scenario: what one end put is what the other took, and what is
//! in flight. The law is the contract of a function that does nothing; nothing here runs.
#![tactic(auto)]

mod laws;

pub use laws::{lives_have_numbers_of_their_own, notes_change_nothing, what_is_taken_was_put};
