//! What the lives of a set's servers are fed of its source. The laws are contracts of functions that do nothing; nothing here
//! runs.
#![tactic(auto)]

mod laws;

pub use laws::{
    known_changes_end_the_source, lives_are_fed_from_the_source, the_source_is_the_lines_changes,
};
