//! The definition of a set over messages, computed on worked scenarios of each redundant mode. Nothing here runs.
#![tactic(auto)]

mod rows;

pub use rows::worked_sets_have_their_reports;
