//! What a subscription tells while none of its items is set to Disabled, and what begins anew then. Nothing here runs.
#![tactic(auto)]

mod eras;

pub use eras::entries_of_an_era_are_linked;
