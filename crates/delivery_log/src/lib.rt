//! The client's log: the rule by which entries enter it, and the law of what its lines then say of the source.
#![tactic(auto)]

mod client_log;
mod laws;
mod rule;

pub use client_log::{Joints, Log};
pub use laws::{
    a_log_can_be_taken_over, fed_is_in_order, gaps_have_true_causes, gaps_of_both_have_true_causes,
    log_stands_for_its_history, logs_of_both_are_safe, logs_of_both_stand_for_both_histories,
    safe_log_tells, well_fed_is_safe,
};
pub use rule::{Joint, Turn, Verdict, judge};
