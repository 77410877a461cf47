//! Tells the lines of a log to listeners, to each those of one item.
#![tactic(auto)]

mod attached;
mod counts;
mod hearing;
mod laws;
mod limits;
mod telling;
#[cfg(test)]
mod tests;

pub use attached::Fanout;
pub use counts::Counting;
pub use hearing::{Listener, NoSuch, Stop, Stopped, Tally};
pub use laws::{each_is_told_its_lines, limits_are_kept, who_left_is_gone};
pub use limits::Limited;
