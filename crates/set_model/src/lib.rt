//! The data that servers and client speak of: changes of a source, entries that arrive, and the lines of a log.
#![tactic(auto)]

mod line;
mod report;
mod source;
mod stamp;

pub use line::{Arrived, GapCause, LogLine, Seen, UaRaw, write_line};
pub use report::report_of;
pub use source::{Change, MOST_CHANGES, SourceEnd, SourceFault, SourceLog};
pub use stamp::{MOST_PICO, Stamp, stamps_are_ordered};
