//! The outside as traits: where bytes come from and where they go, in memory and over standard input and output.
//!
//! Each object counts its faults. The count never falls, and a call answers `Failed` only where it rose in that call
//! (or stands at the last value of its type). An object may tell its bytes to contracts; the forms in memory do.
#![tactic(auto)]

mod calls;
mod sink;
mod source;
mod standard;
#[cfg(test)]
mod tests;

pub use sink::{MemSink, Put, Sink};
pub use source::{MemSource, Source, Took};
pub use standard::{ReadSource, WriteSink};
