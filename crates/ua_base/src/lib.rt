//! What every crate of the set needs: want of memory, the modes, durations, number steps, and the status codes.
#![tactic(auto)]

mod duration;
mod memory;
mod modes;
mod number;
pub mod status;

pub use duration::{MOST_MS, bits_of_ms, ms_of_bits, reads_again};
pub use memory::OutOfMemory;
pub use modes::{Mode, SetMode, Timestamps, numbers_are_read_again};
pub use number::{LAST_CHUNK, next_chunk, next_message};
