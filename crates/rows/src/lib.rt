//! What the drivers of `cases/` share: the words of a line, bytes in hexadecimal digits, and how an answer is told.
//! It is for the cases and the benches, and promises nothing but that it ends and is safe.
#![tactic(auto)]

mod asking;
mod digits;
mod driver;
mod fronts;
mod stop;
mod telling;
mod words;

pub use asking::{Types, answer_asked};
pub use digits::{bytes_of, decode, put_bytes};
pub use driver::{Driver, answer_all, end};
pub use stop::Stop;
pub use telling::{BEFORE, Kind, Verb, begun, put_behind, put_debug, put_place, tell, tell_front};
pub use words::{number, positive, put, put_bar, put_lines, put_number, put_truth, truth};
