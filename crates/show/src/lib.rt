//! What the commands `show value` and `show stream` print.
#![tactic(auto)]

mod fault;
mod stream;
mod text;
mod value;

pub use fault::ShowFault;
pub use stream::show_stream;
pub use value::show_value;
