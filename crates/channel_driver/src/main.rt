//! Reads lines from standard input and answers each before it reads the next: what ends of connections make of bytes,
//! and how the ends of a node stand by their numbers.
//! It is for the cases, and promises nothing. The rows of `cases/channel.rows` show the lines.
#![tactic(auto)]

mod echo;
mod line;
mod relay;

use line::Ends;
use rows::{answer_all, end};
use std::process::ExitCode;

fn main(rt: HostRuntime) -> ExitCode {
    end(&rt, answer_all(&rt, &mut Ends))
}
