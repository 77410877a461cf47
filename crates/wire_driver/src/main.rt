//! Reads lines from standard input and answers each before it reads the next: what the built-in types, frames, chunks,
//! greetings and `show` of this repository are made of bytes, and bytes of them.
//! It is for the cases and the benches, and promises nothing. The rows of `cases/` show the lines.
#![tactic(auto)]

mod calls;
mod frames;
mod greetings;
mod messages;
mod nested;
mod numbers;
mod putting;
mod shown;
mod texts;
mod types;
mod wire;

use rows::{answer_all, end};
use std::process::ExitCode;
use wire::Wire;

fn main(rt: HostRuntime) -> ExitCode {
    end(&rt, answer_all(&rt, &mut Wire))
}
