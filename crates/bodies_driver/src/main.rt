//! Reads lines from standard input and answers each before it reads the next: what the messages' bodies, and what
//! they are put together from, are made of bytes, and bytes of them. It is for the cases and the benches, and
//! promises nothing. The rows of `cases/` show the lines.
#![tactic(auto)]

mod bodies;
mod calls;
mod elements;
mod kinds;
mod messages;
mod objects;
mod services;
mod sole;

use bodies::Bodies;
use rows::{answer_all, end};
use std::process::ExitCode;

fn main(rt: HostRuntime) -> ExitCode {
    end(&rt, answer_all(&rt, &mut Bodies))
}
