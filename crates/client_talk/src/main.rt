//! Reads lines from standard input and answers each before it reads the next: one life of a client, by every call that
//! it has. It is for the cases, and promises nothing. `docs/client.md` tells the lines.
#![tactic(auto)]

mod talk;
mod words;

use rows::{answer_all, end};
use std::process::ExitCode;
use talk::Talk;

fn main(rt: HostRuntime) -> ExitCode {
    let mut talk = Talk::new();
    end(&rt, answer_all(&rt, &mut talk))
}
