//! Reads lines from standard input and answers each before it reads the next: what is read and written of scenarios,
//! and those that are made from a seed. It is for the cases, and promises nothing. `cases/scenario` tells how its rows
//! stand.
#![tactic(auto)]

mod calls;

use calls::Scenarios;
use rows::{answer_all, end};
use std::process::ExitCode;

fn main(rt: HostRuntime) -> ExitCode {
    end(&rt, answer_all(&rt, &mut Scenarios))
}
