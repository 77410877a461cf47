//! Reads lines from standard input and answers each before it reads the next: what a subscription makes of calls. It is
//! for the cases, and promises nothing. `cases/subscription` tells how its rows stand.
#![tactic(auto)]

mod calls;
mod making;
mod telling;

use calls::Calls;
use making::blank;
use rows::{Stop, answer_all, end};
use std::process::ExitCode;

fn answer(rt: &HostRuntime) -> Result<(), Stop> {
    let mut calls = Calls::new(blank(rt.alloc())?);
    answer_all(rt, &mut calls)
}

fn main(rt: HostRuntime) -> ExitCode {
    end(&rt, answer(&rt))
}
