//! Reads lines from standard input and answers each before it reads the next: what the tables of this repository make
//! of calls. It is for the cases, and promises nothing. `cases/tables` tells how its rows stand.
#![tactic(auto)]

mod base_calls;
mod kept_calls;
mod log_calls;
mod log_lines;
mod node_calls;
mod queue_calls;
mod session_calls;
mod source_calls;
mod tables;
mod words;

use rows::{answer_all, end};
use std::process::ExitCode;
use tables::Tables;

fn main(rt: HostRuntime) -> ExitCode {
    match Tables::new(rt.alloc()) {
        Ok(mut tables) => end(&rt, answer_all(&rt, &mut tables)),
        Err(stop) => end(&rt, Err(stop)),
    }
}
