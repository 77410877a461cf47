//! Sources and sinks in pieces whose calls fail. All other rows are in `cases/`.
use crate::command::run;
use crate::status::Status;
use std::alloc::Global;
use std::process::Abort;
use std::test::Fail;
use ua_edge::{MemSink, MemSource};

/// A command over bytes that come in pieces of seven, with its answer that goes in pieces of five.
#[derive(Clone, Copy)]
struct Command {
    words: &'static [&'static str],
    bytes: &'static [u8],
    answer: &'static str,
    /// The first ten bytes of the answer.
    front: &'static str,
}

const REPLAY: Command = Command {
    words: &["replay"],
    bytes: b"set direct 1\nitems 1 queue 2\nchange 1 10 1\nfeed 1 1\ntake 1 9\nend\n",
    answer: "data 1 10 1\ndone 1\n",
    front: "data 1 10 ",
};

const VALUE: Command = Command {
    words: &["show", "value"],
    bytes: &[5, 8, 5, 0, 0, 0, 0, 0, 0, 0, 10, 0, 0, 0, 0, 0, 0, 0],
    answer: "value 8 5\nsource 10\n",
    front: "value 8 5\n",
};

const STREAM: Command = Command {
    words: &["show", "stream"],
    bytes: b"MSGF\x08\0\0\0CLOF\x09\0\0\0aHE",
    answer: "frame 0 MSG F 8\nframe 8 CLO F 9\nrest 2\n",
    front: "frame 0 MS",
};

/// Runs a command with this call of its source and this one of its sink failing, where they aren't 0, and compares the
/// status and what is written.
fn ends(
    rt: &impl Abort,
    alloc: Global,
    command: &Command,
    failing: [u64; 2],
    status: Status,
    written: &str,
) -> Result<(), Fail> {
    let bytes = Vec::from_slice(alloc, command.bytes)?;
    let mut input = MemSource::new(bytes, Vec::from_slice(alloc, &[failing[0]])?).in_pieces(7);
    let calls = Vec::from_slice(alloc, &[failing[1]])?;
    let mut output = MemSink::new(Vec::new(alloc), calls).in_pieces(5);
    assert_eq!(rt; run(alloc, command.words, &mut input, &mut output), status);
    assert!(rt; output.as_bytes() == written.as_bytes());
    Ok(())
}

#[test]
fn faults_of_the_outside_are_told(rt: HostRuntime) -> Result<(), Fail> {
    let alloc = rt.alloc();
    for command in [REPLAY, VALUE, STREAM] {
        ends(&rt, alloc, &command, [0, 0], Status::Ok, command.answer)?;
        ends(&rt, alloc, &command, [1, 0], Status::ReadFault, "")?;
        ends(&rt, alloc, &command, [3, 0], Status::ReadFault, "")?;
        ends(&rt, alloc, &command, [0, 1], Status::WriteFault, "")?;
        ends(
            &rt,
            alloc,
            &command,
            [0, 3],
            Status::WriteFault,
            command.front,
        )?;
    }
    Ok(())
}
