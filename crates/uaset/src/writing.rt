ghost use Rattle.std.specs.Prelude.{◌≡◌, ◌≤◌, Err, length, OnOk, OnErr};
ghost use Rattle.ua_edge.specs.Calls.{Rose};
ghost use Rattle.uaset.specs.Edges.{HasAppended, HasAppendedFront};

use ua_edge::{Put, Sink};

/// Why not all bytes were written.
#[derive(Clone, Copy)]
pub(crate) enum WriteStop {
    Failed,
    OutOfMemory,
}

/// Writes all of the bytes.
pub(crate) fn write_all<O: Sink>(output: &mut O, bytes: &[u8]) -> Result<(), WriteStop>
    ensures all { OnOk result (HasAppended (O.written output.old) (O.written output.new) bytes.now) }
    ensures part { OnErr result (HasAppendedFront (O.written output.old) (O.written output.new) bytes.now) }
    ensures count { O.faults output.old ≤ O.faults output.new }
    ensures failed { result ≡ Err WriteStop.Failed → Rose (O.faults output.old) (O.faults output.new) }
{
    let mut rest = bytes;
    while !rest.is_empty() {
        match output.put(rest) {
            Put::Wrote(count) => rest = rest.split_at(count).1,
            Put::Failed => return Err(WriteStop::Failed),
            Put::OutOfMemory => return Err(WriteStop::OutOfMemory),
        }
    }
    Ok(())
}
