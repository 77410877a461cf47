ghost use Rattle.std.specs.Prelude.{◌≡◌, ◌<◌, ◌≤◌, ◌+◌, ◌^◌, ◌++◌, length, OnErr, OnOk};
ghost use Rattle.ua_chunks.specs.Streams.{chunk_bytes, start_bytes};
ghost use Rattle.ua_chunks.specs.declared.frame.Chunk.TheVariants as chunk;

use crate::frame::{Chunk, HEADER, Kind};
use std::alloc::Global;
use ua_base::OutOfMemory;
use ua_values::{append, write_uint32};

/// Appends the header of a frame that has so many bytes behind it. Want of memory leaves what was appended by then.
pub(crate) fn put_start(
    kind: Kind,
    chunk: Chunk,
    count: usize,
    to: &mut Vec<u8>,
) -> Result<(), OutOfMemory>
    requires { 8 + count < 2 ^ 32 }
    ensures { OnOk result (to.new.items ≡ to.old.items ++ start_bytes kind chunk count) }
{
    to.extend_from_slice(kind.letters().as_bytes())?;
    to.extend_from_slice(chunk.letter().as_bytes())?;
    write_uint32((HEADER + count) as u32, to)?;
    Ok(())
}

/// Appends a frame. Want of memory leaves what was appended by then.
pub(crate) fn put_frame(
    kind: Kind,
    chunk: Chunk,
    body: &[u8],
    to: &mut Vec<u8>,
) -> Result<(), OutOfMemory>
    requires { 8 + length body.now < 2 ^ 32 }
    ensures { OnOk result (to.new.items ≡ to.old.items ++ chunk_bytes kind chunk body.now) }
{
    put_start(kind, chunk, body.len(), to)?;
    to.extend_from_slice(body)?;
    Ok(())
}

/// Appends a whole frame of one part: the header of this kind, and the body. Want of memory leaves the list as it was.
pub fn write_frame(
    alloc: Global,
    kind: Kind,
    body: &[u8],
    to: &mut Vec<u8>,
) -> Result<(), OutOfMemory>
    requires { length body.now ≤ 65528 }
    ensures ok { OnOk result (to.new.items ≡ to.old.items ++ chunk_bytes kind chunk.Final body.now) }
    ensures unchanged { OnErr result (to.new.items ≡ to.old.items) }
{
    let mut built = Vec::new(alloc);
    put_frame(kind, Chunk::Final, body, &mut built)?;
    append(&built, to)
}
