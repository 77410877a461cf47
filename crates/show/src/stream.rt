//! `show stream`.

ghost use Rattle.std.specs.Prelude.{◌≡◌, ◌++◌, OnOk, IfOk};
ghost use Rattle.std.specs.List.{flat_map};
ghost use Rattle.show.specs.Answer.{Shows};
ghost use Rattle.show.specs.Stream.{IsFrameFault, frame_line, rest_line, shown_stream, IsShownStream};

use crate::fault::ShowFault;
use std::alloc::Global;
use ua_base::OutOfMemory;
use ua_chunks::{Frame, FrameFault, Framer};

/// Appends the line of a frame.
fn put_frame(frame: &Frame, to: &mut Vec<u8>) -> Result<(), OutOfMemory>
    ensures { OnOk result (to.new.items ≡ to.old.items ++ frame_line frame.now) }
{
    let place = frame.place;
    let kind = frame.kind;
    let chunk = frame.chunk;
    let size = 8 + frame.body.bytes().len();
    let text = format!(in *to.allocator(); "frame {place} {kind} {chunk} {size}\n")?;
    to.extend_from_slice(text.as_bytes())?;
    Ok(())
}

/// Appends a line for each frame.
fn put_frames(frames: &[Frame], to: &mut Vec<u8>) -> Result<(), OutOfMemory>
    ensures { OnOk result (to.new.items ≡ to.old.items ++ flat_map frame_line frames.now) }
{
    for frame in frames {
        put_frame(frame, to)?;
    }
    Ok(())
}

/// The text of frames, and of how many bytes are left.
fn stream_text(alloc: Global, frames: &[Frame], rest: usize) -> Result<Vec<u8>, OutOfMemory>
    ensures { IfOk result (λ text. text.items ≡ flat_map frame_line frames.now ++ rest_line rest) }
{
    let mut text = Vec::new(alloc);
    put_frames(frames, &mut text)?;
    let last = format!(in alloc; "rest {rest}\n")?;
    text.extend_from_slice(last.as_bytes())?;
    Ok(text)
}

/// What a fault of framing is to the reader of the text.
fn fault_of(fault: FrameFault) -> ShowFault
    ensures { IsFrameFault fault result }
{
    match fault {
        FrameFault::Bad { place, code } => ShowFault::Bad { place, code },
        FrameFault::OutOfMemory => ShowFault::OutOfMemory,
    }
}

/// What `show_stream` answers, by the framer and the printer alone.
fn shown(alloc: Global, bytes: &[u8]) -> Result<Vec<u8>, ShowFault>
    ensures exact { Shows (λ text. text.items) result (shown_stream bytes.now) }
{
    let mut framer = Framer::new(alloc);
    let mut frames = Vec::new(alloc);
    match framer.feed(alloc, bytes, &mut frames) {
        Ok(()) => {
            let text = stream_text(alloc, &frames, framer.rest())?;
            Ok(text)
        }
        Err(fault) => Err(fault_of(fault)),
    }
}

/// What `show stream` prints of one direction of a stream (OPC 10000-6, 7.1.2.2): for each frame a line
/// `frame PLACE KIND CHUNK SIZE`, PLACE being where its first byte stands, from 0 on, KIND its three letters, CHUNK its
/// fourth one, and SIZE its size with the header; and last `rest N`, how many bytes are left after the last whole
/// frame.
///
/// A header that breaks a rule is a fault at its first byte.
pub fn show_stream(alloc: Global, bytes: &[u8]) -> Result<Vec<u8>, ShowFault>
    ensures exact { Shows (λ text. text.items) result (shown_stream bytes.now) }
    ensures framed { IsShownStream (λ text. text.items) bytes.now result }
{
    shown(alloc, bytes)
}
