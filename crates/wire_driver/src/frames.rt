//! Frames of a stream that comes in pieces.

ghost use Rattle.std.specs.Prelude.{◌<◌};

use rows::{Stop, put, put_bar, put_bytes, put_place};
use std::alloc::Global;
use ua_chunks::{Frame, FrameFault, Framer};

pub(crate) fn put_frame_fault(
    alloc: Global,
    fault: FrameFault,
    to: &mut String,
) -> Result<(), Stop> {
    match fault {
        FrameFault::Bad { place, code } => put_place(alloc, place, code, to),
        FrameFault::OutOfMemory => Err(Stop::OutOfMemory),
    }
}

/// Feeds the bytes in pieces of so many, up to the first fault.
pub(crate) fn feed(
    alloc: Global,
    framer: &mut Framer,
    cut: usize,
    bytes: &[u8],
    frames: &mut Vec<Frame>,
) -> Result<(), FrameFault>
    requires { 0 < cut }
{
    let mut answer = Ok(());
    for piece in bytes.chunks(cut) {
        answer = framer.feed(alloc, piece, frames);
    }
    answer
}

/// A frame's kind, part, size and body, after its place.
fn put_frame(alloc: Global, frame: &Frame, to: &mut String) -> Result<(), Stop> {
    let Frame {
        place: _,
        kind,
        chunk,
        body,
    } = frame;
    let size = body.len().saturating_add(8);
    put(to, format!(in alloc; "{kind} {chunk} {size} ")?.as_str())?;
    put_bytes(alloc, body.bytes(), to)
}

/// Equal frames that stand one behind the other.
#[derive(Drop)]
struct Row {
    place: u64,
    text: String,
    size: u64,
    count: u64,
}

impl Row {
    /// Whether the frame is one more of these.
    fn goes_on(&self, frame: &Frame, text: &str) -> bool {
        self.text.as_str() == text
            && self.count > 0
            && frame.place
                == self
                    .place
                    .saturating_add(self.count.saturating_mul(self.size))
    }

    /// Appends the first one's place, and how many they are, where they are several.
    fn put(&self, alloc: Global, to: &mut String) -> Result<(), Stop> {
        if self.count == 0 {
            return Ok(());
        }
        put_bar(to)?;
        let Row {
            place,
            text,
            size: _,
            count,
        } = self;
        put(to, format!(in alloc; "{place} {text}")?.as_str())?;
        if *count > 1 {
            put(to, format!(in alloc; ", {count} times")?.as_str())?;
        }
        Ok(())
    }
}

fn text_of(alloc: Global, frame: &Frame) -> Result<String, Stop> {
    let mut text = String::new(alloc);
    put_frame(alloc, frame, &mut text)?;
    Ok(text)
}

/// Counts the frame among those before it, or begins a new row.
fn add(alloc: Global, frame: &Frame, row: &mut Row, to: &mut String) -> Result<(), Stop> {
    let text = text_of(alloc, frame)?;
    if row.goes_on(frame, &text) {
        row.count = row.count.saturating_add(1);
        return Ok(());
    }
    row.put(alloc, to)?;
    row.place = frame.place;
    row.text = text;
    row.size = (frame.body.len() as u64).saturating_add(8);
    row.count = 1;
    Ok(())
}

/// Appends all frames.
fn put_frames(alloc: Global, frames: &[Frame], to: &mut String) -> Result<(), Stop> {
    let mut row = Row {
        place: 0,
        text: String::new(alloc),
        size: 0,
        count: 0,
    };
    for frame in frames {
        add(alloc, frame, &mut row, to)?;
    }
    row.put(alloc, to)
}

/// Appends how many bytes are left.
fn put_rest(alloc: Global, framer: &Framer, to: &mut String) -> Result<(), Stop> {
    put_bar(to)?;
    let rest = framer.rest();
    put(to, format!(in alloc; "rest {rest}")?.as_str())
}

/// Appends the fault, where there is one.
pub(crate) fn put_answer(
    alloc: Global,
    answer: Result<(), FrameFault>,
    to: &mut String,
) -> Result<(), Stop> {
    match answer {
        Ok(()) => Ok(()),
        Err(fault) => {
            put_bar(to)?;
            put_frame_fault(alloc, fault, to)
        }
    }
}

/// What a framer says after a fault: to no bytes, to one more, and how many are left.
fn put_after(
    alloc: Global,
    framer: &mut Framer,
    frames: &mut Vec<Frame>,
    to: &mut String,
) -> Result<(), Stop> {
    let count = frames.len();
    let answer = framer.feed(alloc, &[], frames);
    put_answer(alloc, answer, to)?;
    let answer = framer.feed(alloc, b"M", frames);
    put_answer(alloc, answer, to)?;
    if frames.len() != count {
        put(to, " more frames")?;
    }
    put_rest(alloc, framer, to)
}

/// The frames of bytes that come in two parts, each in pieces of so many; what is left; and, where there is a fault,
/// it, and what is said of it when more is fed.
pub(crate) fn tell_frames(
    alloc: Global,
    cut: usize,
    parts: [&[u8]; 2],
    to: &mut String,
) -> Result<(), Stop>
    requires { 0 < cut }
{
    let [first, second] = parts;
    let mut framer = Framer::new(alloc);
    let mut frames = Vec::new(alloc);
    let early = feed(alloc, &mut framer, cut, first, &mut frames);
    let late = framer.feed(alloc, &[], &mut frames);
    let answer = if early != late {
        early
    } else {
        feed(alloc, &mut framer, cut, second, &mut frames).and(late)
    };
    put_frames(alloc, &frames, to)?;
    put_rest(alloc, &framer, to)?;
    if answer.is_err() {
        put_answer(alloc, answer, to)?;
        put_after(alloc, &mut framer, &mut frames, to)?;
    }
    Ok(())
}

fn text_of_cut(alloc: Global, cut: usize, parts: [&[u8]; 2]) -> Result<String, Stop>
    requires { 0 < cut }
{
    let mut text = String::new(alloc);
    tell_frames(alloc, cut, parts, &mut text)?;
    Ok(text)
}

/// Appends what comes of bytes that are cut in two at this place, where that is another answer.
fn put_other(
    alloc: Global,
    place: usize,
    bytes: &[u8],
    whole: &str,
    to: &mut String,
) -> Result<(), Stop> {
    let Some((first, second)) = bytes.split_at_checked(place) else {
        return Ok(());
    };
    let text = text_of_cut(alloc, bytes.len().max(1), [first, second])?;
    if text.as_str() != whole {
        put(
            to,
            format!(in alloc; " BUT CUT AT {place}: {text}")?.as_str(),
        )?;
    }
    Ok(())
}

/// The frames of bytes that come at once, and any other answer when they come one by one, or in two parts.
pub(crate) fn tell_cuts(alloc: Global, bytes: &[u8], to: &mut String) -> Result<(), Stop> {
    let whole = text_of_cut(alloc, bytes.len().max(1), [bytes, &[]])?;
    put(to, &whole)?;
    let single = text_of_cut(alloc, 1, [bytes, &[]])?;
    if single != whole {
        put(to, format!(in alloc; " BUT ONE BY ONE: {single}")?.as_str())?;
    }
    for place in 0..=bytes.len() {
        put_other(alloc, place, bytes, &whole, to)?;
    }
    Ok(())
}

/// How many frames there are, and how many bytes are left.
pub(crate) fn tell_count(
    alloc: Global,
    cut: usize,
    bytes: &[u8],
    to: &mut String,
) -> Result<(), Stop>
    requires { 0 < cut }
{
    let mut framer = Framer::new(alloc);
    let mut frames = Vec::new(alloc);
    let mut count: usize = 0;
    for piece in bytes.chunks(cut) {
        if let Err(fault) = framer.feed(alloc, piece, &mut frames) {
            return put_frame_fault(alloc, fault, to);
        }
        count = count.saturating_add(frames.len());
        frames.clear();
    }
    put(to, format!(in alloc; "{count} frames")?.as_str())?;
    put_rest(alloc, &framer, to)
}
