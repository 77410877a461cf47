//! The listeners that are attached, as they lie in memory.
ghost use Rattle.std.specs.Prelude.{◌≤◌, vec_capacity};

use crate::hearing::Listener;

/// A listener with its id and its item.
#[derive(Drop)]
pub(crate) struct Entry {
    pub(crate) id: u8,
    pub(crate) item: u8,
    pub(crate) listener: Box<dyn Listener>,
}

/// Those that are told the lines of a log, at most 16 at a time.
///
/// Ids are 1, 2, 3 and so on to 255, in the order of attaching, and none is given again.
#[derive(Drop)]
pub struct Fanout {
    pub(crate) entries: Vec<Entry>,
    pub(crate) last: u8,
    ghost room: { 16 ≤ vec_capacity entries },
}
