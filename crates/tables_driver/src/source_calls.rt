//! The source of a set.

use crate::words::change;
use rows::{Stop, put, put_number};
use set_model::{SourceFault, SourceLog};
use std::alloc::Global;

#[derive(Drop)]
pub struct SourceTable {
    source: SourceLog,
}

impl SourceTable {
    pub(crate) fn new(alloc: Global) -> SourceTable {
        SourceTable {
            source: SourceLog::new(alloc),
        }
    }

    fn begin(&mut self, alloc: Global, to: &mut String) -> Result<(), Stop> {
        self.source = SourceLog::new(alloc);
        put(to, "done")
    }

    fn append(&mut self, alloc: Global, words: [&str; 3], to: &mut String) -> Result<(), Stop> {
        let [item, at, value] = words;
        let change = change(item, at, value)?;
        match self.source.append(change) {
            Ok(()) => put(to, "done"),
            Err(SourceFault::OutOfMemory) => Err(Stop::OutOfMemory),
            Err(fault) => put(to, format!(in alloc; "{fault}")?.as_str()),
        }
    }

    /// Answers a call of these words.
    pub(crate) fn answer(
        &mut self,
        alloc: Global,
        words: &[&str],
        to: &mut String,
    ) -> Result<(), Stop> {
        match words {
            ["new"] => self.begin(alloc, to),
            ["append", item, at, value] => self.append(alloc, [item, at, value], to),
            ["len"] => put_number(alloc, to, self.source.changes().len() as u64),
            _ => Err(Stop::BadLine),
        }
    }
}
