//! The tables that lines speak of.

use crate::base_calls;
use crate::kept_calls::KeptTable;
use crate::log_calls::{Journal, answer_judge};
use crate::node_calls::{NodeTable, answer_class};
use crate::queue_calls::QueueTable;
use crate::session_calls::SessionTable;
use crate::source_calls::SourceTable;
use rows::{Driver, Stop};
use std::alloc::Global;

/// One of each table. A line `NAME new ..` makes its table anew.
#[derive(Drop)]
pub(crate) struct Tables {
    sessions: SessionTable,
    kept: KeptTable,
    nodes: NodeTable,
    queue: QueueTable,
    log: Journal,
    source: SourceTable,
}

impl Tables {
    pub(crate) fn new(alloc: Global) -> Result<Tables, Stop> {
        let kept = KeptTable::new(alloc)?;
        let queue = QueueTable::new(alloc)?;
        let log = Journal::new(alloc, 1, 1)?;
        Ok(Tables {
            sessions: SessionTable::new(alloc, 1),
            kept,
            nodes: NodeTable::new(alloc),
            queue,
            log,
            source: SourceTable::new(alloc),
        })
    }
}

impl Driver for Tables {
    fn answer(&mut self, alloc: Global, words: &[&str], to: &mut String) -> Result<(), Stop> {
        match words {
            ["session", call @ ..] => self.sessions.answer(alloc, call, to),
            ["kept", call @ ..] => self.kept.answer(alloc, call, to),
            ["nodes", call @ ..] => self.nodes.answer(alloc, call, to),
            ["queue", call @ ..] => self.queue.answer(alloc, call, to),
            ["log", call @ ..] => self.log.answer(alloc, call, to),
            ["source", call @ ..] => self.source.answer(alloc, call, to),
            ["judge", last, joint, time, marked] => {
                answer_judge(alloc, [last, joint, time, marked], to)
            }
            ["class", level] => answer_class(alloc, level, to),
            _ => base_calls::answer(alloc, words, to),
        }
    }
}
