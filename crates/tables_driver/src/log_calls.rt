//! The log of a client, and its rule.

ghost use Rattle.std.specs.Prelude.{◌≡◌, ◌≤◌, length, true};
ghost use Rattle.delivery_log.specs.Log.{Covers, CoversServer};

use crate::log_lines::{arrived, joint, line, turn};
use crate::words::some_stamp;
use delivery_log::{Joint, Log, Turn, judge};
use rows::{Stop, number, put, put_lines, truth};
use set_model::{Arrived, report_of, write_line};
use std::alloc::Global;

/// Answers the rule: the verdict on an entry, and the joint after it.
pub(crate) fn answer_judge(alloc: Global, words: [&str; 4], to: &mut String) -> Result<(), Stop> {
    let [last, before, time, marked] = words;
    let last = some_stamp(last)?;
    let before = joint(before)?;
    let time = some_stamp(time)?;
    let (verdict, after) = judge(last, before, time, truth(marked)?);
    put(to, format!(in alloc; "{verdict:?} {after:?}")?.as_str())
}

/// The log of a client.
#[derive(Drop)]
pub struct Journal {
    log: Log,
}

/// Whether a log is one of this server and item.
fn is_within(log: &Log, server: u8, item: u8) -> bool
    ensures { result ≡ true → Covers server item log.now }
{
    0 < server
        && usize::from(server) <= log.servers()
        && 0 < item
        && usize::from(item) <= log.items()
}

/// Whether a log is one of this server.
fn has_server(log: &Log, server: u8) -> bool
    ensures { result ≡ true → CoversServer server log.now }
{
    0 < server && usize::from(server) <= log.servers()
}

/// Whether a log is one of this item.
fn has_item(log: &Log, item: u8) -> bool
    ensures { result ≡ true → (1 ≤ item) × (item ≤ length log.now.lasts) }
{
    0 < item && usize::from(item) <= log.items()
}

impl Journal {
    pub(crate) fn new(alloc: Global, servers: u8, items: u8) -> Result<Journal, Stop> {
        let log = Log::new(alloc, servers, items)?;
        Ok(Journal { log })
    }

    fn enter(&mut self, alloc: Global, server: u8, item: u8, entry: &Arrived) -> Result<(), Stop> {
        if !is_within(&self.log, server, item) {
            return Err(Stop::BadLine);
        }
        self.log.enter(alloc, server, item, entry)?;
        Ok(())
    }

    fn set_joint(&mut self, server: u8, item: u8, joint: Joint) -> Result<(), Stop> {
        if !is_within(&self.log, server, item) {
            return Err(Stop::BadLine);
        }
        self.log.set_joint(server, item, joint);
        Ok(())
    }

    fn turn(&mut self, server: u8, item: u8, turn: Turn) -> Result<(), Stop> {
        if !is_within(&self.log, server, item) {
            return Err(Stop::BadLine);
        }
        self.log.turn(server, item, turn);
        Ok(())
    }

    fn turn_all(&mut self, server: u8, turn: Turn) -> Result<(), Stop> {
        if !has_server(&self.log, server) {
            return Err(Stop::BadLine);
        }
        self.log.turn_all(server, turn);
        Ok(())
    }

    fn put_last(&self, alloc: Global, item: u8, to: &mut String) -> Result<(), Stop> {
        if !has_item(&self.log, item) {
            return Err(Stop::BadLine);
        }
        match self.log.last(item) {
            Some(stamp) => put(to, format!(in alloc; "{stamp}")?.as_str()),
            None => put(to, "none"),
        }
    }

    fn put_joint(&self, alloc: Global, server: u8, item: u8, to: &mut String) -> Result<(), Stop> {
        if !is_within(&self.log, server, item) {
            return Err(Stop::BadLine);
        }
        let joint = self.log.joint(server, item);
        put(to, format!(in alloc; "{joint:?}")?.as_str())
    }

    fn begin(&mut self, alloc: Global, servers: u8, items: u8) -> Result<(), Stop> {
        self.log = Log::new(alloc, servers, items)?;
        Ok(())
    }

    fn enter_words(
        &mut self,
        alloc: Global,
        place: [&str; 2],
        entry: [&str; 3],
    ) -> Result<(), Stop> {
        let [server, item] = place;
        let server = number(server)?;
        let item = number(item)?;
        self.enter(alloc, server, item, &arrived(alloc, entry)?)
    }

    fn note(&mut self, alloc: Global, words: &[&str]) -> Result<(), Stop> {
        self.log.note(line(alloc, words)?)?;
        Ok(())
    }

    fn put_log(&self, alloc: Global, to: &mut String) -> Result<(), Stop> {
        let mut text = Vec::new(alloc);
        for line in self.log.lines() {
            write_line(alloc, line, &mut text)?;
        }
        put_lines(alloc, to, &text)
    }

    fn put_report(&self, alloc: Global, to: &mut String) -> Result<(), Stop> {
        put_lines(alloc, to, &report_of(alloc, self.log.lines())?)
    }

    /// Makes a call that answers nothing.
    fn make(&mut self, alloc: Global, words: &[&str]) -> Result<(), Stop> {
        match words {
            ["new", servers, items] => self.begin(alloc, number(servers)?, number(items)?),
            ["enter", server, item, time, value, bits] => {
                self.enter_words(alloc, [server, item], [time, value, bits])
            }
            ["set_joint", server, item, word] => {
                self.set_joint(number(server)?, number(item)?, joint(word)?)
            }
            ["turn", server, item, how @ ..] => {
                self.turn(number(server)?, number(item)?, turn(how)?)
            }
            ["turn_all", server, how @ ..] => self.turn_all(number(server)?, turn(how)?),
            ["note", words @ ..] => self.note(alloc, words),
            _ => Err(Stop::BadLine),
        }
    }

    /// Answers a call of these words.
    pub(crate) fn answer(
        &mut self,
        alloc: Global,
        words: &[&str],
        to: &mut String,
    ) -> Result<(), Stop> {
        match words {
            ["last", item] => self.put_last(alloc, number(item)?, to),
            ["joint", server, item] => self.put_joint(alloc, number(server)?, number(item)?, to),
            ["lines"] => self.put_log(alloc, to),
            ["report"] => self.put_report(alloc, to),
            _ => {
                self.make(alloc, words)?;
                put(to, "done")
            }
        }
    }
}
