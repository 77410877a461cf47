//! A server that is told events, and asked.

use crate::words::{change, event, plain};
use redundancy_nodes::{CurrentChanges, Member, Members};
use rows::{Driver, Stop, put, put_number};
use server_rules::ServerConfig;
use set_model::Change;
use std::alloc::Global;
use std::mem;
use ua_base::OutOfMemory;
use ua_server::Server;
use ua_values::UaText;

/// The moment at which each server starts.
const START: i64 = 132_000_000_000_000_000;

/// How many members a set has at most, and how many items a server.
const MOST_MEMBERS: u8 = 8;

const MOST_ITEMS: u8 = 64;

/// The number behind the last one of a port.
const PAST_PORTS: u32 = 65_536;

/// The highest number of a RedundancySupport (OPC 10000-5, 12.5).
const MOST_SUPPORT: u8 = 5;

/// A server, once it has begun, and its items' current values until then.
#[derive(Drop)]
pub(crate) struct Talk {
    current: Vec<Change>,
    server: Option<Server>,
}

/// The numbers with which a server begins.
#[derive(Clone, Copy)]
struct Numbers {
    boot: u16,
    number: u8,
    members: u8,
    support: u8,
    items: u8,
    base: u16,
}

/// A number of a range.
fn within<T: PartialOrd + Drop>(number: T, least: T, most: T) -> Result<T, Stop> {
    if number < least || number > most {
        Err(Stop::BadLine)
    } else {
        Ok(number)
    }
}

fn numbers_of(words: [&str; 6]) -> Result<Numbers, Stop> {
    let [boot, number, members, support, items, base] = words;
    let members = within(plain::<u8>(members)?, 1, MOST_MEMBERS)?;
    let base = within(plain::<u16>(base)?, 1, u16::MAX)?;
    within(u32::from(base) + u32::from(members), 0, PAST_PORTS)?;
    Ok(Numbers {
        boot: within(plain::<u16>(boot)?, 1, 65_535)?,
        number: within(plain::<u8>(number)?, 1, members)?,
        members,
        support: within(plain::<u8>(support)?, 0, MOST_SUPPORT)?,
        items: within(plain::<u8>(items)?, 1, MOST_ITEMS)?,
        base,
    })
}

fn text(alloc: Global, text: &str) -> Result<UaText, OutOfMemory> {
    Ok(UaText::new(Vec::from_slice(alloc, text.as_bytes())?))
}

/// The member behind so many others.
fn member(alloc: Global, before: u8, base: u16) -> Result<Member, OutOfMemory> {
    let number = u32::from(before) + 1;
    let port = u32::from(base) + u32::from(before);
    let uri = text(alloc, &format!(in alloc; "urn:uaset:server:{number}")?)?;
    let url = text(alloc, &format!(in alloc; "opc.tcp://127.0.0.1:{port}")?)?;
    Ok(Member { uri, url })
}

fn members(alloc: Global, count: u8, base: u16) -> Result<Members, OutOfMemory> {
    let mut list = Vec::new(alloc);
    for before in 0..count {
        list.push(member(alloc, before, base)?)?;
    }
    Ok(Members::new(list))
}

fn config(alloc: Global, numbers: Numbers) -> Result<ServerConfig, OutOfMemory> {
    let members = members(alloc, numbers.members, numbers.base)?;
    Ok(ServerConfig {
        boot: numbers.boot,
        number: numbers.number,
        support: numbers.support,
        members,
        items: numbers.items,
        start: START,
    })
}

impl Talk {
    /// A server that hasn't begun.
    pub(crate) fn new(alloc: Global) -> Talk {
        Talk {
            current: Vec::new(alloc),
            server: None,
        }
    }

    /// An item of the server that is to begin has a value.
    fn know(&mut self, change: Change, to: &mut String) -> Result<(), Stop> {
        within(change.item, 1, MOST_ITEMS)?;
        if self.current.iter().any(|known| known.item == change.item) {
            return Err(Stop::BadLine);
        }
        self.current.push(change)?;
        put(to, "ok")
    }

    fn begin(&mut self, alloc: Global, numbers: Numbers, to: &mut String) -> Result<(), Stop> {
        let items = numbers.items;
        if self.current.iter().any(|known| known.item > items) {
            return Err(Stop::BadLine);
        }
        let config = config(alloc, numbers)?;
        let current = mem::replace(&mut self.current, Vec::new(alloc));
        self.server = Some(Server::new(alloc, config, CurrentChanges::new(current)));
        put(to, "ok")
    }

    /// Answers a line before the server has begun.
    fn prepare(&mut self, alloc: Global, words: &[&str], to: &mut String) -> Result<(), Stop> {
        match words {
            ["current", item, at, value] => self.know(change(item, at, value)?, to),
            ["begin", boot, number, members, support, items, base] => {
                let numbers = numbers_of([boot, number, members, support, items, base])?;
                self.begin(alloc, numbers, to)
            }
            _ => Err(Stop::BadLine),
        }
    }
}

/// Takes the bytes of a connection, and tells them.
fn take(alloc: Global, server: &mut Server, conn: u32, to: &mut String) -> Result<(), Stop> {
    let mut bytes = Vec::new(alloc);
    server.take_out(alloc, conn, &mut bytes)?;
    put(to, "put ")?;
    if bytes.is_empty() {
        put(to, "-")
    } else {
        put(to, hex::encode(alloc, &bytes)?.as_str())
    }
}

/// Answers a line once the server has begun.
fn answer(alloc: Global, server: &mut Server, words: &[&str], to: &mut String) -> Result<(), Stop> {
    match words {
        ["out", conn] => {
            put(to, "out ")?;
            put_number(alloc, to, server.out(plain(conn)?).len() as u64)
        }
        ["take", conn] => take(alloc, server, plain(conn)?, to),
        ["closing", conn] => put(
            to,
            if server.closing(plain(conn)?) {
                "yes"
            } else {
                "no"
            },
        ),
        ["held", conn] => {
            put(to, "held ")?;
            put_number(alloc, to, server.held(plain(conn)?) as u64)
        }
        _ => {
            server.step(alloc, &event(alloc, words)?)?;
            put(to, "ok")
        }
    }
}

impl Driver for Talk {
    fn answer(&mut self, alloc: Global, words: &[&str], to: &mut String) -> Result<(), Stop> {
        match &mut self.server {
            Some(server) => answer(alloc, server, words, to),
            None => self.prepare(alloc, words, to),
        }
    }
}
