//! A client that is told events, and asked.

use crate::words::{event, mode, oldest, plain};
use client_rules::ClientConfig;
use link_rules::Wish;
use rows::{Driver, Stop, put, put_number};
use set_model::LogLine;
use std::alloc::Global;
use ua_base::{OutOfMemory, SetMode};
use ua_client::Client;
use ua_structures::UaArray;
use ua_values::UaText;

/// The moment at which each client starts.
const START: i64 = 132_000_000_000_000_000;

/// How many servers a set has at most, and how many items a client.
const MOST_SERVERS: u8 = 8;

const MOST_ITEMS: u8 = 64;

/// How many values of an item may wait at least and at most.
const LEAST_QUEUE: u32 = 2;

const MOST_QUEUE: u32 = 1000;

/// The number behind the last one of a port.
const PAST_PORTS: u32 = 65_536;

/// A client, once it has begun, and how many of its lines were told.
#[derive(Drop)]
pub(crate) struct Talk {
    client: Option<Client>,
    told: usize,
}

/// The words with which a client begins.
#[derive(Clone, Copy)]
struct Numbers {
    mode: SetMode,
    servers: u8,
    items: u8,
    queue: u32,
    oldest: bool,
    base: u16,
}

/// A number of a range.
fn within<T: PartialOrd + Drop>(number: T, least: T, most: T) -> Result<T, Stop> {
    if number < least || number > most {
        Err(Stop::BadLine)
    } else {
        Ok(number)
    }
}

fn numbers_of(words: [&str; 6]) -> Result<Numbers, Stop> {
    let [set, servers, items, queue, rule, base] = words;
    let servers = within(plain::<u8>(servers)?, 1, MOST_SERVERS)?;
    let base = within(plain::<u16>(base)?, 1, u16::MAX)?;
    within(u32::from(base) + u32::from(servers), 0, PAST_PORTS)?;
    Ok(Numbers {
        mode: mode(set)?,
        servers,
        items: within(plain::<u8>(items)?, 1, MOST_ITEMS)?,
        queue: within(plain::<u32>(queue)?, LEAST_QUEUE, MOST_QUEUE)?,
        oldest: oldest(rule)?,
        base,
    })
}

/// The url of the server behind so many others.
fn url(alloc: Global, before: u8, base: u16) -> Result<UaText, OutOfMemory> {
    let port = u32::from(base) + u32::from(before);
    let text = format!(in alloc; "opc.tcp://127.0.0.1:{port}")?;
    Ok(UaText::new(Vec::from_slice(alloc, text.as_bytes())?))
}

fn urls(alloc: Global, count: u8, base: u16) -> Result<UaArray<UaText>, OutOfMemory> {
    let mut list = Vec::new(alloc);
    for before in 0..count {
        list.push(url(alloc, before, base)?)?;
    }
    Ok(UaArray::new(list))
}

fn config(alloc: Global, numbers: Numbers) -> Result<ClientConfig, OutOfMemory> {
    let urls = urls(alloc, numbers.servers, numbers.base)?;
    Ok(ClientConfig {
        mode: numbers.mode,
        urls,
        items: numbers.items,
        queue: numbers.queue,
        oldest: numbers.oldest,
        start: START,
    })
}

/// A client that begins.
fn begun(alloc: Global, config: ClientConfig) -> Result<Client, Stop> {
    let servers = config.urls.len();
    if servers < 1 || servers > usize::from(MOST_SERVERS) {
        return Err(Stop::BadLine);
    }
    match config.mode {
        SetMode::Hot | SetMode::Warm | SetMode::Cold => Ok(Client::new(alloc, config)?),
        SetMode::Direct => Err(Stop::BadLine),
    }
}

/// Takes the bytes for a server, and tells them.
fn take(alloc: Global, client: &mut Client, server: u8, to: &mut String) -> Result<(), Stop> {
    let mut bytes = Vec::new(alloc);
    client.take_out(alloc, server, &mut bytes)?;
    put(to, "put ")?;
    if bytes.is_empty() {
        put(to, "-")
    } else {
        put(to, hex::encode(alloc, &bytes)?.as_str())
    }
}

/// Takes the wish for a server, and tells it.
fn wish(client: &mut Client, server: u8, to: &mut String) -> Result<(), Stop> {
    put(
        to,
        match client.take_wish(server) {
            Wish::None => "none",
            Wish::Dial => "dial",
            Wish::Close => "close",
        },
    )
}

/// Puts a line of the report behind a line feed, without its own.
fn put_line(alloc: Global, line: &LogLine, to: &mut String) -> Result<(), Stop> {
    let text = format!(in alloc; "\n{line}")?;
    match text.as_str().strip_suffix('\n') {
        Some(text) => put(to, text),
        None => put(to, text.as_str()),
    }
}

/// Tells the lines behind so many.
fn tell_lines(alloc: Global, client: &Client, told: usize, to: &mut String) -> Result<usize, Stop> {
    let lines = client.lines();
    let fresh = lines.get(told..).unwrap_or(&[]);
    put(to, "lines ")?;
    put_number(alloc, to, fresh.len() as u64)?;
    for line in fresh {
        put_line(alloc, line, to)?;
    }
    Ok(lines.len())
}

/// Answers a line that asks a client, or tells it an event.
fn answer(alloc: Global, client: &mut Client, words: &[&str], to: &mut String) -> Result<(), Stop> {
    match words {
        ["out", server] => {
            put(to, "out ")?;
            put_number(alloc, to, client.out(plain(server)?).len() as u64)
        }
        ["take", server] => take(alloc, client, plain(server)?, to),
        ["wish", server] => wish(client, plain(server)?, to),
        ["held", server] => {
            put(to, "held ")?;
            put_number(alloc, to, client.held(plain(server)?) as u64)
        }
        _ => {
            client.step(alloc, &event(alloc, words)?)?;
            put(to, "ok")
        }
    }
}

impl Talk {
    /// A client that hasn't begun.
    pub(crate) fn new() -> Talk {
        Talk {
            client: None,
            told: 0,
        }
    }

    /// Answers a line before the client has begun.
    fn begin(&mut self, alloc: Global, words: &[&str], to: &mut String) -> Result<(), Stop> {
        match words {
            ["begin", set, servers, items, queue, rule, base] => {
                let numbers = numbers_of([set, servers, items, queue, rule, base])?;
                self.client = Some(begun(alloc, config(alloc, numbers)?)?);
                put(to, "ok")
            }
            _ => Err(Stop::BadLine),
        }
    }
}

impl Driver for Talk {
    fn answer(&mut self, alloc: Global, words: &[&str], to: &mut String) -> Result<(), Stop> {
        match (&mut self.client, words) {
            (Some(client), ["lines"]) => {
                self.told = tell_lines(alloc, client, self.told, to)?;
                Ok(())
            }
            (Some(client), _) => answer(alloc, client, words, to),
            (None, _) => self.begin(alloc, words, to),
        }
    }
}
