//! The sessions of a server.

use crate::words::{byte_string, put_digits, put_some, text};
use rows::{Stop, number, put, put_number, put_truth};
use sessions::{AckResults, Parked, SessionFault, Sessions, token};
use std::alloc::Global;
use ua_values::UaBytes;

#[derive(Drop)]
pub struct SessionTable {
    boot: u16,
    sessions: Sessions,
}

/// Appends a counter, or the fault.
fn put_counter(
    alloc: Global,
    to: &mut String,
    answer: Result<u32, SessionFault>,
) -> Result<(), Stop> {
    match answer {
        Ok(counter) => put_number(alloc, to, u64::from(counter)),
        Err(SessionFault::OutOfMemory) => Err(Stop::OutOfMemory),
        Err(fault) => put(to, format!(in alloc; "{fault}")?.as_str()),
    }
}

/// The same of an answer whose fault is a code alone.
fn with_fault(answer: Result<u32, u32>) -> Result<u32, SessionFault> {
    match answer {
        Ok(counter) => Ok(counter),
        Err(code) => Err(SessionFault::Code(code)),
    }
}

/// The Publish of a handle: its request is that and 1000, its results are that and 0.
fn publish(alloc: Global, handle: u32) -> Result<Parked, Stop> {
    let results = Vec::from_slice(alloc, &[handle, 0])?;
    Ok(Parked {
        request: handle.wrapping_add(1000),
        handle,
        results: AckResults::new(results),
    })
}

fn put_results(alloc: Global, to: &mut String, results: &[u32]) -> Result<(), Stop> {
    for result in results {
        put(to, format!(in alloc; " {result}")?.as_str())?;
    }
    Ok(())
}

fn put_publish(alloc: Global, to: &mut String, publish: &Parked) -> Result<(), Stop> {
    let Parked {
        request,
        handle,
        results,
    } = publish;
    put(
        to,
        format!(in alloc; "request {request} handle {handle} results")?.as_str(),
    )?;
    put_results(alloc, to, results.as_slice())
}

fn put_parked(alloc: Global, to: &mut String, parked: &Option<Parked>) -> Result<(), Stop> {
    match parked {
        Some(publish) => put_publish(alloc, to, publish),
        None => put(to, "none"),
    }
}

fn put_token(alloc: Global, to: &mut String, boot: u16, counter: u32) -> Result<(), Stop> {
    put_digits(alloc, to, &token(boot, counter))
}

/// What is asked of a session that a token names.
#[derive(Clone, Copy)]
enum Request {
    Activate,
    Check,
    Bound,
}

impl Request {
    fn of(word: &str) -> Result<Request, Stop> {
        match word {
            "activate" => Ok(Request::Activate),
            "check" => Ok(Request::Check),
            "bound" => Ok(Request::Bound),
            _ => Err(Stop::BadLine),
        }
    }
}

impl SessionTable {
    pub(crate) fn new(alloc: Global, boot: u16) -> SessionTable {
        SessionTable {
            boot,
            sessions: Sessions::new(alloc, boot),
        }
    }

    /// The table of the next life of the server.
    fn begin(&mut self, alloc: Global, boot: u16) {
        self.sessions = Sessions::new(alloc, boot);
        self.boot = boot;
    }

    /// The table of a life that gave so many sessions before.
    fn go_on(&mut self, alloc: Global, boot: u16, last: u32) {
        self.boot = boot;
        self.sessions = Sessions::after(alloc, boot, last);
    }

    /// The token of a session of this life.
    fn token(&self, alloc: Global, counter: u32) -> Result<UaBytes, Stop> {
        let bytes = Vec::from_slice(alloc, &token(self.boot, counter))?;
        Ok(UaBytes::new(bytes))
    }

    fn create(&mut self, alloc: Global, words: [&str; 4], to: &mut String) -> Result<(), Stop> {
        let [conn, timeout, now, uri] = words;
        let conn = number(conn)?;
        let timeout = number(timeout)?;
        let now = number(now)?;
        let uri = text(alloc, uri)?;
        let answer = self.sessions.create(alloc, conn, uri, timeout, now);
        put_counter(alloc, to, answer)
    }

    fn park(
        &mut self,
        alloc: Global,
        session: u32,
        handle: u32,
        to: &mut String,
    ) -> Result<(), Stop> {
        if self.sessions.conn(session).is_none() {
            return put(to, "not bound");
        }
        let out = self.sessions.park(session, publish(alloc, handle)?)?;
        put_parked(alloc, to, &out)
    }

    fn unpark(&mut self, alloc: Global, session: u32, to: &mut String) -> Result<(), Stop> {
        put_parked(alloc, to, &self.sessions.unpark(session))
    }

    fn own(&mut self, alloc: Global, id: u32, session: u32, to: &mut String) -> Result<(), Stop> {
        if !self.sessions.lives(session) {
            return put(to, "no session");
        }
        if self.sessions.keeps(id) {
            return put(to, "kept");
        }
        self.sessions.own(alloc, id, session)?;
        put(to, "done")
    }

    fn transfer(
        &mut self,
        alloc: Global,
        id: u32,
        session: u32,
        to: &mut String,
    ) -> Result<(), Stop> {
        if !self.sessions.lives(session) {
            return put(to, "no session");
        }
        match self.sessions.transfer(id, session) {
            Ok(()) => put(to, "done"),
            Err(fault) => put(to, format!(in alloc; "{fault}")?.as_str()),
        }
    }

    /// Asks this of the session that the token names, on a connection at an age.
    fn request(
        &mut self,
        request: Request,
        token: &UaBytes,
        conn: u32,
        now: u64,
    ) -> Result<u32, SessionFault> {
        match request {
            Request::Activate => self.sessions.activate(token, conn, now),
            Request::Check => with_fault(self.sessions.check(token, conn, now)),
            Request::Bound => with_fault(self.sessions.bound(token, conn, now)),
        }
    }

    /// Answers what these words ask of the session that the token names.
    fn put_request(
        &mut self,
        alloc: Global,
        words: [&str; 3],
        token: &UaBytes,
        to: &mut String,
    ) -> Result<(), Stop> {
        let [request, conn, now] = words;
        let request = Request::of(request)?;
        let conn = number(conn)?;
        let now = number(now)?;
        put_counter(alloc, to, self.request(request, token, conn, now))
    }

    /// Answers a call that only asks.
    fn ask(&self, alloc: Global, words: &[&str], to: &mut String) -> Result<(), Stop> {
        match words {
            ["due"] => put_number(alloc, to, self.sessions.due()),
            ["token", boot, counter] => put_token(alloc, to, number(boot)?, number(counter)?),
            ["keeps", id] => put_truth(to, self.sessions.keeps(number(id)?)),
            ["owner", id] => put_some(alloc, to, self.sessions.owner(number(id)?)),
            ["lives", session] => put_truth(to, self.sessions.lives(number(session)?)),
            ["waits", session] => put_truth(to, self.sessions.waits(number(session)?)),
            ["conn", session] => put_some(alloc, to, self.sessions.conn(number(session)?)),
            _ => Err(Stop::BadLine),
        }
    }

    /// Makes a call that answers nothing, or answers one that only asks.
    fn make(&mut self, alloc: Global, words: &[&str], to: &mut String) -> Result<(), Stop> {
        match words {
            ["new", boot] => self.begin(alloc, number(boot)?),
            ["after", boot, last] => self.go_on(alloc, number(boot)?, number(last)?),
            ["unbind", conn] => self.sessions.unbind(number(conn)?),
            ["close", session] => self.sessions.close(number(session)?),
            ["expire", now] => self.sessions.expire(number(now)?),
            ["disown", id] => self.sessions.disown(number(id)?),
            _ => return self.ask(alloc, words, to),
        }
        put(to, "done")
    }

    /// Answers a call of these words.
    pub(crate) fn answer(
        &mut self,
        alloc: Global,
        words: &[&str],
        to: &mut String,
    ) -> Result<(), Stop> {
        match words {
            ["create", conn, timeout, now, uri] => {
                self.create(alloc, [conn, timeout, now, uri], to)
            }
            ["park", session, handle] => self.park(alloc, number(session)?, number(handle)?, to),
            ["unpark", session] => self.unpark(alloc, number(session)?, to),
            ["own", id, session] => self.own(alloc, number(id)?, number(session)?, to),
            ["transfer", id, session] => self.transfer(alloc, number(id)?, number(session)?, to),
            ["by_token", request, digits, conn, now] => {
                let token = byte_string(alloc, digits)?;
                self.put_request(alloc, [request, conn, now], &token, to)
            }
            [request, counter, conn, now] => {
                let token = self.token(alloc, number(counter)?)?;
                self.put_request(alloc, [request, conn, now], &token, to)
            }
            _ => self.make(alloc, words, to),
        }
    }
}
