ghost use Rattle.std.specs.Prelude.{◌≡◌, ◌==◌, [], drop, length, find, OnOk, OnErr, IfOk, slice_get};
ghost use Rattle.std.specs.Option.{option_copied};
ghost use Rattle.sessions.specs.Session.{activate_answer, activated, bound_answer, check_answer, driven_out, has_token, is_bound_to, is_unbound, lasts_past, may_activate, new_session, requested, unbound_from, waits, with_parked, with_publish, without_oldest};
ghost use Rattle.sessions.specs.Table.{session_at};

use crate::fault::SessionFault;
use crate::results::AckResults;
use crate::tokens::is_token_of;
use std::alloc::Global;
use std::marker::Model;
use ua_base::OutOfMemory;
use ua_base::status::{BAD_SECURE_CHANNEL_ID_INVALID, BAD_SESSION_NOT_ACTIVATED};
use ua_values::{UaBytes, UaText};

/// The most Publishes that a session queues.
pub const MOST_QUEUED: usize = 16;

/// A Publish request that waits for a message (OPC 10000-4, 5.13.5).
#[derive(Debug, Drop)]
pub struct Parked {
    /// The request id of the message that brought it, by which it is answered (OPC 10000-6, 6.7.2.3).
    pub request: u32,
    /// The handle of its header, which its answer repeats.
    pub handle: u32,
    /// What became of its acknowledgements, one status code for each.
    pub results: AckResults,
}

/// The queued Publishes of one session, the oldest first.
#[derive(Debug, Drop)]
pub struct Queue {
    publishes: Vec<Parked>,
}

impl Model for Queue {
    ghost use Rattle.std.specs.Prelude.{List};
    ghost use Rattle.sessions.specs.declared.session.Parked.{Parked};

    ghost Value = { List Parked };

    ghost view = { λ q. q.publishes.items };
}

impl Queue {
    fn new(alloc: Global) -> Queue
        ensures { result ≡ [] }
    {
        Queue {
            publishes: Vec::new(alloc),
        }
    }

    fn clear(&mut self)
        ensures { self.new ≡ [] }
    {
        self.publishes.clear();
    }

    fn park(&mut self, parked: Parked) -> Result<Option<Parked>, OutOfMemory>
        ensures queued { OnOk result (self.new ≡ with_publish parked self.old) }
        ensures out { IfOk result (λ out. out ≡ driven_out self.old) }
        ensures unchanged { OnErr result (self.new ≡ self.old) }
    {
        let is_full = self.publishes.len() >= MOST_QUEUED;
        self.publishes.push(parked)?;
        if is_full {
            Ok(Some(self.publishes.remove(0)))
        } else {
            Ok(None)
        }
    }

    fn is_empty(&self) -> bool
        ensures { result ≡ (length self.now == 0) }
    {
        self.publishes.is_empty()
    }

    fn unpark(&mut self) -> Option<Parked>
        ensures oldest { result ≡ slice_get self.old 0 }
        ensures queued { self.new ≡ drop 1 self.old }
    {
        if self.publishes.is_empty() {
            None
        } else {
            Some(self.publishes.remove(0))
        }
    }
}

/// One session (OPC 10000-4, 5.6.2).
#[derive(Debug, Drop)]
pub struct Session {
    /// Its number in the server's life, from 1.
    pub counter: u32,
    /// The connection to which it is bound, if it is bound.
    pub conn: Option<u32>,
    /// Whether it ever was activated.
    pub activated: bool,
    /// The client's ApplicationUri.
    pub uri: UaText,
    /// In milliseconds.
    pub timeout: u32,
    /// The server's age at its last request, in milliseconds.
    pub last: u64,
    /// Its queued Publishes.
    pub queued: Queue,
}

impl Session {
    pub fn new(
        alloc: Global,
        counter: u32,
        conn: u32,
        uri: UaText,
        timeout: u32,
        now: u64,
    ) -> Session
        ensures { result ≡ new_session counter conn uri timeout now }
    {
        Session {
            counter,
            conn: Some(conn),
            activated: false,
            uri,
            timeout,
            last: now,
            queued: Queue::new(alloc),
        }
    }

    pub fn has_token(&self, boot: u16, token: &UaBytes) -> bool
        ensures { result ≡ has_token boot token.now self.now }
    {
        is_token_of(boot, self.counter, token)
    }

    pub fn is_bound_to(&self, conn: u32) -> bool
        ensures { result ≡ is_bound_to conn self.now }
    {
        match self.conn {
            Some(bound) => bound == conn,
            None => false,
        }
    }

    pub fn is_unbound(&self) -> bool
        ensures { result ≡ is_unbound self.now }
    {
        match self.conn {
            Some(_) => false,
            None => true,
        }
    }

    pub fn lasts_past(&self, now: u64) -> bool
        ensures { result ≡ lasts_past now self.now }
    {
        match self.last.checked_add(u64::from(self.timeout)) {
            Some(moment) => now < moment,
            None => true,
        }
    }

    pub fn bound(&mut self, conn: u32, now: u64) -> Result<u32, u32>
        ensures answer { result ≡ bound_answer conn self.old }
        ensures after { self.new ≡ requested conn now self.old }
    {
        if self.is_bound_to(conn) {
            self.last = now;
            Ok(self.counter)
        } else {
            Err(BAD_SECURE_CHANNEL_ID_INVALID)
        }
    }

    pub fn check(&mut self, conn: u32, now: u64) -> Result<u32, u32>
        ensures answer { result ≡ check_answer conn self.old }
        ensures after { self.new ≡ requested conn now self.old }
    {
        let counter = self.bound(conn, now)?;
        if self.activated {
            Ok(counter)
        } else {
            Err(BAD_SESSION_NOT_ACTIVATED)
        }
    }

    fn may_activate(&self, conn: u32) -> bool
        ensures { result ≡ may_activate conn self.now }
    {
        self.activated || self.is_bound_to(conn)
    }

    pub fn activate(&mut self, conn: u32, now: u64) -> Result<u32, SessionFault>
        ensures answer { result ≡ activate_answer conn self.old }
        ensures after { self.new ≡ activated conn now self.old }
    {
        if !self.may_activate(conn) {
            return Err(SessionFault::Code(BAD_SECURE_CHANNEL_ID_INVALID));
        }
        if !self.is_bound_to(conn) {
            self.queued.clear();
        }
        self.conn = Some(conn);
        self.activated = true;
        self.last = now;
        Ok(self.counter)
    }

    pub fn unbind(&mut self, conn: u32)
        ensures { self.new ≡ unbound_from conn self.old }
    {
        if self.is_bound_to(conn) {
            self.conn = None;
            self.queued.clear();
        }
    }

    pub fn park(&mut self, parked: Parked) -> Result<Option<Parked>, OutOfMemory>
        ensures queued { OnOk result (self.new ≡ with_parked parked self.old) }
        ensures out { IfOk result (λ out. out ≡ driven_out self.old.queued) }
        ensures unchanged { OnErr result (self.new ≡ self.old) }
    {
        self.queued.park(parked)
    }

    pub fn waits(&self) -> bool
        ensures { result ≡ waits self.now }
    {
        !self.queued.is_empty()
    }

    pub fn unpark(&mut self) -> Option<Parked>
        ensures oldest { result ≡ slice_get self.old.queued 0 }
        ensures queued { self.new ≡ without_oldest self.old }
    {
        self.queued.unpark()
    }
}

/// The session of this counter, if it exists.
pub fn session_at(sessions: &[Session], counter: u32) -> Option<&Session>
    ensures { option_copied result ≡ session_at counter sessions.now }
{
    sessions.iter().find(|session| session.counter == counter)
}
