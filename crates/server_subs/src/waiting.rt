//! The Publishes that a session has queued.

ghost use Rattle.std.specs.Prelude.{◌≡◌, IsNone, IsSome};
ghost use Rattle.server_rules.specs.Moves.{oldest_waiting, unqueued, waiting_on};
ghost use Rattle.server_rules.specs.Publishing.{has_more, parked_of};
ghost use Rattle.server_subs.specs.Leaving.{next_sending, next_served};

use crate::data::ServerData;
use server_rules::{Asker, Waiting};
use sessions::Parked;

/// One that came on this connection.
pub(crate) fn waiting_on(conn: u32, publish: Parked) -> Waiting
    ensures { result ≡ waiting_on conn publish }
{
    Waiting {
        asker: Asker {
            conn,
            request: publish.request,
            handle: publish.handle,
        },
        results: publish.results,
    }
}

/// One that is to be queued.
pub(crate) fn parked_of(waiting: Waiting) -> Parked
    ensures { result ≡ parked_of waiting }
{
    Parked {
        request: waiting.asker.request,
        handle: waiting.asker.handle,
        results: waiting.results,
    }
}

impl ServerData {
    /// Takes out a session's oldest queued Publish, if there is one.
    pub(crate) fn take_waiting(&mut self, session: u32) -> Option<Waiting>
        ensures oldest { result ≡ oldest_waiting session self.old }
        ensures taken { IsSome result → self.new ≡ unqueued session self.old }
        ensures none { IsNone result → self.new ≡ self.old }
    {
        if !self.sessions.waits(session) {
            return None;
        }
        let conn = self.sessions.conn(session)?;
        let publish = self.sessions.unpark(session)?;
        Some(waiting_on(conn, publish))
    }

    /// Takes out the queued Publish that a session's oldest notice answers.
    pub(crate) fn next_served(&mut self, session: u32) -> Option<Waiting>
        ensures oldest { result ≡ next_served session self.old }
        ensures taken { IsSome result → self.new ≡ unqueued session self.old }
        ensures none { IsNone result → self.new ≡ self.old }
    {
        if self.notices.has(session) {
            self.take_waiting(session)
        } else {
            None
        }
    }

    /// Takes out the queued Publish with which a subscription sends again.
    pub(crate) fn next_sending(&mut self, id: u32, session: u32) -> Option<Waiting>
        ensures oldest { result ≡ next_sending id session self.old }
        ensures taken { IsSome result → self.new ≡ unqueued session self.old }
        ensures none { IsNone result → self.new ≡ self.old }
    {
        if self.has_more(id) {
            self.take_waiting(session)
        } else {
            None
        }
    }

    /// Whether a subscription still has something.
    fn has_more(&self, id: u32) -> bool
        ensures { result ≡ has_more id self.now }
    {
        match self.subs.get(id) {
            Some(sub) => sub.more(),
            None => false,
        }
    }
}
