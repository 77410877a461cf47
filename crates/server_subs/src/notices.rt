ghost use Rattle.std.specs.Prelude.{◌≡◌, ◌<◌, ◌++◌, ◌∷◌, [], filter, is_some, length, position, IfSome, IsNone, OnOk};
ghost use Rattle.std.specs.List.{list_any};
ghost use Rattle.sessions.specs.Table.{lives};
ghost use Rattle.server_rules.specs.Moves.{is_told, notices_of, oldest_notice, with_room, without_oldest_notice};
ghost use Rattle.server_subs.specs.Leaving.{place_to_leave};

use sessions::Sessions;
use std::alloc::Global;
use std::marker::Model;
use ua_base::OutOfMemory;
use ua_structures::UaArray;

/// How many notices a session keeps.
const MOST_NOTICES: usize = 64;

/// What a session is still to be told of a subscription that left it (OPC 10000-4, 5.13.7.1 and 7.20.4).
#[derive(Debug, Drop)]
pub(crate) struct Notice {
    /// The session.
    pub(crate) session: u32,
    /// The subscription that left it.
    pub(crate) subscription: u32,
    /// Why.
    pub(crate) code: u32,
    /// The number of the subscription's next data message, at that moment.
    pub(crate) next: u32,
    /// The numbers of the messages that it kept, at that moment.
    pub(crate) available: UaArray<u32>,
}

impl Model for Notice {
    ghost use Rattle.server_rules.specs.State.{NoticeState};

    ghost Value = { NoticeState };

    ghost view = { λ n. record {
      session = n.session;
      subscription = n.subscription;
      code = n.code;
      next = n.next;
      available = n.available;
    } };
}

impl Notice {
    fn is_told(&self, session: u32) -> bool
        ensures { result ≡ is_told session self.now }
    {
        self.session == session
    }

    fn session(&self) -> u32
        ensures { result ≡ self.now.session }
    {
        self.session
    }
}

/// Whether a session has one of these notices.
fn any_of(notices: &[Notice], session: u32) -> bool
    ensures { result ≡ list_any (is_told session) notices.now }
{
    notices.iter().any(|notice| notice.is_told(session))
}

/// The place of a session's oldest notice.
fn place_of(notices: &[Notice], session: u32) -> Option<usize>
    ensures place { result ≡ position (is_told session) notices.now }
    ensures within { IfSome result (λ place. place < length notices.now) }
{
    notices.iter().position(|notice| notice.is_told(session))
}

/// How many notices a session has.
fn count_of(notices: &[Notice], session: u32) -> usize
    ensures { result ≡ length (notices_of session notices.now) }
{
    notices
        .iter()
        .filter(|notice| notice.is_told(session))
        .count()
}

/// The place of the notice that leaves for a further one of its session.
fn place_to_leave(notices: &[Notice], session: u32) -> Option<usize>
    ensures place { result ≡ place_to_leave session notices.now }
    ensures within { IfSome result (λ place. place < length notices.now) }
{
    if count_of(notices, session) < MOST_NOTICES {
        None
    } else {
        place_of(notices, session)
    }
}

/// Drops the notices of sessions that are no more.
fn keep_lasting(notices: &mut Vec<Notice>, sessions: &Sessions)
    ensures { notices.new.items ≡ filter (λ notice. lives notice.session sessions.now.sessions) notices.old.items }
{
    notices.retain(|notice| sessions.lives(notice.session()));
}

/// Appends a notice, and makes room for it.
fn give(notices: &mut Vec<Notice>, notice: Notice) -> Result<(), OutOfMemory>
    ensures { OnOk result (notices.new.items ≡ with_room notice.session notices.old.items ++ notice ∷ []) }
{
    let leaves = place_to_leave(notices, notice.session());
    notices.push(notice)?;
    if let Some(place) = leaves {
        notices.remove(place);
    }
    Ok(())
}

/// What all sessions are still to be told, the oldest first.
#[derive(Debug, Drop)]
pub(crate) struct Notices {
    list: Vec<Notice>,
}

impl Model for Notices {
    ghost use Rattle.std.specs.Prelude.{List};
    ghost use Rattle.server_rules.specs.State.{NoticeState};

    ghost Value = { List NoticeState };

    ghost view = { λ n. n.list.items };
}

impl Notices {
    /// Nothing is to be told.
    pub(crate) fn new(alloc: Global) -> Notices
        ensures { result ≡ [] }
    {
        Notices {
            list: Vec::new(alloc),
        }
    }

    /// Whether a session has a notice.
    pub(crate) fn has(&self, session: u32) -> bool
        ensures { result ≡ is_some (oldest_notice session self.now) }
    {
        any_of(&self.list, session)
    }

    /// Takes out a session's oldest notice, if it has one.
    pub(crate) fn take(&mut self, session: u32) -> Option<Notice>
        ensures oldest { result ≡ oldest_notice session self.old }
        ensures taken { self.new ≡ without_oldest_notice session self.old }
        ensures none { IsNone result → self.new ≡ self.old }
    {
        match place_of(&self.list, session) {
            Some(place) => Some(self.list.remove(place)),
            None => None,
        }
    }

    /// One notice more; those of sessions that are no more are dropped, and a session keeps its last ones.
    pub(crate) fn add(&mut self, sessions: &Sessions, notice: Notice) -> Result<(), OutOfMemory>
        ensures { OnOk result (self.new ≡ with_room notice.session
            (filter (λ other. lives other.session sessions.now.sessions) self.old) ++ notice ∷ []) }
    {
        keep_lasting(&mut self.list, sessions);
        give(&mut self.list, notice)
    }
}
