ghost use Rattle.std.specs.Prelude.{◌≡◌, Some, find, map};
ghost use Rattle.std.specs.Option.{option_copied};
ghost use Rattle.sessions.specs.Table.{given_to, may_own, owned_among, owner_among, ownership_of};

use crate::session::{Session, session_at};
use ua_values::UaText;

/// What is known of the owner of one subscription.
#[derive(Debug, Drop)]
pub struct Ownership {
    /// The subscription.
    pub id: u32,
    /// The session that owns it, if that exists.
    pub owner: Option<u32>,
    /// The ApplicationUri of the session that owned it last.
    pub uri: UaText,
}

/// An owner that is no more is none.
fn owner_among(sessions: &[Session], owner: Option<u32>) -> Option<u32>
    ensures { result ≡ owner_among sessions.now owner }
{
    match owner {
        Some(owner) if session_at(sessions, owner).is_some() => Some(owner),
        _ => None,
    }
}

impl Ownership {
    fn keep_among(&mut self, sessions: &[Session])
        ensures { self.new ≡ owned_among sessions.now self.old }
    {
        self.owner = owner_among(sessions, self.owner);
    }

    fn give_to(&mut self, id: u32, to: u32)
        ensures { self.new ≡ given_to id to self.old }
    {
        if self.id == id {
            self.owner = Some(to);
        }
    }
}

/// Leaves without owner what was owned by a session that is no more.
pub fn keep_owners_among(owned: &mut Vec<Ownership>, sessions: &[Session])
    ensures { owned.new.items ≡ map (owned_among sessions.now) owned.old.items }
{
    for ownership in owned.iter_mut() {
        ownership.keep_among(sessions);
    }
}

/// What is kept of a subscription's owner.
pub fn ownership_of(owned: &[Ownership], id: u32) -> Option<&Ownership>
    ensures { option_copied result ≡ ownership_of id owned.now }
{
    owned.iter().find(|ownership| ownership.id == id)
}

/// Whether a subscription of which this is kept may go to this session.
pub fn may_own(kept: Option<&Ownership>, session: Option<&Session>) -> bool
    ensures { result ≡ may_own (option_copied kept.entry) (option_copied session.entry) }
{
    match (kept, session) {
        (Some(ownership), Some(session)) => ownership.uri.equals(&session.uri),
        _ => false,
    }
}

/// Gives a subscription to a session.
pub fn give_to(owned: &mut Vec<Ownership>, id: u32, to: u32)
    ensures { owned.new.items ≡ map (given_to id to) owned.old.items }
{
    for ownership in owned.iter_mut() {
        ownership.give_to(id, to);
    }
}
