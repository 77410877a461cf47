//! What a server's rules ask of it, and what they set.

ghost use Rattle.std.specs.Prelude.{◌≡◌, ◌≢◌, ◌<◌, ◌+◌, ◌≤◌, ◌++◌, ◌∷◌, [], length, map, not, filter, true, false, IfErr, IfOk, IfSome, OnErr, OnOk};
ghost use Rattle.std.specs.List.{list_any};
ghost use Rattle.std.specs.Option.{option_copied};
ghost use Rattle.ua_base.specs.Status.{bad_too_many_sessions};
ghost use Rattle.set_model.specs.Source.{last_of};
ghost use Rattle.sessions.specs.declared.fault.SessionFault.TheVariants as fault;
ghost use Rattle.sessions.specs.Table.{activate_answer, activated, bound_answer, check_answer, closed, created, is_full, keeps, lives, owned, owner_of, ownership_of, requested, unbound};
ghost use Rattle.subscription.specs.Calls.{added, modified, removed, with_enabled, with_mode_of};
ghost use Rattle.server_rules.specs.State.{server_time, sub_at, with_sub};
ghost use Rattle.server_rules.specs.Moves.{fed_with, gone, has_subs, is_session, own_subs, owner, owns};
ghost use Rattle.server_subs.specs.Access.{HasRoom, has_item, is_owned, with_new_sub};

use crate::data::ServerData;
use server_rules::ServerConfig;
use sessions::{SessionFault, Sessions};
use set_model::Change;
use std::alloc::Global;
use subscription::{ItemSpec, SubSpec, Subscription};
use ua_base::{Mode, OutOfMemory};
use ua_values::{UaBytes, UaText};

/// Whether a session owns a subscription.
pub(crate) fn owns(sessions: &Sessions, session: u32, id: u32) -> bool
    ensures { result ≡ is_session session (owner_of (ownership_of id sessions.now.owned)) }
{
    match sessions.owner(id) {
        Some(owner) => owner == session,
        None => false,
    }
}

/// Whether a session owns one of these subscriptions.
fn own_any(subs: &[Subscription], sessions: &Sessions, session: u32) -> bool
    ensures { result ≡ list_any (is_owned sessions.now session) subs.now }
{
    subs.iter()
        .any(|sub| owns(sessions, session, sub.spec().id))
}

/// Appends a subscription's id, where the session owns it.
fn add_owned(
    sub: &Subscription,
    sessions: &Sessions,
    session: u32,
    to: &mut Vec<u32>,
) -> Result<(), OutOfMemory>
    ensures { OnOk result (to.new.items
        ≡ to.old.items ++ map (λ sub. sub.spec.id) (filter (is_owned sessions.now session) (sub.now ∷ []))) }
{
    if owns(sessions, session, sub.spec().id) {
        to.push(sub.spec().id)?;
    }
    Ok(())
}

/// The ids of those of these subscriptions that a session owns, in order.
fn ids_owned(
    alloc: Global,
    subs: &[Subscription],
    sessions: &Sessions,
    session: u32,
) -> Result<Vec<u32>, OutOfMemory>
    ensures { IfOk result (λ ids. ids.items ≡ map (λ sub. sub.spec.id) (filter (is_owned sessions.now session) subs.now)) }
{
    let mut ids = Vec::new(alloc);
    for sub in subs {
        add_owned(sub, sessions, session, &mut ids)?;
    }
    Ok(ids)
}

/// Gives a subscription, of which nothing is kept, to a session, if that exists.
fn own(alloc: Global, sessions: &mut Sessions, id: u32, session: u32) -> Result<(), OutOfMemory>
    requires { keeps id sessions.old.owned ≡ false }
    ensures { OnOk result (sessions.new ≡ owned id session sessions.old) }
{
    if sessions.lives(session) {
        sessions.own(alloc, id, session)
    } else {
        Ok(())
    }
}

impl ServerData {
    /// What this life began with.
    pub fn config(&self) -> &ServerConfig
        ensures { result.now ≡ self.now.config }
    {
        &self.config
    }

    /// How long it lives, in milliseconds.
    pub fn age(&self) -> u64
        ensures { result ≡ self.now.age }
    {
        self.age
    }

    /// What time it is: a DateTime, in steps of 100 ns since 1601-01-01 (OPC 10000-6, 5.2.2.5); the last one stays.
    pub fn server_time(&self) -> i64
        ensures { result ≡ server_time self.now }
    {
        let steps = self.age.saturating_mul(10_000);
        self.config.start.saturating_add_unsigned(steps)
    }

    /// Its ServiceLevel (OPC 10000-4, 6.6.2.4.2).
    pub fn level(&self) -> u8
        ensures { result ≡ self.now.level }
    {
        self.level
    }

    /// Sets its ServiceLevel.
    pub fn set_level(&mut self, level: u8)
        ensures { self.new ≡ record self.old { level = level } }
    {
        self.level = level;
    }

    /// The items' current values.
    pub fn current(&self) -> &[Change]
        ensures { result.now ≡ self.now.current }
    {
        self.current.as_slice()
    }

    /// The current value of an item, if it has one.
    pub fn current_of(&self, item: u8) -> Option<Change>
        ensures { result ≡ last_of item self.now.current }
    {
        self.current.of_item(item)
    }

    /// Takes a change in: it is its item's current value, and each monitored item that samples it has it in its queue.
    pub fn feed(&mut self, change: Change) -> Result<(), OutOfMemory>
        ensures { OnOk result (self.new ≡ fed_with change self.old) }
    {
        self.current.put(change)?;
        self.subs.feed(change);
        Ok(())
    }

    /// How many ids of subscriptions were given.
    pub fn made(&self) -> u32
        ensures { result ≡ self.now.made }
    {
        self.made
    }

    /// Sets how many ids of subscriptions were given.
    pub fn set_made(&mut self, made: u32)
        ensures { self.new ≡ record self.old { made = made } }
    {
        self.made = made;
    }

    // ---- sessions (OPC 10000-4, 5.6); each age is the server's of this moment

    /// The counter of the session of this token, as any service asks for it that wants the session activated, or the
    /// status code that refuses the request.
    pub fn check(&mut self, token: &UaBytes, conn: u32) -> Result<u32, u32>
        ensures answer { result ≡ check_answer token.now conn self.old.sessions }
        ensures after { self.new ≡ record self.old {
          sessions = requested token.now conn self.old.age self.old.sessions;
        } }
    {
        self.sessions.check(token, conn, self.age)
    }

    /// The same for a service that takes a session which is not activated, as CloseSession does.
    pub fn bound(&mut self, token: &UaBytes, conn: u32) -> Result<u32, u32>
        ensures answer { result ≡ bound_answer token.now conn self.old.sessions }
        ensures after { self.new ≡ record self.old {
          sessions = requested token.now conn self.old.age self.old.sessions;
        } }
    {
        self.sessions.bound(token, conn, self.age)
    }

    /// Makes a session, bound to this connection, and answers its counter.
    ///
    /// # Errors
    /// `Bad_TooManySessions` where no session more is given; then nothing changes, nor does where memory is refused.
    pub fn create(
        &mut self,
        alloc: Global,
        conn: u32,
        uri: UaText,
        timeout: u32,
    ) -> Result<u32, SessionFault>
        ensures after { OnOk result (self.new ≡ record self.old {
          sessions = created conn uri timeout self.old.age self.old.sessions;
        }) }
        ensures counter { IfOk result (λ counter. counter ≡ self.old.sessions.last_counter + 1) }
        ensures allowed { OnOk result (is_full self.old.sessions ≡ false) }
        ensures refused { IfErr result (λ one. one ≢ fault.OutOfMemory
            → (one ≡ fault.Code bad_too_many_sessions) × (is_full self.old.sessions ≡ true)) }
        ensures unchanged { OnErr result (self.new ≡ self.old) }
    {
        self.sessions.create(alloc, conn, uri, timeout, self.age)
    }

    /// Binds the session of this token to a connection, activates it and answers its counter.
    pub fn activate(&mut self, token: &UaBytes, conn: u32) -> Result<u32, SessionFault>
        ensures answer { result ≡ activate_answer token.now conn self.old.sessions }
        ensures after { self.new ≡ record self.old {
          sessions = activated token.now conn self.old.age self.old.sessions;
        } }
    {
        self.sessions.activate(token, conn, self.age)
    }

    /// Unbinds all sessions of a connection.
    pub fn unbind(&mut self, conn: u32)
        ensures { self.new ≡ record self.old { sessions = unbound conn self.old.sessions } }
    {
        self.sessions.unbind(conn);
    }

    /// Removes a session.
    pub fn close_session(&mut self, session: u32)
        ensures { self.new ≡ record self.old { sessions = closed session self.old.sessions } }
    {
        self.sessions.close(session);
    }

    /// Whether a session exists.
    pub fn lives(&self, session: u32) -> bool
        ensures { result ≡ lives session self.now.sessions.sessions }
    {
        self.sessions.lives(session)
    }

    // ---- subscriptions (OPC 10000-4, 5.13)

    /// The session that owns a subscription, if one exists.
    pub fn owner(&self, id: u32) -> Option<u32>
        ensures { result ≡ owner id self.now }
    {
        self.sessions.owner(id)
    }

    /// Whether a session owns a subscription.
    pub fn owns(&self, session: u32, id: u32) -> bool
        ensures { result ≡ owns session id self.now }
    {
        owns(&self.sessions, session, id)
    }

    /// Whether a session owns a subscription at all.
    pub(crate) fn has_subs(&self, session: u32) -> bool
        ensures { result ≡ has_subs session self.now }
    {
        own_any(self.subs.as_slice(), &self.sessions, session)
    }

    /// The ids of a session's subscriptions, in order.
    pub fn owned_ids(&self, alloc: Global, session: u32) -> Result<Vec<u32>, OutOfMemory>
        ensures { IfOk result (λ ids. ids.items ≡ map (λ sub. sub.spec.id) (own_subs session self.now)) }
    {
        ids_owned(alloc, self.subs.as_slice(), &self.sessions, session)
    }

    /// How many subscriptions there are.
    pub fn subs_len(&self) -> usize
        ensures { result ≡ length self.now.subs }
    {
        self.subs.as_slice().len()
    }

    /// The subscription of an id.
    pub fn sub(&self, id: u32) -> Option<&Subscription>
        ensures { option_copied result ≡ sub_at id self.now.subs }
    {
        self.subs.get(id)
    }

    /// Makes a subscription of a session, whose first cycle is an interval from now, in the place of all that is known of
    /// its id.
    pub fn add_sub(&mut self, alloc: Global, session: u32, spec: SubSpec) -> Result<(), OutOfMemory>
        ensures { OnOk result (self.new ≡ with_new_sub session spec self.old) }
    {
        let sub = Subscription::new(alloc, spec, self.age)?;
        self.subs.add(sub)?;
        self.sessions.disown(spec.id);
        own(alloc, &mut self.sessions, spec.id, session)
    }

    /// A subscription takes the interval, the counts and the most notifications from what was revised.
    pub fn modify_sub(&mut self, id: u32, spec: SubSpec)
        ensures { self.new ≡ with_sub id (modified spec self.old.age) self.old }
    {
        self.subs.modify(id, spec, self.age);
    }

    /// Enables publishing of a subscription or disables it.
    pub fn set_enabled(&mut self, id: u32, enabled: bool)
        ensures { self.new ≡ with_sub id (with_enabled enabled) self.old }
    {
        self.subs.set_enabled(id, enabled);
    }

    /// Adds an item to a subscription, which has room for it; its id is one more than the subscription's last one.
    pub fn add_item(
        &mut self,
        alloc: Global,
        id: u32,
        spec: ItemSpec,
        current: Option<Change>,
    ) -> Result<(), OutOfMemory>
        requires least { 1 ≤ spec.queue }
        requires most { spec.queue ≤ 1000 }
        requires room { IfSome (sub_at id self.old.subs) HasRoom }
        ensures { OnOk result (self.new ≡ with_sub id (added spec current) self.old) }
    {
        self.subs.add_item(alloc, id, spec, current)
    }

    /// Removes an item of a subscription, and answers whether there was one.
    pub fn remove_item(&mut self, id: u32, item: u32) -> bool
        ensures removed { self.new ≡ with_sub id (removed item) self.old }
        ensures there { result ≡ has_item id item self.old }
    {
        self.subs.remove_item(id, item)
    }

    /// Gives an item of a subscription a mode, and answers whether there is one.
    pub fn set_item_mode(
        &mut self,
        id: u32,
        item: u32,
        mode: Mode,
        current: Option<Change>,
    ) -> Result<bool, OutOfMemory>
        ensures set { OnOk result (self.new ≡ with_sub id (with_mode_of item mode current) self.old) }
        ensures there { IfOk result (λ there. there ≡ has_item id item self.old) }
    {
        self.subs.set_item_mode(id, item, mode, current)
    }

    /// A subscription is no more, and nothing is kept of its owner. Nobody is told.
    pub fn gone(&mut self, id: u32)
        ensures { self.new ≡ gone id self.old }
    {
        self.subs.remove(id);
        self.sessions.disown(id);
    }
}
