//! What becomes of a Publish.

ghost use Rattle.std.specs.Prelude.{◌≡◌, ◌&&◌, ◌++◌, find, IfOk, OnOk};
ghost use Rattle.server_rules.specs.Said.{orders_of};
ghost use Rattle.server_rules.specs.Moves.{oldest_waiting};
ghost use Rattle.server_rules.specs.Publishing.{ack_result, ack_results, acked, all_acked, enqueued, first_of, late_sub, publish, taken, turned, used};
ghost use Rattle.server_subs.specs.Access.{is_owned};
ghost use Rattle.server_subs.specs.Outgoing.{id_of};

use crate::access::owns;
use crate::data::ServerData;
use crate::waiting::{parked_of, waiting_on};
use server_rules::{Asker, Waiting};
use sessions::{AckResults, Sessions};
use std::alloc::Global;
use subscription::Subscription;
use ua_base::OutOfMemory;
use ua_base::status::{
    BAD_NO_SUBSCRIPTION, BAD_SEQUENCE_NUMBER_UNKNOWN, BAD_SUBSCRIPTION_ID_INVALID,
    BAD_TOO_MANY_OPERATIONS, BAD_TOO_MANY_PUBLISH_REQUESTS, GOOD,
};
use ua_channel::Order;
use ua_sub_msgs::{PublishRequest, SubscriptionAcknowledgement};

/// How many acknowledgements a Publish has at the most.
const MOST_ACKNOWLEDGEMENTS: usize = 1000;

/// The first of these subscriptions that a session owns and that is late.
fn late_in(subs: &[Subscription], sessions: &Sessions, session: u32) -> Option<u32>
    ensures { result ≡ id_of (find (λ sub. is_owned sessions.now session sub && sub.late) subs.now) }
{
    subs.iter()
        .find(|sub| owns(sessions, session, sub.spec().id) && sub.late())
        .map(|sub| sub.spec().id)
}

impl ServerData {
    /// Takes an acknowledgement, and answers what becomes of it.
    fn acknowledge(&mut self, session: u32, ack: SubscriptionAcknowledgement) -> u32
        ensures result { result ≡ ack_result session ack self.old }
        ensures acked { self.new ≡ acked session ack self.old }
    {
        if !self.owns(session, ack.subscription_id) {
            BAD_SUBSCRIPTION_ID_INVALID
        } else if self.subs.ack(ack.subscription_id, ack.sequence_number) {
            GOOD
        } else {
            BAD_SEQUENCE_NUMBER_UNKNOWN
        }
    }

    /// Takes acknowledgements in turn.
    fn acknowledge_all(
        &mut self,
        alloc: Global,
        session: u32,
        acks: &[SubscriptionAcknowledgement],
    ) -> Result<AckResults, OutOfMemory>
        ensures results { IfOk result (λ results. results ≡ ack_results session acks.now self.old) }
        ensures acked { OnOk result (self.new ≡ all_acked session acks.now self.old) }
    {
        let mut results = Vec::new(alloc);
        for ack in acks {
            let code = self.acknowledge(session, *ack);
            results.push(code)?;
        }
        Ok(AckResults::new(results))
    }

    /// Of a session's subscriptions that are late the one of lowest id.
    fn late_sub(&self, session: u32) -> Option<u32>
        ensures { result ≡ id_of (late_sub session self.now) }
    {
        late_in(self.subs.as_slice(), &self.sessions, session)
    }

    /// Queues a Publish; the one that it drives out is answered.
    #[tactic(auto, unfolding(server_rules::specs::Publishing::enqueued))]
    fn enqueue(
        &mut self,
        alloc: Global,
        waiting: Waiting,
        session: u32,
        to: &mut Vec<(u32, Order)>,
    ) -> Result<(), OutOfMemory>
        ensures state { OnOk result (self.new ≡ (enqueued waiting session self.old).state) }
        ensures orders { OnOk result (to.new.items ≡ to.old.items ++ orders_of (enqueued waiting session self.old).said) }
    {
        let Some(conn) = self.sessions.conn(session) else {
            return Ok(());
        };
        match self.sessions.park(session, parked_of(waiting))? {
            Some(out) => {
                let asker = waiting_on(conn, out).asker;
                self.fault(alloc, asker, BAD_TOO_MANY_PUBLISH_REQUESTS, to)
            }
            None => Ok(()),
        }
    }

    /// Counts a Publish as queued last, and takes out the oldest one.
    fn turn(&mut self, waiting: Waiting, session: u32) -> Result<Waiting, OutOfMemory>
        ensures first { IfOk result (λ first. first ≡ first_of (oldest_waiting session self.old) waiting) }
        ensures turned { OnOk result (self.new ≡ turned (oldest_waiting session self.old) waiting session self.old) }
    {
        match self.take_waiting(session) {
            Some(oldest) => {
                self.sessions.park(session, parked_of(waiting))?;
                Ok(oldest)
            }
            None => Ok(waiting),
        }
    }

    /// A late subscription sends at once.
    #[tactic(auto, using(crate::proofs::Joining::joined), unfolding(server_rules::specs::Publishing::used))]
    fn use_at_once(
        &mut self,
        alloc: Global,
        waiting: Waiting,
        id: u32,
        session: u32,
        to: &mut Vec<(u32, Order)>,
    ) -> Result<(), OutOfMemory>
        ensures state { OnOk result (self.new ≡ (used waiting id session self.old).state) }
        ensures orders { OnOk result (to.new.items ≡ to.old.items ++ orders_of (used waiting id session self.old).said) }
    {
        let first = self.turn(waiting, session)?;
        self.send(alloc, first, id, to)?;
        self.send_on(alloc, id, session, to)
    }

    /// Answers a Publish or queues it.
    #[tactic(auto, unfolding(server_rules::specs::Publishing::taken))]
    fn take(
        &mut self,
        alloc: Global,
        waiting: Waiting,
        session: u32,
        to: &mut Vec<(u32, Order)>,
    ) -> Result<(), OutOfMemory>
        ensures state { OnOk result (self.new ≡ (taken waiting session self.old).state) }
        ensures orders { OnOk result (to.new.items ≡ to.old.items ++ orders_of (taken waiting session self.old).said) }
    {
        if self.notices.has(session) {
            self.tell(alloc, waiting, session, to)
        } else if !self.has_subs(session) {
            self.fault(alloc, waiting.asker, BAD_NO_SUBSCRIPTION, to)
        } else {
            match self.late_sub(session) {
                Some(id) => self.use_at_once(alloc, waiting, id, session, to),
                None => self.enqueue(alloc, waiting, session, to),
            }
        }
    }

    /// A session's Publish (OPC 10000-4, 5.13.5): its acknowledgements are taken, and then it is answered or queued.
    #[tactic(auto, unfolding(server_rules::specs::Publishing::publish))]
    pub fn publish(
        &mut self,
        alloc: Global,
        asker: Asker,
        session: u32,
        request: &PublishRequest,
        to: &mut Vec<(u32, Order)>,
    ) -> Result<(), OutOfMemory>
        ensures state { OnOk result (self.new ≡ (publish asker session request.now self.old).state) }
        ensures orders { OnOk result
            (to.new.items ≡ to.old.items ++ orders_of (publish asker session request.now self.old).said) }
    {
        let acks = request.subscription_acknowledgements.as_slice();
        if acks.len() > MOST_ACKNOWLEDGEMENTS {
            return self.fault(alloc, asker, BAD_TOO_MANY_OPERATIONS, to);
        }
        let results = self.acknowledge_all(alloc, session, acks)?;
        self.take(alloc, Waiting { asker, results }, session, to)
    }
}
