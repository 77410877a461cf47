//! What becomes of a session's notices and queued Publishes, and how subscriptions leave a session.

ghost use Rattle.std.specs.Prelude.{◌≡◌, ◌++◌, false, IfOk, OnOk};
ghost use Rattle.sessions.specs.Table.{may_transfer};
ghost use Rattle.server_rules.specs.Said.{orders_of};
ghost use Rattle.server_rules.specs.State.{sub_at};
ghost use Rattle.server_rules.specs.Moves.{answered_queued, deleted, expired_sub, gone, left, notice_message, noticed, other_than, publish_reply, released, served, told, transferred_sub};
ghost use Rattle.server_subs.specs.Leaving.{notice_for, noticed_if, told_by};

use crate::data::ServerData;
use crate::notices::Notice;
use server_rules::Waiting;
use sessions::AckResults;
use std::alloc::Global;
use ua_base::OutOfMemory;
use ua_base::status::{BAD_NO_SUBSCRIPTION, BAD_TIMEOUT, GOOD_SUBSCRIPTION_TRANSFERRED};
use ua_channel::Order;
use ua_services::Reply;
use ua_structures::{ResponseHeader, UaArray, UnusedDiagnostics};
use ua_sub_msgs::{
    Notification, NotificationMessage, PublishResponse, StatusChangeNotification, SubReply,
    write_notification,
};
use ua_variants::DiagnosticInfo;

/// The message of a notice, at a time of the server.
fn notice_message(
    alloc: Global,
    now: i64,
    notice: &Notice,
) -> Result<NotificationMessage, OutOfMemory>
    ensures { IfOk result (λ message. message ≡ notice_message now notice.now) }
{
    let status = Notification::StatusChange(StatusChangeNotification {
        status: notice.code,
        diagnostic_info: DiagnosticInfo,
    });
    let mut objects = Vec::new(alloc);
    objects.push(write_notification(alloc, &status)?)?;
    Ok(NotificationMessage {
        sequence_number: notice.next,
        publish_time: now,
        notification_data: UaArray::new(objects),
    })
}

/// The reply that is a notice's message.
fn notice_reply(
    header: ResponseHeader,
    message: NotificationMessage,
    results: AckResults,
    notice: Notice,
) -> Reply
    ensures { result ≡ publish_reply (record {
      response_header = header;
      subscription_id = notice.subscription;
      available_sequence_numbers = notice.available;
      more_notifications = false;
      notification_message = message;
      results = results;
      diagnostic_infos = record {};
    }) }
{
    Reply::Subscription(SubReply::Publish(PublishResponse {
        response_header: header,
        subscription_id: notice.subscription,
        available_sequence_numbers: notice.available,
        more_notifications: false,
        notification_message: message,
        results: UaArray::new(results.into_vec()),
        diagnostic_infos: UnusedDiagnostics,
    }))
}

/// A session without the one that is left out.
fn other_than(session: u32, owner: Option<u32>) -> Option<u32>
    ensures { result ≡ other_than session owner }
{
    match owner {
        Some(owner) if owner != session => Some(owner),
        _ => None,
    }
}

impl ServerData {
    /// Answers a Publish by the oldest notice of its session.
    #[tactic(auto, unfolding(server_rules::specs::Moves::told))]
    pub(crate) fn tell(
        &mut self,
        alloc: Global,
        waiting: Waiting,
        session: u32,
        to: &mut Vec<(u32, Order)>,
    ) -> Result<(), OutOfMemory>
        ensures state { OnOk result (self.new ≡ (told waiting session self.old).state) }
        ensures orders { OnOk result (to.new.items ≡ to.old.items ++ orders_of (told waiting session self.old).said) }
    {
        match self.notices.take(session) {
            Some(notice) => {
                let now = self.server_time();
                let message = notice_message(alloc, now, &notice)?;
                let header = self.good_header(waiting.asker.handle);
                let reply = notice_reply(header, message, waiting.results, notice);
                self.reply(alloc, waiting.asker, &reply, to)
            }
            None => Ok(()),
        }
    }

    /// A session's oldest notice answers its oldest queued Publish, and so on while it has both.
    pub(crate) fn serve(
        &mut self,
        alloc: Global,
        session: u32,
        to: &mut Vec<(u32, Order)>,
    ) -> Result<(), OutOfMemory>
        ensures state { OnOk result (self.new ≡ (served session self.old).state) }
        ensures orders { OnOk result (to.new.items ≡ to.old.items ++ orders_of (served session self.old).said) }
    {
        while let Some(waiting) = self.next_served(session) {
            self.tell(alloc, waiting, session, to)?;
        }
        Ok(())
    }

    /// Answers a session's queued Publishes by a ServiceFault, the oldest first.
    pub fn answer_queued(
        &mut self,
        alloc: Global,
        code: u32,
        session: u32,
        to: &mut Vec<(u32, Order)>,
    ) -> Result<(), OutOfMemory>
        ensures state { OnOk result (self.new ≡ (answered_queued code session self.old).state) }
        ensures orders { OnOk result
            (to.new.items ≡ to.old.items ++ orders_of (answered_queued code session self.old).said) }
    {
        while let Some(waiting) = self.take_waiting(session) {
            self.fault(alloc, waiting.asker, code, to)?;
        }
        Ok(())
    }

    /// A session without subscription and notice has nothing to wait for.
    fn release(
        &mut self,
        alloc: Global,
        session: u32,
        to: &mut Vec<(u32, Order)>,
    ) -> Result<(), OutOfMemory>
        ensures state { OnOk result (self.new ≡ (released session self.old).state) }
        ensures orders { OnOk result (to.new.items ≡ to.old.items ++ orders_of (released session self.old).said) }
    {
        if self.has_subs(session) || self.notices.has(session) {
            Ok(())
        } else {
            self.answer_queued(alloc, BAD_NO_SUBSCRIPTION, session, to)
        }
    }

    /// Answers what a session waits for after a subscription of it went: by its notices, and where it has no
    /// subscription and no notice, by `Bad_NoSubscription`.
    #[tactic(auto, using(crate::proofs::Joining::joined), unfolding(server_rules::specs::Moves::left))]
    pub fn leave(
        &mut self,
        alloc: Global,
        session: u32,
        to: &mut Vec<(u32, Order)>,
    ) -> Result<(), OutOfMemory>
        ensures state { OnOk result (self.new ≡ (left session self.old).state) }
        ensures orders { OnOk result (to.new.items ≡ to.old.items ++ orders_of (left session self.old).said) }
    {
        self.serve(alloc, session, to)?;
        self.release(alloc, session, to)
    }

    /// Deletes a subscription (OPC 10000-4, 5.13.8).
    #[tactic(auto, unfolding(server_rules::specs::Moves::deleted))]
    pub fn delete(
        &mut self,
        alloc: Global,
        id: u32,
        to: &mut Vec<(u32, Order)>,
    ) -> Result<(), OutOfMemory>
        ensures state { OnOk result (self.new ≡ (deleted id self.old).state) }
        ensures orders { OnOk result (to.new.items ≡ to.old.items ++ orders_of (deleted id self.old).said) }
    {
        let owner = self.sessions.owner(id);
        self.gone(id);
        match owner {
            Some(session) => self.leave(alloc, session, to),
            None => Ok(()),
        }
    }

    /// What the session that owned a subscription is to be told of it.
    fn notice_for(
        &self,
        alloc: Global,
        owner: Option<u32>,
        code: u32,
        id: u32,
    ) -> Result<Option<Notice>, OutOfMemory>
        ensures { IfOk result (λ notice. notice ≡ notice_for owner code (sub_at id self.now.subs)) }
    {
        let Some(session) = owner else {
            return Ok(None);
        };
        let Some(sub) = self.subs.get(id) else {
            return Ok(None);
        };
        let mut available = Vec::new(alloc);
        sub.numbers(&mut available)?;
        Ok(Some(Notice {
            session,
            subscription: sub.spec().id,
            code,
            next: sub.next(),
            available: UaArray::new(available),
        }))
    }

    /// A session is to be told this, if it is anything.
    #[tactic(auto, unfolding(server_rules::specs::Moves::noticed))]
    fn notice(&mut self, notice: Option<Notice>) -> Result<(), OutOfMemory>
        ensures { OnOk result (self.new ≡ noticed_if notice self.old) }
    {
        match notice {
            Some(notice) => self.notices.add(&self.sessions, notice),
            None => Ok(()),
        }
    }

    /// The session that owned a subscription, if there is one, is told why it is no more its own.
    fn tell_why(
        &mut self,
        alloc: Global,
        owner: Option<u32>,
        notice: Option<Notice>,
        to: &mut Vec<(u32, Order)>,
    ) -> Result<(), OutOfMemory>
        ensures state { OnOk result (self.new ≡ (told_by owner notice self.old).state) }
        ensures orders { OnOk result (to.new.items ≡ to.old.items ++ orders_of (told_by owner notice self.old).said) }
    {
        match owner {
            Some(session) => {
                self.notice(notice)?;
                self.leave(alloc, session, to)
            }
            None => Ok(()),
        }
    }

    /// A subscription ends, since no Publish came for its lifetime count (OPC 10000-4, 5.13.1.2).
    #[tactic(auto, using(crate::proofs::Telling::told_as), unfolding(server_rules::specs::Moves::expired_sub))]
    pub(crate) fn expire_sub(
        &mut self,
        alloc: Global,
        id: u32,
        to: &mut Vec<(u32, Order)>,
    ) -> Result<(), OutOfMemory>
        ensures state { OnOk result (self.new ≡ (expired_sub id self.old).state) }
        ensures orders { OnOk result (to.new.items ≡ to.old.items ++ orders_of (expired_sub id self.old).said) }
    {
        let owner = self.sessions.owner(id);
        let notice = self.notice_for(alloc, owner, BAD_TIMEOUT, id)?;
        self.gone(id);
        self.tell_why(alloc, owner, notice, to)
    }

    /// Gives a subscription to a session of the client that owned it last, and answers whether it is (OPC 10000-4,
    /// 5.13.7).
    #[tactic(auto, using(crate::proofs::Telling::told_as), unfolding(server_rules::specs::Moves::transferred_sub))]
    pub fn transfer(
        &mut self,
        alloc: Global,
        id: u32,
        session: u32,
        to: &mut Vec<(u32, Order)>,
    ) -> Result<bool, OutOfMemory>
        ensures given { IfOk result (λ given. given ≡ may_transfer id session self.old.sessions) }
        ensures state { OnOk result (self.new ≡ (transferred_sub id session self.old).state) }
        ensures orders { OnOk result
            (to.new.items ≡ to.old.items ++ orders_of (transferred_sub id session self.old).said) }
    {
        let former = other_than(session, self.sessions.owner(id));
        let notice = self.notice_for(alloc, former, GOOD_SUBSCRIPTION_TRANSFERRED, id)?;
        if !self.sessions.lives(session) || self.sessions.transfer(id, session).is_err() {
            return Ok(false);
        }
        self.subs.moved(id);
        self.tell_why(alloc, former, notice, to)?;
        Ok(true)
    }
}
