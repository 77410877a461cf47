//! How a subscription sends.

ghost use Rattle.std.specs.Prelude.{◌≡◌, ◌++◌, OnOk};
ghost use Rattle.server_rules.specs.Said.{orders_of};
ghost use Rattle.server_rules.specs.Moves.{publish_reply};
ghost use Rattle.server_rules.specs.Publishing.{sends, sent, sent_on};

use crate::data::ServerData;
use crate::outgoing::Outgoing;
use server_rules::Waiting;
use sessions::AckResults;
use std::alloc::Global;
use ua_base::OutOfMemory;
use ua_channel::Order;
use ua_services::Reply;
use ua_structures::{ResponseHeader, UaArray, UnusedDiagnostics};
use ua_sub_msgs::{PublishResponse, SubReply};

/// The reply that is a subscription's next message.
fn message_reply(header: ResponseHeader, out: Outgoing, results: AckResults) -> Reply
    ensures { result ≡ publish_reply (record {
      response_header = header;
      subscription_id = out.id;
      available_sequence_numbers = out.numbers;
      more_notifications = out.more;
      notification_message = out.message;
      results = results;
      diagnostic_infos = record {};
    }) }
{
    Reply::Subscription(SubReply::Publish(PublishResponse {
        response_header: header,
        subscription_id: out.id,
        available_sequence_numbers: out.numbers,
        more_notifications: out.more,
        notification_message: out.message,
        results: UaArray::new(results.into_vec()),
        diagnostic_infos: UnusedDiagnostics,
    }))
}

impl ServerData {
    /// A subscription answers a Publish by its next message.
    #[tactic(auto, unfolding(server_rules::specs::Publishing::sent))]
    pub(crate) fn send(
        &mut self,
        alloc: Global,
        waiting: Waiting,
        id: u32,
        to: &mut Vec<(u32, Order)>,
    ) -> Result<(), OutOfMemory>
        ensures state { OnOk result (self.new ≡ (sent waiting id self.old).state) }
        ensures orders { OnOk result (to.new.items ≡ to.old.items ++ orders_of (sent waiting id self.old).said) }
    {
        let header = self.good_header(waiting.asker.handle);
        let now = self.server_time();
        match self.subs.publish(alloc, id, now)? {
            Some(out) => {
                let reply = message_reply(header, out, waiting.results);
                self.reply(alloc, waiting.asker, &reply, to)
            }
            None => Ok(()),
        }
    }

    /// While a subscription still has something, and a Publish is queued, it sends again.
    pub(crate) fn send_on(
        &mut self,
        alloc: Global,
        id: u32,
        session: u32,
        to: &mut Vec<(u32, Order)>,
    ) -> Result<(), OutOfMemory>
        ensures state { OnOk result (self.new ≡ (sent_on id session self.old).state) }
        ensures orders { OnOk result (to.new.items ≡ to.old.items ++ orders_of (sent_on id session self.old).said) }
    {
        while let Some(waiting) = self.next_sending(id, session) {
            self.send(alloc, waiting, id, to)?;
        }
        Ok(())
    }

    /// A subscription sends with its session's queued Publishes, the oldest first.
    #[tactic(auto, using(crate::proofs::Joining::joined), unfolding(server_rules::specs::Publishing::sends))]
    pub(crate) fn sends(
        &mut self,
        alloc: Global,
        id: u32,
        session: u32,
        to: &mut Vec<(u32, Order)>,
    ) -> Result<(), OutOfMemory>
        ensures state { OnOk result (self.new ≡ (sends id session self.old).state) }
        ensures orders { OnOk result (to.new.items ≡ to.old.items ++ orders_of (sends id session self.old).said) }
    {
        match self.take_waiting(session) {
            Some(waiting) => {
                self.send(alloc, waiting, id, to)?;
                self.send_on(alloc, id, session, to)
            }
            None => Ok(()),
        }
    }
}
