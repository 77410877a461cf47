ghost use Rattle.std.specs.Prelude.{◌≡◌, ◌++◌, OnOk, OnErr};
ghost use Rattle.ua_structures.specs.Body.{service, body_at, written_by, Answers, IsBodyRead};
ghost use Rattle.ua_sub_msgs.specs.Numbers.{reply_id};
ghost use Rattle.ua_sub_msgs.specs.Families.{reply_put, sub_replies};

use crate::item::CreateMonitoredItemsResponse;
use crate::publish::{PublishResponse, RepublishResponse};
use crate::results::ResultsResponse;
use crate::subscription::{
    CreateSubscriptionResponse, ModifySubscriptionResponse, TransferSubscriptionsResponse,
};
use std::alloc::Global;
use ua_base::OutOfMemory;
use ua_structures::{Body, BodyFault, read_as, read_body, write_body};
use ua_values::{Cursor, Element, ValueFault};

/// Which of these replies a body is.
#[derive(Clone, Copy, Debug, PartialEq, Eq)]
pub enum SubReplyType {
    CreateMonitoredItems,
    SetMonitoringMode,
    DeleteMonitoredItems,
    CreateSubscription,
    ModifySubscription,
    SetPublishingMode,
    Publish,
    Republish,
    TransferSubscriptions,
    DeleteSubscriptions,
}

impl SubReplyType {
    /// All of them.
    pub const ALL: [SubReplyType; 10] = [
        SubReplyType::CreateMonitoredItems,
        SubReplyType::SetMonitoringMode,
        SubReplyType::DeleteMonitoredItems,
        SubReplyType::CreateSubscription,
        SubReplyType::ModifySubscription,
        SubReplyType::SetPublishingMode,
        SubReplyType::Publish,
        SubReplyType::Republish,
        SubReplyType::TransferSubscriptions,
        SubReplyType::DeleteSubscriptions,
    ];

    /// The number of its NodeId in the namespace 0, which says that it is encoded in binary (OPC 10000-6, annex A.3).
    pub fn id(self) -> u32
        ensures { result ≡ reply_id self }
    {
        match self {
            SubReplyType::CreateMonitoredItems => 754,
            SubReplyType::SetMonitoringMode => 772,
            SubReplyType::DeleteMonitoredItems => 784,
            SubReplyType::CreateSubscription => 790,
            SubReplyType::ModifySubscription => 796,
            SubReplyType::SetPublishingMode => 802,
            SubReplyType::Publish => 829,
            SubReplyType::Republish => 835,
            SubReplyType::TransferSubscriptions => 844,
            SubReplyType::DeleteSubscriptions => 850,
        }
    }

    /// The one that has this number.
    pub fn of(id: u32) -> Option<SubReplyType>
        ensures { result ≡ service sub_replies id }
    {
        SubReplyType::ALL.iter().copied().find(|one| one.id() == id)
    }
}

/// A reply to such a request.
#[derive(Debug, Drop)]
pub enum SubReply {
    CreateMonitoredItems(CreateMonitoredItemsResponse),
    SetMonitoringMode(ResultsResponse),
    DeleteMonitoredItems(ResultsResponse),
    CreateSubscription(CreateSubscriptionResponse),
    ModifySubscription(ModifySubscriptionResponse),
    SetPublishingMode(ResultsResponse),
    Publish(PublishResponse),
    Republish(RepublishResponse),
    TransferSubscriptions(TransferSubscriptionsResponse),
    DeleteSubscriptions(ResultsResponse),
}

impl SubReply {
    /// Which one it is.
    pub fn kind(&self) -> SubReplyType
        ensures { result ≡ (reply_put self.now).kind }
    {
        match self {
            SubReply::CreateMonitoredItems(_) => SubReplyType::CreateMonitoredItems,
            SubReply::SetMonitoringMode(_) => SubReplyType::SetMonitoringMode,
            SubReply::DeleteMonitoredItems(_) => SubReplyType::DeleteMonitoredItems,
            SubReply::CreateSubscription(_) => SubReplyType::CreateSubscription,
            SubReply::ModifySubscription(_) => SubReplyType::ModifySubscription,
            SubReply::SetPublishingMode(_) => SubReplyType::SetPublishingMode,
            SubReply::Publish(_) => SubReplyType::Publish,
            SubReply::Republish(_) => SubReplyType::Republish,
            SubReply::TransferSubscriptions(_) => SubReplyType::TransferSubscriptions,
            SubReply::DeleteSubscriptions(_) => SubReplyType::DeleteSubscriptions,
        }
    }
}

impl Body for SubReply {
    ghost use Rattle.ua_structures.specs.Body.{number_by};
    ghost use Rattle.ua_sub_msgs.specs.Families.{sub_replies, reply_put};

    type Service = SubReplyType;

    ghost family = { sub_replies };

    ghost number = { number_by sub_replies reply_put };

    ghost text = { λ value. (reply_put value).text };

    fn service(id: u32) -> Option<SubReplyType> {
        SubReplyType::of(id)
    }

    fn read_structure(
        alloc: Global,
        which: SubReplyType,
        from: &mut Cursor<'_>,
    ) -> Result<SubReply, ValueFault> {
        match which {
            SubReplyType::CreateMonitoredItems => read_as!(
                SubReply::CreateMonitoredItems,
                alloc,
                from
            ),
            SubReplyType::SetMonitoringMode => read_as!(SubReply::SetMonitoringMode, alloc, from),
            SubReplyType::DeleteMonitoredItems => read_as!(
                SubReply::DeleteMonitoredItems,
                alloc,
                from
            ),
            SubReplyType::CreateSubscription => read_as!(SubReply::CreateSubscription, alloc, from),
            SubReplyType::ModifySubscription => read_as!(SubReply::ModifySubscription, alloc, from),
            SubReplyType::SetPublishingMode => read_as!(SubReply::SetPublishingMode, alloc, from),
            SubReplyType::Publish => read_as!(SubReply::Publish, alloc, from),
            SubReplyType::Republish => read_as!(SubReply::Republish, alloc, from),
            SubReplyType::TransferSubscriptions => read_as!(
                SubReply::TransferSubscriptions,
                alloc,
                from
            ),
            SubReplyType::DeleteSubscriptions => read_as!(
                SubReply::DeleteSubscriptions,
                alloc,
                from
            ),
        }
    }

    fn number(&self) -> u32 {
        self.kind().id()
    }

    fn put_structure(&self, to: &mut Vec<u8>) -> Result<(), OutOfMemory> {
        match self {
            SubReply::CreateMonitoredItems(reply) => reply.put(to),
            SubReply::SetMonitoringMode(reply) => reply.put(to),
            SubReply::DeleteMonitoredItems(reply) => reply.put(to),
            SubReply::CreateSubscription(reply) => reply.put(to),
            SubReply::ModifySubscription(reply) => reply.put(to),
            SubReply::SetPublishingMode(reply) => reply.put(to),
            SubReply::Publish(reply) => reply.put(to),
            SubReply::Republish(reply) => reply.put(to),
            SubReply::TransferSubscriptions(reply) => reply.put(to),
            SubReply::DeleteSubscriptions(reply) => reply.put(to),
        }
    }
}

/// Reads the whole body of a reply.
///
/// # Errors
///
/// `Unknown` where its type reads and is none of these; `Bad` where the type or the structure doesn't read, ends early or has bytes left
/// over.
pub fn read_reply(alloc: Global, body: &[u8]) -> Result<SubReply, BodyFault>
    ensures exact { Answers result (body_at sub_replies body.now) }
    ensures spelled { IsBodyRead sub_replies body.now result }
{
    read_body(alloc, body)
}

/// Appends the body of a reply, or nothing where memory is refused.
pub fn write_reply(reply: &SubReply, to: &mut Vec<u8>) -> Result<(), OutOfMemory>
    ensures ok { OnOk result (to.new.items ≡ to.old.items ++ written_by sub_replies reply_put reply.now) }
    ensures unchanged { OnErr result (to.new.items ≡ to.old.items) }
{
    write_body(reply, to)
}
