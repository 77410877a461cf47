ghost use Rattle.std.specs.Prelude.{◌≡◌, ◌++◌, OnOk, OnErr};
ghost use Rattle.ua_structures.specs.Body.{service, body_at, written_by, Answers, IsBodyRead};
ghost use Rattle.ua_sub_msgs.specs.Numbers.{request_id};
ghost use Rattle.ua_sub_msgs.specs.Families.{request_put, sub_requests};

use crate::item::{
    CreateMonitoredItemsRequest, DeleteMonitoredItemsRequest, SetMonitoringModeRequest,
};
use crate::publish::{PublishRequest, RepublishRequest};
use crate::subscription::{
    CreateSubscriptionRequest, DeleteSubscriptionsRequest, ModifySubscriptionRequest,
    SetPublishingModeRequest, TransferSubscriptionsRequest,
};
use std::alloc::Global;
use ua_base::OutOfMemory;
use ua_structures::{Body, BodyFault, read_as, read_body, write_body};
use ua_values::{Cursor, Element, ValueFault};

/// Which of these requests a body is.
#[derive(Clone, Copy, Debug, PartialEq, Eq)]
pub enum SubRequestType {
    CreateMonitoredItems,
    SetMonitoringMode,
    DeleteMonitoredItems,
    CreateSubscription,
    ModifySubscription,
    SetPublishingMode,
    Publish,
    Republish,
    TransferSubscriptions,
    DeleteSubscriptions,
}

impl SubRequestType {
    /// All of them.
    pub const ALL: [SubRequestType; 10] = [
        SubRequestType::CreateMonitoredItems,
        SubRequestType::SetMonitoringMode,
        SubRequestType::DeleteMonitoredItems,
        SubRequestType::CreateSubscription,
        SubRequestType::ModifySubscription,
        SubRequestType::SetPublishingMode,
        SubRequestType::Publish,
        SubRequestType::Republish,
        SubRequestType::TransferSubscriptions,
        SubRequestType::DeleteSubscriptions,
    ];

    /// The number of its NodeId in the namespace 0, which says that it is encoded in binary (OPC 10000-6, annex A.3).
    pub fn id(self) -> u32
        ensures { result ≡ request_id self }
    {
        match self {
            SubRequestType::CreateMonitoredItems => 751,
            SubRequestType::SetMonitoringMode => 769,
            SubRequestType::DeleteMonitoredItems => 781,
            SubRequestType::CreateSubscription => 787,
            SubRequestType::ModifySubscription => 793,
            SubRequestType::SetPublishingMode => 799,
            SubRequestType::Publish => 826,
            SubRequestType::Republish => 832,
            SubRequestType::TransferSubscriptions => 841,
            SubRequestType::DeleteSubscriptions => 847,
        }
    }

    /// The one that has this number.
    pub fn of(id: u32) -> Option<SubRequestType>
        ensures { result ≡ service sub_requests id }
    {
        SubRequestType::ALL
            .iter()
            .copied()
            .find(|one| one.id() == id)
    }
}

/// A request of monitored items or subscriptions.
#[derive(Debug, Drop)]
pub enum SubRequest {
    CreateMonitoredItems(CreateMonitoredItemsRequest),
    SetMonitoringMode(SetMonitoringModeRequest),
    DeleteMonitoredItems(DeleteMonitoredItemsRequest),
    CreateSubscription(CreateSubscriptionRequest),
    ModifySubscription(ModifySubscriptionRequest),
    SetPublishingMode(SetPublishingModeRequest),
    Publish(PublishRequest),
    Republish(RepublishRequest),
    TransferSubscriptions(TransferSubscriptionsRequest),
    DeleteSubscriptions(DeleteSubscriptionsRequest),
}

impl SubRequest {
    /// Which one it is.
    pub fn kind(&self) -> SubRequestType
        ensures { result ≡ (request_put self.now).kind }
    {
        match self {
            SubRequest::CreateMonitoredItems(_) => SubRequestType::CreateMonitoredItems,
            SubRequest::SetMonitoringMode(_) => SubRequestType::SetMonitoringMode,
            SubRequest::DeleteMonitoredItems(_) => SubRequestType::DeleteMonitoredItems,
            SubRequest::CreateSubscription(_) => SubRequestType::CreateSubscription,
            SubRequest::ModifySubscription(_) => SubRequestType::ModifySubscription,
            SubRequest::SetPublishingMode(_) => SubRequestType::SetPublishingMode,
            SubRequest::Publish(_) => SubRequestType::Publish,
            SubRequest::Republish(_) => SubRequestType::Republish,
            SubRequest::TransferSubscriptions(_) => SubRequestType::TransferSubscriptions,
            SubRequest::DeleteSubscriptions(_) => SubRequestType::DeleteSubscriptions,
        }
    }
}

impl Body for SubRequest {
    ghost use Rattle.ua_structures.specs.Body.{number_by};
    ghost use Rattle.ua_sub_msgs.specs.Families.{sub_requests, request_put};

    type Service = SubRequestType;

    ghost family = { sub_requests };

    ghost number = { number_by sub_requests request_put };

    ghost text = { λ value. (request_put value).text };

    fn service(id: u32) -> Option<SubRequestType> {
        SubRequestType::of(id)
    }

    fn read_structure(
        alloc: Global,
        which: SubRequestType,
        from: &mut Cursor<'_>,
    ) -> Result<SubRequest, ValueFault> {
        match which {
            SubRequestType::CreateMonitoredItems => read_as!(
                SubRequest::CreateMonitoredItems,
                alloc,
                from
            ),
            SubRequestType::SetMonitoringMode => read_as!(
                SubRequest::SetMonitoringMode,
                alloc,
                from
            ),
            SubRequestType::DeleteMonitoredItems => read_as!(
                SubRequest::DeleteMonitoredItems,
                alloc,
                from
            ),
            SubRequestType::CreateSubscription => read_as!(
                SubRequest::CreateSubscription,
                alloc,
                from
            ),
            SubRequestType::ModifySubscription => read_as!(
                SubRequest::ModifySubscription,
                alloc,
                from
            ),
            SubRequestType::SetPublishingMode => read_as!(
                SubRequest::SetPublishingMode,
                alloc,
                from
            ),
            SubRequestType::Publish => read_as!(SubRequest::Publish, alloc, from),
            SubRequestType::Republish => read_as!(SubRequest::Republish, alloc, from),
            SubRequestType::TransferSubscriptions => read_as!(
                SubRequest::TransferSubscriptions,
                alloc,
                from
            ),
            SubRequestType::DeleteSubscriptions => read_as!(
                SubRequest::DeleteSubscriptions,
                alloc,
                from
            ),
        }
    }

    fn number(&self) -> u32 {
        self.kind().id()
    }

    fn put_structure(&self, to: &mut Vec<u8>) -> Result<(), OutOfMemory> {
        match self {
            SubRequest::CreateMonitoredItems(request) => request.put(to),
            SubRequest::SetMonitoringMode(request) => request.put(to),
            SubRequest::DeleteMonitoredItems(request) => request.put(to),
            SubRequest::CreateSubscription(request) => request.put(to),
            SubRequest::ModifySubscription(request) => request.put(to),
            SubRequest::SetPublishingMode(request) => request.put(to),
            SubRequest::Publish(request) => request.put(to),
            SubRequest::Republish(request) => request.put(to),
            SubRequest::TransferSubscriptions(request) => request.put(to),
            SubRequest::DeleteSubscriptions(request) => request.put(to),
        }
    }
}

/// Reads the whole body of a request.
///
/// # Errors
///
/// `Unknown` where its type reads and is none of these; `Bad` where the type or the structure doesn't read, ends early or has bytes left
/// over.
pub fn read_request(alloc: Global, body: &[u8]) -> Result<SubRequest, BodyFault>
    ensures exact { Answers result (body_at sub_requests body.now) }
    ensures spelled { IsBodyRead sub_requests body.now result }
{
    read_body(alloc, body)
}

/// Appends the body of a request, or nothing where memory is refused.
pub fn write_request(request: &SubRequest, to: &mut Vec<u8>) -> Result<(), OutOfMemory>
    ensures ok { OnOk result (to.new.items ≡ to.old.items ++ written_by sub_requests request_put request.now) }
    ensures unchanged { OnErr result (to.new.items ≡ to.old.items) }
{
    write_body(request, to)
}
