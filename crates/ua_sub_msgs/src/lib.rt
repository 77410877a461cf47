//! The messages of monitored items and subscriptions, as bytes both ways (OPC 10000-4, 5.12 and 5.13).
#![tactic(auto)]

mod filter;
mod item;
mod laws;
mod notification;
mod publish;
mod reply;
mod request;
mod results;
mod subscription;

pub use filter::{DataChangeFilter, Filter, FilterType, read_filter, write_filter};
pub use item::{
    CreateMonitoredItemsRequest, CreateMonitoredItemsResponse, DeleteMonitoredItemsRequest,
    MonitoredItemCreateRequest, MonitoredItemCreateResult, MonitoringParameters,
    SetMonitoringModeRequest,
};
pub use laws::{
    filters_are_held, notifications_are_held, sub_replies_are_lawful, sub_requests_are_lawful,
};
pub use notification::{
    DataChangeNotification, MonitoredItemNotification, Notification, NotificationMessage,
    NotificationType, StatusChangeNotification, read_notification, write_notification,
};
pub use publish::{
    PublishRequest, PublishResponse, RepublishRequest, RepublishResponse,
    SubscriptionAcknowledgement,
};
pub use reply::{SubReply, SubReplyType, read_reply, write_reply};
pub use request::{SubRequest, SubRequestType, read_request, write_request};
pub use results::ResultsResponse;
pub use subscription::{
    CreateSubscriptionRequest, CreateSubscriptionResponse, DeleteSubscriptionsRequest,
    ModifySubscriptionRequest, ModifySubscriptionResponse, SetPublishingModeRequest,
    TransferResult, TransferSubscriptionsRequest, TransferSubscriptionsResponse,
};
