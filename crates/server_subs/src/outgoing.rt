use ua_structures::UaArray;
use ua_sub_msgs::NotificationMessage;

/// What answers a Publish: a subscription's next message (OPC 10000-4, 5.13.5).
#[derive(Debug, Drop)]
pub(crate) struct Outgoing {
    /// The subscription.
    pub(crate) id: u32,
    /// The message.
    pub(crate) message: NotificationMessage,
    /// The numbers of the messages that are kept, this one among them.
    pub(crate) numbers: UaArray<u32>,
    /// Whether the subscription still has something.
    pub(crate) more: bool,
}
