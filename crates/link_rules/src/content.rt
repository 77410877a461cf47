use ua_structures::UaArray;
use ua_sub_msgs::MonitoredItemNotification;

/// What the notifications of a message come to (OPC 10000-4, 7.20 and 7.21).
#[derive(Debug, Drop)]
pub enum Content {
    /// There is none: the subscription is alive.
    Alive,
    /// There is a StatusChangeNotification: the subscription ended.
    Ended,
    /// Values of items, in their order. There may be none, where all notifications are of other kinds.
    Values(UaArray<MonitoredItemNotification>),
    /// A DataChangeNotification doesn't read.
    Unread,
}
