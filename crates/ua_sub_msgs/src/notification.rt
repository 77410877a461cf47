//! What a subscription tells: notifications, and the messages that they stand in.

ghost use Rattle.std.specs.Prelude.{◌≡◌, IfOk};
ghost use Rattle.ua_structures.specs.Body.{service, object_at, object_by, Answers, IsContentRead};
ghost use Rattle.ua_sub_msgs.specs.Numbers.{notification_id};
ghost use Rattle.ua_sub_msgs.specs.Families.{notification_put, notifications};

use std::alloc::Global;
use ua_base::OutOfMemory;
use ua_structures::{
    Body, BodyFault, UaArray, UnusedDiagnostics, put_fields, read_as, read_content, read_fields,
    write_content,
};
use ua_values::{Cursor, Element, ExtensionObject, ValueFault};
use ua_variants::{DataValue, DiagnosticInfo};

/// A new value of an item (OPC 10000-4, 7.20.2).
#[derive(Debug, Drop)]
pub struct MonitoredItemNotification {
    pub client_handle: u32,
    pub value: DataValue,
}

#[tactic(auto, unfolding(crate::specs::Structures::a_monitored_item_notification))]
impl Element for MonitoredItemNotification {
    ghost use Rattle.ua_sub_msgs.specs.Structures.{a_monitored_item_notification};

    ghost at = { a_monitored_item_notification.at };

    ghost written = { a_monitored_item_notification.written };

    fn read(alloc: Global, from: &mut Cursor<'_>) -> Result<MonitoredItemNotification, ValueFault> {
        read_fields!(alloc, from => client_handle, value)
    }

    fn put(&self, to: &mut Vec<u8>) -> Result<(), OutOfMemory> {
        put_fields!(self, to => client_handle, value)
    }
}

/// New values of items (OPC 10000-4, 7.20.2).
#[derive(Debug, Drop)]
pub struct DataChangeNotification {
    pub monitored_items: UaArray<MonitoredItemNotification>,
    pub diagnostic_infos: UnusedDiagnostics,
}

#[tactic(auto, unfolding(crate::specs::Structures::a_data_change_notification))]
impl Element for DataChangeNotification {
    ghost use Rattle.ua_sub_msgs.specs.Structures.{a_data_change_notification};

    ghost at = { a_data_change_notification.at };

    ghost written = { a_data_change_notification.written };

    fn read(alloc: Global, from: &mut Cursor<'_>) -> Result<DataChangeNotification, ValueFault> {
        read_fields!(alloc, from => monitored_items, diagnostic_infos)
    }

    fn put(&self, to: &mut Vec<u8>) -> Result<(), OutOfMemory> {
        put_fields!(self, to => monitored_items, diagnostic_infos)
    }
}

/// What became of the subscription itself (OPC 10000-4, 7.20.4).
#[derive(Clone, Copy, Debug, PartialEq, Eq)]
pub struct StatusChangeNotification {
    pub status: u32,
    pub diagnostic_info: DiagnosticInfo,
}

#[tactic(auto, unfolding(crate::specs::Structures::a_status_change_notification))]
impl Element for StatusChangeNotification {
    ghost use Rattle.ua_sub_msgs.specs.Structures.{a_status_change_notification};

    ghost at = { a_status_change_notification.at };

    ghost written = { a_status_change_notification.written };

    fn read(alloc: Global, from: &mut Cursor<'_>) -> Result<StatusChangeNotification, ValueFault> {
        read_fields!(alloc, from => status, diagnostic_info)
    }

    fn put(&self, to: &mut Vec<u8>) -> Result<(), OutOfMemory> {
        put_fields!(self, to => status, diagnostic_info)
    }
}

/// Which of these notifications an object holds.
#[derive(Clone, Copy, Debug, PartialEq, Eq)]
pub enum NotificationType {
    DataChange,
    StatusChange,
}

impl NotificationType {
    /// All of them.
    pub const ALL: [NotificationType; 2] = [
        NotificationType::DataChange,
        NotificationType::StatusChange,
    ];

    /// The number of its NodeId in the namespace 0, which says that it is encoded in binary (OPC 10000-6, annex A.3).
    pub fn id(self) -> u32
        ensures { result ≡ notification_id self }
    {
        match self {
            NotificationType::DataChange => 811,
            NotificationType::StatusChange => 820,
        }
    }

    /// The one that has this number.
    pub fn of(id: u32) -> Option<NotificationType>
        ensures { result ≡ service notifications id }
    {
        NotificationType::ALL
            .iter()
            .copied()
            .find(|one| one.id() == id)
    }
}

/// A notification, which stands in an ExtensionObject of a NotificationMessage (OPC 10000-4, 7.20).
#[derive(Debug, Drop)]
pub enum Notification {
    DataChange(DataChangeNotification),
    StatusChange(StatusChangeNotification),
}

impl Notification {
    /// Which one it is.
    pub fn kind(&self) -> NotificationType
        ensures { result ≡ (notification_put self.now).kind }
    {
        match self {
            Notification::DataChange(_) => NotificationType::DataChange,
            Notification::StatusChange(_) => NotificationType::StatusChange,
        }
    }
}

impl Body for Notification {
    ghost use Rattle.ua_structures.specs.Body.{number_by};
    ghost use Rattle.ua_sub_msgs.specs.Families.{notifications, notification_put};

    type Service = NotificationType;

    ghost family = { notifications };

    ghost number = { number_by notifications notification_put };

    ghost text = { λ value. (notification_put value).text };

    fn service(id: u32) -> Option<NotificationType> {
        NotificationType::of(id)
    }

    fn read_structure(
        alloc: Global,
        which: NotificationType,
        from: &mut Cursor<'_>,
    ) -> Result<Notification, ValueFault> {
        match which {
            NotificationType::DataChange => read_as!(Notification::DataChange, alloc, from),
            NotificationType::StatusChange => read_as!(Notification::StatusChange, alloc, from),
        }
    }

    fn number(&self) -> u32 {
        self.kind().id()
    }

    fn put_structure(&self, to: &mut Vec<u8>) -> Result<(), OutOfMemory> {
        match self {
            Notification::DataChange(notification) => notification.put(to),
            Notification::StatusChange(notification) => notification.put(to),
        }
    }
}

/// Reads the notification that an ExtensionObject holds.
///
/// # Errors
///
/// `Unknown` where its type is none of these; `Bad` where it holds no bytes, or where these aren't just such a structure. Places are
/// counted in the object's bytes.
pub fn read_notification(alloc: Global, object: &ExtensionObject) -> Result<Notification, BodyFault>
    ensures exact { Answers result (object_at notifications object.now) }
    ensures held { IsContentRead notifications object.now result }
{
    read_content(alloc, object)
}

/// The ExtensionObject that holds this notification.
pub fn write_notification(
    alloc: Global,
    notification: &Notification,
) -> Result<ExtensionObject, OutOfMemory>
    ensures { IfOk result (λ x. x ≡ object_by notifications notification_put notification.now) }
{
    write_content(alloc, notification)
}

/// What a subscription tells at one time; without notifications it only says that the subscription is alive (OPC 10000-4, 7.21).
#[derive(Debug, Drop)]
pub struct NotificationMessage {
    pub sequence_number: u32,
    /// The server's time, in 100 nanoseconds since 1601-01-01 UTC.
    pub publish_time: i64,
    /// Each holds a notification.
    pub notification_data: UaArray<ExtensionObject>,
}

impl NotificationMessage {
    /// The same message once more.
    pub fn copy(&self, alloc: Global) -> Result<NotificationMessage, OutOfMemory>
        ensures { IfOk result (λ copied. copied ≡ self.now) }
    {
        Ok(NotificationMessage {
            sequence_number: self.sequence_number,
            publish_time: self.publish_time,
            notification_data: self.notification_data.copy(alloc)?,
        })
    }
}

#[tactic(auto, unfolding(crate::specs::Structures::a_notification_message))]
impl Element for NotificationMessage {
    ghost use Rattle.ua_sub_msgs.specs.Structures.{a_notification_message};

    ghost at = { a_notification_message.at };

    ghost written = { a_notification_message.written };

    fn read(alloc: Global, from: &mut Cursor<'_>) -> Result<NotificationMessage, ValueFault> {
        read_fields!(alloc, from => sequence_number, publish_time, notification_data)
    }

    fn put(&self, to: &mut Vec<u8>) -> Result<(), OutOfMemory> {
        put_fields!(self, to => sequence_number, publish_time, notification_data)
    }
}
