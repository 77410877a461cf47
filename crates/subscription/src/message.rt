//! How a message is formed.

ghost use Rattle.std.specs.Prelude.{◌≡◌, IfOk};
ghost use Rattle.ua_structures.specs.Body.{object_by};
ghost use Rattle.ua_sub_msgs.specs.Families.{notifications, notification_put};
ghost use Rattle.subscription.specs.Message.{data_change, formed, has_server, has_source, notification_of, objects_of, sent_pico, sent_status, value_of};

use item_queue::Entry;
use std::alloc::Global;
use ua_base::status::OVERFLOW_BITS;
use ua_base::{OutOfMemory, Timestamps};
use ua_structures::{UaArray, UnusedDiagnostics};
use ua_sub_msgs::{
    DataChangeNotification, MonitoredItemNotification, Notification, NotificationMessage,
    write_notification,
};
use ua_values::ExtensionObject;
use ua_variants::{DataValue, Scalar, Variant};

/// Whether the source's time is among these.
fn has_source(stamps: Timestamps) -> bool
    ensures { result ≡ has_source stamps }
{
    match stamps {
        Timestamps::Source | Timestamps::Both => true,
        Timestamps::Server | Timestamps::Neither => false,
    }
}

/// Whether the server's time is among these.
fn has_server(stamps: Timestamps) -> bool
    ensures { result ≡ has_server stamps }
{
    match stamps {
        Timestamps::Server | Timestamps::Both => true,
        Timestamps::Source | Timestamps::Neither => false,
    }
}

/// Picoseconds as they are sent: none where they are 0.
fn sent_pico(pico: u16) -> Option<u16>
    ensures { result ≡ sent_pico pico }
{
    if pico == 0 { None } else { Some(pico) }
}

/// The status that is sent with an entry: none where it isn't marked.
fn sent_status(marked: bool) -> Option<u32>
    ensures { result ≡ sent_status marked }
{
    if marked { Some(OVERFLOW_BITS) } else { None }
}

/// The value that is sent of an entry at a server's time.
fn value_of(now: i64, stamps: Timestamps, entry: Entry) -> DataValue
    ensures { result ≡ value_of now stamps entry }
{
    let source = has_source(stamps);
    let server = has_server(stamps);
    DataValue {
        value: Some(Variant::Scalar(Scalar::Int64(entry.change.value))),
        status: sent_status(entry.marked),
        source_timestamp: if source {
            Some(entry.change.time)
        } else {
            None
        },
        source_picoseconds: if source {
            sent_pico(entry.change.pico)
        } else {
            None
        },
        server_timestamp: if server { Some(now) } else { None },
        server_picoseconds: None,
    }
}

/// What a message says of an entry, under the client's handle, at a server's time.
pub(crate) fn notification(
    handle: u32,
    now: i64,
    stamps: Timestamps,
    entry: Entry,
) -> MonitoredItemNotification
    ensures { result ≡ notification_of handle now stamps entry }
{
    MonitoredItemNotification {
        client_handle: handle,
        value: value_of(now, stamps, entry),
    }
}

/// The object in which values stand.
fn object(
    alloc: Global,
    values: Vec<MonitoredItemNotification>,
) -> Result<ExtensionObject, OutOfMemory>
    ensures { IfOk result (λ object. object ≡ object_by notifications notification_put (data_change values.items)) }
{
    let notification = Notification::DataChange(DataChangeNotification {
        monitored_items: UaArray::new(values),
        diagnostic_infos: UnusedDiagnostics,
    });
    write_notification(alloc, &notification)
}

/// The objects of a message that tells these values: one, or none where there are no values.
fn objects(
    alloc: Global,
    values: Vec<MonitoredItemNotification>,
) -> Result<UaArray<ExtensionObject>, OutOfMemory>
    ensures { IfOk result (λ objects. objects ≡ objects_of values.items) }
{
    if values.is_empty() {
        return Ok(UaArray::empty(alloc));
    }
    let mut objects = Vec::new(alloc);
    objects.push(object(alloc, values)?)?;
    Ok(UaArray::new(objects))
}

/// The message of this number and time that tells these values.
pub(crate) fn form(
    alloc: Global,
    number: u32,
    now: i64,
    values: Vec<MonitoredItemNotification>,
) -> Result<NotificationMessage, OutOfMemory>
    ensures { IfOk result (λ message. message ≡ formed number now values.items) }
{
    Ok(NotificationMessage {
        sequence_number: number,
        publish_time: now,
        notification_data: objects(alloc, values)?,
    })
}
