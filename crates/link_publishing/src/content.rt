//! What the notifications of a message come to (OPC 10000-4, 7.20 and 7.21).

ghost use Rattle.std.specs.Prelude.{◌≡◌, ◌++◌, [], Result, IfOk, OnOk};
ghost use Rattle.ua_structures.specs.declared.body.BodyFault.{BodyFault};
ghost use Rattle.ua_structures.specs.Body.{Answers, type_number};
ghost use Rattle.ua_sub_msgs.specs.declared.notification.Notification.{Notification};
ghost use Rattle.link_rules.specs.Messages.{content_by, content_of, has_status, is_binary, is_data, is_status, read_values, values_after, values_in};
ghost use Rattle.link_publishing.specs.Reading.{appended, shown};

use link_rules::Content;
use std::alloc::Global;
use ua_base::OutOfMemory;
use ua_structures::{BodyFault, UaArray};
use ua_sub_msgs::{
    DataChangeNotification, MonitoredItemNotification, Notification, read_notification,
};
use ua_values::{ExtensionBody, ExtensionObject, NodeId};

// ---- which kind a notification is of

/// The number of a type; of a NodeId that is no numeric one of the namespace 0 it is 0.
fn type_number(id: &NodeId) -> u32
    ensures { result ≡ type_number id.now }
{
    match id {
        NodeId::Numeric { namespace: 0, id } => *id,
        _ => 0,
    }
}

/// Whether it is a StatusChangeNotification, whatever it holds.
fn is_status(object: &ExtensionObject) -> bool
    ensures { result ≡ is_status object.now }
{
    type_number(&object.type_id) == 820
}

/// Whether there is a StatusChangeNotification among these.
fn has_status(objects: &[ExtensionObject]) -> bool
    ensures { result ≡ has_status objects.now }
{
    objects.iter().any(|object| is_status(object))
}

fn is_binary(body: &ExtensionBody) -> bool
    ensures { result ≡ is_binary body.now }
{
    match body {
        ExtensionBody::Binary(_) => true,
        ExtensionBody::Xml(_) | ExtensionBody::Absent => false,
    }
}

/// Whether it is a DataChangeNotification as bytes.
fn is_data(object: &ExtensionObject) -> bool
    ensures { result ≡ is_data object.now }
{
    type_number(&object.type_id) == 811 && is_binary(&object.body)
}

// ---- which values it brings

/// Appends the values of a DataChangeNotification.
fn append_change(
    change: DataChangeNotification,
    to: &mut Vec<MonitoredItemNotification>,
) -> Result<(), OutOfMemory>
    ensures { OnOk result (to.new.items ≡ to.old.items ++ change.monitored_items) }
{
    let mut values = change.monitored_items.into_vec();
    let appended = to.append(&mut values);
    drop(values);
    match appended {
        Ok(()) => Ok(()),
        Err(_) => Err(OutOfMemory),
    }
}

/// Appends the values of what was read; false where it didn't read.
fn append_read(
    read: Result<Notification, BodyFault>,
    to: &mut Vec<MonitoredItemNotification>,
) -> Result<bool, OutOfMemory>
    ensures { (told : Result Notification BodyFault) → Answers read told
        → IfOk result (λ reads. shown reads to.new.items ≡ appended to.old.items (read_values told)) }
{
    match read {
        Ok(Notification::DataChange(change)) => {
            append_change(change, to)?;
            Ok(true)
        }
        Ok(Notification::StatusChange(_)) => Ok(true),
        Err(BodyFault::OutOfMemory) => Err(OutOfMemory),
        Err(_) => Ok(false),
    }
}

/// Appends the values that an object brings; false where it doesn't read.
fn append_values(
    alloc: Global,
    object: &ExtensionObject,
    to: &mut Vec<MonitoredItemNotification>,
) -> Result<bool, OutOfMemory>
    ensures { IfOk result (λ reads. shown reads to.new.items ≡ appended to.old.items (values_in object.now)) }
{
    if is_data(object) {
        append_read(read_notification(alloc, object), to)
    } else {
        Ok(true)
    }
}

/// Appends the values that these objects bring; false where one doesn't read.
#[tactic(auto, using(crate::proofs::Values::reads_on, crate::proofs::Values::reads_not))]
fn append_all(
    alloc: Global,
    objects: &[ExtensionObject],
    to: &mut Vec<MonitoredItemNotification>,
) -> Result<bool, OutOfMemory>
    ensures { IfOk result (λ reads. shown reads to.new.items ≡ values_after to.old.items objects.now) }
{
    for object in objects {
        if !append_values(alloc, object, to)? {
            return Ok(false);
        }
    }
    Ok(true)
}

// ---- what they come to

/// What the values come to that were read, or weren't.
fn content_by(reads: bool, values: Vec<MonitoredItemNotification>) -> Content
    ensures { result ≡ content_by (shown reads values.items) }
{
    if reads {
        Content::Values(UaArray::new(values))
    } else {
        drop(values);
        Content::Unread
    }
}

/// What objects among which there is no StatusChangeNotification come to.
fn values_of(alloc: Global, objects: &[ExtensionObject]) -> Result<Content, OutOfMemory>
    ensures { IfOk result (λ content. content ≡ content_by (values_after [] objects.now)) }
{
    let mut values = Vec::new(alloc);
    match append_all(alloc, objects, &mut values) {
        Ok(reads) => Ok(content_by(reads, values)),
        Err(OutOfMemory) => {
            drop(values);
            Err(OutOfMemory)
        }
    }
}

/// What the notifications of a message come to: each stands in one of these objects.
///
/// # Errors
///
/// Want of memory.
#[tactic(auto, unfolding(link_rules::specs::Messages::content_of))]
pub fn content_of(alloc: Global, objects: &[ExtensionObject]) -> Result<Content, OutOfMemory>
    ensures { IfOk result (λ content. content ≡ content_of objects.now) }
{
    if objects.is_empty() {
        Ok(Content::Alive)
    } else if has_status(objects) {
        Ok(Content::Ended)
    } else {
        values_of(alloc, objects)
    }
}
