//! How answers are told.

use rows::{Stop, put, put_number};
use std::alloc::Global;
use ua_structures::BodyFault;
use ua_sub_msgs::{
    MonitoredItemNotification, Notification, NotificationMessage, read_notification,
};
use ua_variants::{Scalar, Variant};

/// Appends numbers, with a space between; none are `-`.
pub(crate) fn put_list(alloc: Global, to: &mut String, numbers: &[u32]) -> Result<(), Stop> {
    if numbers.is_empty() {
        return put(to, "-");
    }
    for (place, number) in numbers.iter().enumerate() {
        if place > 0 {
            put(to, " ")?;
        }
        put_number(alloc, to, u64::from(*number))?;
    }
    Ok(())
}

/// Appends a time behind its word, if there is one.
fn put_time(alloc: Global, to: &mut String, word: &str, time: Option<i64>) -> Result<(), Stop> {
    match time {
        Some(time) => put(to, format!(in alloc; "{word}{time}")?.as_str()),
        None => Ok(()),
    }
}

fn put_pico(alloc: Global, to: &mut String, pico: Option<u16>) -> Result<(), Stop> {
    match pico {
        Some(pico) => put(to, format!(in alloc; ".{pico}")?.as_str()),
        None => Ok(()),
    }
}

fn put_status(alloc: Global, to: &mut String, status: Option<u32>) -> Result<(), Stop> {
    match status {
        Some(status) => put(to, format!(in alloc; "!{status:x}")?.as_str()),
        None => Ok(()),
    }
}

/// Appends ` HANDLE:VALUE`, then `@TIME.PICO` of the source, `/TIME` of the server and `!STATUS`, where each is told.
fn put_value(alloc: Global, to: &mut String, told: &MonitoredItemNotification) -> Result<(), Stop> {
    let handle = told.client_handle;
    match &told.value.value {
        Some(Variant::Scalar(Scalar::Int64(value))) => {
            put(to, format!(in alloc; " {handle}:{value}")?.as_str())?;
        }
        _ => put(to, format!(in alloc; " {handle}:?")?.as_str())?,
    }
    put_time(alloc, to, "@", told.value.source_timestamp)?;
    put_pico(alloc, to, told.value.source_picoseconds)?;
    put_time(alloc, to, "/", told.value.server_timestamp)?;
    put_status(alloc, to, told.value.status)
}

fn put_read(
    alloc: Global,
    to: &mut String,
    read: &Result<Notification, BodyFault>,
) -> Result<(), Stop> {
    match read {
        Ok(Notification::DataChange(change)) => {
            for told in change.monitored_items.as_slice() {
                put_value(alloc, to, told)?;
            }
            Ok(())
        }
        Err(BodyFault::OutOfMemory) => Err(Stop::OutOfMemory),
        _ => put(to, " ?"),
    }
}

/// Appends a message's number and time, and what it tells.
pub(crate) fn put_message(
    alloc: Global,
    to: &mut String,
    message: &NotificationMessage,
) -> Result<(), Stop> {
    let (number, time) = (message.sequence_number, message.publish_time);
    put(to, format!(in alloc; "{number} at {time}")?.as_str())?;
    for object in message.notification_data.as_slice() {
        put_read(alloc, to, &read_notification(alloc, object))?;
    }
    Ok(())
}
