//! What stands in ExtensionObjects.

use crate::elements::put_value_fault;
use crate::messages::tell_numbered;
use crate::sole::Sole;
use rows::{Kind, Stop, Verb, put};
use std::alloc::Global;
use ua_base::OutOfMemory;
use ua_session_msgs::{IdentityToken, read_identity, write_identity};
use ua_structures::{Body, BodyFault, read_content, write_content};
use ua_sub_msgs::{
    Filter, Notification, read_filter, read_notification, write_filter, write_notification,
};
use ua_values::{ExtensionObject, ValueFault, read_extension_object, write_extension_object};

/// Appends an object.
fn put_object(
    object: &Result<ExtensionObject, OutOfMemory>,
    to: &mut Vec<u8>,
) -> Result<(), OutOfMemory> {
    match object {
        Ok(object) => write_extension_object(object, to),
        Err(_) => Err(OutOfMemory),
    }
}

/// A kind of structures that stand in objects.
trait Contents: Kind {
    /// Reads the structure in an object.
    fn read(alloc: Global, object: &ExtensionObject) -> Result<Self::Value, BodyFault>;
}

struct Identities;

impl Kind for Identities {
    type Value = IdentityToken;

    fn write(alloc: Global, value: &IdentityToken, to: &mut Vec<u8>) -> Result<(), OutOfMemory> {
        put_object(&write_identity(alloc, value), to)
    }
}

impl Contents for Identities {
    fn read(alloc: Global, object: &ExtensionObject) -> Result<IdentityToken, BodyFault> {
        read_identity(alloc, object)
    }
}

struct Filters;

impl Kind for Filters {
    type Value = Filter;

    fn write(alloc: Global, value: &Filter, to: &mut Vec<u8>) -> Result<(), OutOfMemory> {
        put_object(&write_filter(alloc, value), to)
    }
}

impl Contents for Filters {
    fn read(alloc: Global, object: &ExtensionObject) -> Result<Filter, BodyFault> {
        read_filter(alloc, object)
    }
}

struct Notifications;

impl Kind for Notifications {
    type Value = Notification;

    fn write(alloc: Global, value: &Notification, to: &mut Vec<u8>) -> Result<(), OutOfMemory> {
        put_object(&write_notification(alloc, value), to)
    }
}

impl Contents for Notifications {
    fn read(alloc: Global, object: &ExtensionObject) -> Result<Notification, BodyFault> {
        read_notification(alloc, object)
    }
}

struct SoleObjects;

impl Kind for SoleObjects {
    type Value = Sole;

    fn write(alloc: Global, value: &Sole, to: &mut Vec<u8>) -> Result<(), OutOfMemory> {
        put_object(&write_content(alloc, value), to)
    }
}

impl Contents for SoleObjects {
    fn read(alloc: Global, object: &ExtensionObject) -> Result<Sole, BodyFault> {
        read_content(alloc, object)
    }
}

fn tell_content<T: Contents>(
    alloc: Global,
    verb: Verb,
    object: &ExtensionObject,
    bytes: &[u8],
    to: &mut String,
) -> Result<(), Stop>
where
    T::Value: Body,
{
    tell_numbered::<T>(alloc, verb, &T::read(alloc, object), bytes, to)
}

/// Tells what an object that was read holds; a fault of the object is told behind its word.
fn tell_read_object<T: Contents>(
    alloc: Global,
    verb: Verb,
    read: &Result<(ExtensionObject, usize), ValueFault>,
    bytes: &[u8],
    to: &mut String,
) -> Result<(), Stop>
where
    T::Value: Body,
{
    match read {
        Ok((object, size)) if *size == bytes.len() => {
            tell_content::<T>(alloc, verb, object, bytes, to)
        }
        Ok((_, size)) => put(to, format!(in alloc; "object of {size} bytes")?.as_str()),
        Err(fault) => {
            put(to, "object ")?;
            put_value_fault(alloc, *fault, to)
        }
    }
}

fn tell_held<T: Contents>(
    alloc: Global,
    verb: Verb,
    bytes: &[u8],
    to: &mut String,
) -> Result<(), Stop>
where
    T::Value: Body,
{
    tell_read_object::<T>(alloc, verb, &read_extension_object(alloc, bytes), bytes, to)
}

/// Tells what the object that these bytes are holds, of the family with this name.
pub(crate) fn tell_object(
    alloc: Global,
    verb: Verb,
    name: &str,
    bytes: &[u8],
    to: &mut String,
) -> Result<(), Stop> {
    match name {
        "identity" => tell_held::<Identities>(alloc, verb, bytes, to),
        "filter" => tell_held::<Filters>(alloc, verb, bytes, to),
        "notification" => tell_held::<Notifications>(alloc, verb, bytes, to),
        "sole.object" => tell_held::<SoleObjects>(alloc, verb, bytes, to),
        _ => Err(Stop::BadLine),
    }
}
