//! Which filters a monitored item may have.

ghost use Rattle.std.specs.Prelude.{◌≡◌, IfOk};
ghost use Rattle.server_rules.specs.Items.{filter_fault, is_absent, is_told};
ghost use Rattle.server_items.specs.Filters.{Judges};

use server_rules::DataChangeTrigger;
use std::alloc::Global;
use ua_base::OutOfMemory;
use ua_base::status::BAD_MONITORED_ITEM_FILTER_UNSUPPORTED;
use ua_structures::BodyFault;
use ua_sub_msgs::{Filter, read_filter};
use ua_values::{ExtensionBody, ExtensionObject};

/// Whether each change of the value is told.
fn is_told(trigger: Option<DataChangeTrigger>) -> bool
    ensures { result ≡ is_told trigger }
{
    match trigger {
        None | Some(DataChangeTrigger::Status) => false,
        Some(DataChangeTrigger::StatusValue | DataChangeTrigger::StatusValueTimestamp) => true,
    }
}

/// Whether a filter without a deadband was read, by which each change of the value is told.
fn is_plain(read: &Result<Filter, BodyFault>) -> Result<bool, OutOfMemory>
    ensures { Judges read.now result }
{
    match read {
        Ok(Filter::DataChange(filter)) => {
            Ok(is_told(DataChangeTrigger::of_number(filter.trigger)) && filter.deadband_type == 0)
        }
        Err(BodyFault::OutOfMemory) => Err(OutOfMemory),
        Err(_) => Ok(false),
    }
}

/// Whether there is no filter.
fn is_absent(body: &ExtensionBody) -> bool
    ensures { result ≡ is_absent body.now }
{
    match body {
        ExtensionBody::Absent => true,
        ExtensionBody::Binary(_) | ExtensionBody::Xml(_) => false,
    }
}

/// The status code that refuses a filter.
pub(crate) fn filter_fault(
    alloc: Global,
    object: &ExtensionObject,
) -> Result<Option<u32>, OutOfMemory>
    ensures { IfOk result (λ fault. fault ≡ filter_fault object.now) }
{
    if is_absent(&object.body) || is_plain(&read_filter(alloc, object))? {
        Ok(None)
    } else {
        Ok(Some(BAD_MONITORED_ITEM_FILTER_UNSUPPORTED))
    }
}
