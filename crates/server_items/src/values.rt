//! Values with the times that are asked for.

ghost use Rattle.std.specs.Prelude.{◌≡◌, ℤ, map, None, Some, IfOk};
ghost use Rattle.ua_base.specs.declared.modes.Timestamps.{Timestamps};
ghost use Rattle.subscription.specs.Message.{has_server, has_source};
ghost use Rattle.server_rules.specs.Reading.{coded, value_read, with_times};
ghost use Rattle.server_items.specs.Read.{Gives};

use crate::form::form_fault;
use redundancy_nodes::{NodeFault, Nodes};
use std::alloc::Global;
use std::mem;
use ua_base::{OutOfMemory, Timestamps};
use ua_structures::ReadValueId;
use ua_variants::DataValue;

/// Whether the source's time is asked for.
fn has_source(stamps: Timestamps) -> bool
    ensures { result ≡ has_source stamps }
{
    match stamps {
        Timestamps::Source | Timestamps::Both => true,
        Timestamps::Server | Timestamps::Neither => false,
    }
}

/// Whether the server's time is asked for.
fn has_server(stamps: Timestamps) -> bool
    ensures { result ≡ has_server stamps }
{
    match stamps {
        Timestamps::Server | Timestamps::Both => true,
        Timestamps::Source | Timestamps::Neither => false,
    }
}

/// A status code in place of a value.
fn coded(code: u32) -> DataValue
    ensures { result ≡ coded code }
{
    DataValue {
        value: None,
        status: Some(code),
        source_timestamp: None,
        source_picoseconds: None,
        server_timestamp: None,
        server_picoseconds: None,
    }
}

/// Gives a value the times that are asked for, where there is one.
fn set_times(value: &mut DataValue, stamps: Timestamps, now: i64)
    ensures { value.new ≡ with_times stamps now value.old }
{
    if !has_source(stamps) {
        value.source_timestamp = None;
        value.source_picoseconds = None;
    }
    value.server_timestamp = if has_server(stamps) && value.value.is_some() {
        Some(now)
    } else {
        None
    };
    value.server_picoseconds = None;
}

/// What was read, with the times that are asked for, or the code that answers.
fn timed(
    read: Result<DataValue, NodeFault>,
    stamps: Timestamps,
    now: i64,
) -> Result<DataValue, OutOfMemory>
    ensures { Gives stamps now None read result }
{
    match read {
        Ok(mut value) => {
            set_times(&mut value, stamps, now);
            Ok(value)
        }
        Err(NodeFault::Code(code)) => Ok(coded(code)),
        Err(NodeFault::OutOfMemory) => Err(OutOfMemory),
    }
}

/// The code that answers where the value isn't given in the form that is asked for: that of the node comes before.
fn refused(read: Result<DataValue, NodeFault>, code: u32) -> Result<DataValue, OutOfMemory>
    ensures { (stamps : Timestamps) (now : ℤ) → Gives stamps now (Some code) read result }
{
    match read {
        Ok(value) => {
            // Let go by a generic function, since its type is a large one.
            mem::drop(value);
            Ok(coded(code))
        }
        Err(NodeFault::Code(first)) => Ok(coded(first)),
        Err(NodeFault::OutOfMemory) => Err(OutOfMemory),
    }
}

/// What a read of one node answers.
#[tactic(auto, unfolding(server_rules::specs::Reading::value_read))]
fn value_read(
    alloc: Global,
    nodes: &Nodes,
    stamps: Timestamps,
    asked: &ReadValueId,
) -> Result<DataValue, OutOfMemory>
    ensures { IfOk result (λ value. value ≡ value_read nodes.entry.now stamps asked.now) }
{
    let read = nodes.read_node(alloc, &asked.node_id, asked.attribute_id);
    match form_fault(asked) {
        None => timed(read, stamps, nodes.now),
        Some(code) => refused(read, code),
    }
}

/// What a read of nodes answers, one by one.
pub(crate) fn values_read(
    alloc: Global,
    nodes: &Nodes,
    stamps: Timestamps,
    asked: &[ReadValueId],
) -> Result<Vec<DataValue>, OutOfMemory>
    ensures { IfOk result (λ values. values.items ≡ map (value_read nodes.entry.now stamps) asked.now) }
{
    let mut values = Vec::new(alloc);
    for one in asked {
        values.push(value_read(alloc, nodes, stamps, one)?)?;
    }
    Ok(values)
}
