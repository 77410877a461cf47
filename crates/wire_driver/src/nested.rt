//! The built-in types that hold others.

use crate::types::{Type, tell_type};
use rows::{Kind, Stop, Verb};
use std::alloc::Global;
use ua_base::OutOfMemory;
use ua_values::ValueFault;
use ua_variants::{
    DataValue, DiagnosticInfo, Variant, read_data_value, read_diagnostic_info, read_variant,
    write_data_value, write_diagnostic_info, write_variant,
};

struct Variants;

impl Kind for Variants {
    type Value = Variant;

    fn write(_alloc: Global, value: &Variant, to: &mut Vec<u8>) -> Result<(), OutOfMemory> {
        write_variant(value, to)
    }
}

impl Type for Variants {
    fn read(alloc: Global, bytes: &[u8]) -> Result<(Variant, usize), ValueFault> {
        read_variant(alloc, bytes)
    }
}

struct DataValues;

impl Kind for DataValues {
    type Value = DataValue;

    fn write(_alloc: Global, value: &DataValue, to: &mut Vec<u8>) -> Result<(), OutOfMemory> {
        write_data_value(value, to)
    }
}

impl Type for DataValues {
    fn read(alloc: Global, bytes: &[u8]) -> Result<(DataValue, usize), ValueFault> {
        read_data_value(alloc, bytes)
    }
}

struct DiagnosticInfos;

impl Kind for DiagnosticInfos {
    type Value = DiagnosticInfo;

    fn write(_alloc: Global, _value: &DiagnosticInfo, to: &mut Vec<u8>) -> Result<(), OutOfMemory> {
        write_diagnostic_info(to)
    }
}

impl Type for DiagnosticInfos {
    fn read(alloc: Global, bytes: &[u8]) -> Result<(DiagnosticInfo, usize), ValueFault> {
        read_diagnostic_info(alloc, bytes)
    }
}

/// Tells a value of a type with this name.
pub(crate) fn tell_nested(
    alloc: Global,
    verb: Verb,
    name: &str,
    bytes: &[u8],
    to: &mut String,
) -> Result<(), Stop> {
    match name {
        "Variant" => tell_type::<Variants>(alloc, verb, bytes, to),
        "DataValue" => tell_type::<DataValues>(alloc, verb, bytes, to),
        "DiagnosticInfo" => tell_type::<DiagnosticInfos>(alloc, verb, bytes, to),
        _ => Err(Stop::BadLine),
    }
}
