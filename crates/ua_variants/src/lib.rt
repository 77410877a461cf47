//! The built-in types of OPC UA that hold others, as bytes both ways: Variant, DataValue and DiagnosticInfo.
#![tactic(auto)]

mod diagnostic;
mod dimensions;
mod flat;
mod head;
mod laws;
mod nested;
mod reading;
mod variant;
mod writing;

pub use dimensions::MOST_DIMENSIONS;
pub use laws::{data_values_are_lawful, diagnostic_infos_are_lawful, variants_are_lawful};
pub use reading::{
    read_data_value, read_diagnostic_info, read_variant, write_data_value, write_diagnostic_info,
    write_variant,
};
pub use variant::{Array, DataValue, DiagnosticInfo, Flat, Scalar, Stamped, Variant};
pub use writing::{put_data_value, put_variant};
