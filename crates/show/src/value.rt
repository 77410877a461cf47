//! `show value`.

ghost use Rattle.std.specs.Prelude.{◌≡◌, ◌++◌, codes, length, Ok, OnOk, IfOk};
ghost use Rattle.std.specs.Fmt.{decimal};
ghost use Rattle.ua_base.specs.Status.{bad_decoding_error};
ghost use Rattle.ua_variants.specs.declared.variant.Variant.{Variant};
ghost use Rattle.ua_variants.specs.declared.variant.Stamped.{Stamped};
ghost use Rattle.ua_variants.specs.Kinds.{flat_number};
ghost use Rattle.ua_variants.specs.Grammar.{count_of_array, data_value};
ghost use Rattle.ua_variants.specs.Spelling.{flat_of, flat_of_array};
ghost use Rattle.show.specs.declared.fault.ShowFault.TheVariants as faults;
ghost use Rattle.show.specs.Text.{array_lines, bytes_text, count_line, diagnostic_lines, field_line, scalar_text};
ghost use Rattle.show.specs.Text.{some_text, status_text, value_line, value_text, variant_text, written_lines};
ghost use Rattle.show.specs.Answer.{Shows};
ghost use Rattle.show.specs.Value.{IsFaultOf, shown_of, shown_value, IsShown};

use crate::fault::ShowFault;
use crate::text::{
    Plain, end_line, put_plain, put_plain_lines, put_status, put_status_lines, put_written,
    put_written_line, put_written_lines,
};
use std::alloc::Global;
use ua_base::OutOfMemory;
use ua_base::status::BAD_DECODING_ERROR;
use ua_values::{Element, ValueFault};
use ua_variants::{Array, DataValue, DiagnosticInfo, Scalar, Variant, read_data_value};

/// Appends the text of a value that holds no others.
fn put_scalar(value: &Scalar, to: &mut Vec<u8>) -> Result<(), OutOfMemory>
    ensures { OnOk result (to.new.items ≡ to.old.items ++ scalar_text value.now) }
{
    match value {
        Scalar::Boolean(value) => put_plain(value, to),
        Scalar::SByte(value) => put_plain(value, to),
        Scalar::Byte(value) => put_plain(value, to),
        Scalar::Int16(value) => put_plain(value, to),
        Scalar::UInt16(value) => put_plain(value, to),
        Scalar::Int32(value) => put_plain(value, to),
        Scalar::UInt32(value) => put_plain(value, to),
        Scalar::Int64(value) => put_plain(value, to),
        Scalar::UInt64(value) => put_plain(value, to),
        Scalar::Float(bits) => put_written(bits, to),
        Scalar::Double(bits) => put_written(bits, to),
        Scalar::String(value) => put_written(value, to),
        Scalar::DateTime(value) => put_plain(value, to),
        Scalar::Guid(value) => put_plain(value, to),
        Scalar::ByteString(value) => put_written(value, to),
        Scalar::XmlElement(value) => put_written(value, to),
        Scalar::NodeId(value) => put_written(value, to),
        Scalar::ExpandedNodeId(value) => put_written(value, to),
        Scalar::StatusCode(code) => put_status(*code, to),
        Scalar::QualifiedName(value) => put_written(value, to),
        Scalar::LocalizedText(value) => put_written(value, to),
        Scalar::ExtensionObject(value) => put_written(value, to),
    }
}

/// Appends a line for each element.
fn put_array(items: &Array, to: &mut Vec<u8>) -> Result<(), OutOfMemory>
    ensures { OnOk result (to.new.items ≡ to.old.items ++ array_lines items.now) }
{
    match items {
        Array::Boolean(items) => put_plain_lines(items.as_slice(), to),
        Array::SByte(items) => put_plain_lines(items.as_slice(), to),
        Array::Byte(items) => put_plain_lines(items.as_slice(), to),
        Array::Int16(items) => put_plain_lines(items.as_slice(), to),
        Array::UInt16(items) => put_plain_lines(items.as_slice(), to),
        Array::Int32(items) => put_plain_lines(items.as_slice(), to),
        Array::UInt32(items) => put_plain_lines(items.as_slice(), to),
        Array::Int64(items) => put_plain_lines(items.as_slice(), to),
        Array::UInt64(items) => put_plain_lines(items.as_slice(), to),
        Array::Float(items) => put_written_lines(items.as_slice(), to),
        Array::Double(items) => put_written_lines(items.as_slice(), to),
        Array::String(items) => put_written_lines(items.as_slice(), to),
        Array::DateTime(items) => put_plain_lines(items.as_slice(), to),
        Array::Guid(items) => put_plain_lines(items.as_slice(), to),
        Array::ByteString(items) => put_written_lines(items.as_slice(), to),
        Array::XmlElement(items) => put_written_lines(items.as_slice(), to),
        Array::NodeId(items) => put_written_lines(items.as_slice(), to),
        Array::ExpandedNodeId(items) => put_written_lines(items.as_slice(), to),
        Array::StatusCode(items) => put_status_lines(items.as_slice(), to),
        Array::QualifiedName(items) => put_written_lines(items.as_slice(), to),
        Array::LocalizedText(items) => put_written_lines(items.as_slice(), to),
        Array::ExtensionObject(items) => put_written_lines(items.as_slice(), to),
    }
}

/// Begins the line of a value with its type's number.
fn begin_value(number: u8, to: &mut Vec<u8>) -> Result<(), OutOfMemory>
    ensures { OnOk result (to.new.items ≡ to.old.items ++ (codes "value " ++ decimal number ++ codes " ")) }
{
    let text = format!(in *to.allocator(); "value {number} ")?;
    to.extend_from_slice(text.as_bytes())?;
    Ok(())
}

/// The line of an array: its type's number, and how many elements it has.
fn put_count(number: u8, count: usize, to: &mut Vec<u8>) -> Result<(), OutOfMemory>
    ensures { OnOk result (to.new.items ≡ to.old.items ++ count_line number count) }
{
    let text = format!(in *to.allocator(); "value {number}[{count}]\n")?;
    to.extend_from_slice(text.as_bytes())?;
    Ok(())
}

fn put_null(to: &mut Vec<u8>) -> Result<(), OutOfMemory>
    ensures { OnOk result (to.new.items ≡ to.old.items ++ value_line 0 (codes "null")) }
{
    begin_value(0, to)?;
    to.extend_from_slice(b"null")?;
    end_line(to)
}

fn put_scalar_line(value: &Scalar, to: &mut Vec<u8>) -> Result<(), OutOfMemory>
    ensures { OnOk result (to.new.items
        ≡ to.old.items ++ value_line (flat_number (flat_of value.now)) (scalar_text value.now)) }
{
    begin_value(value.flat().number(), to)?;
    put_scalar(value, to)?;
    end_line(to)
}

fn put_written_value<T: Element>(number: u8, value: &T, to: &mut Vec<u8>) -> Result<(), OutOfMemory>
    ensures { OnOk result (to.new.items ≡ to.old.items ++ value_line number (bytes_text (T.written value.now))) }
{
    begin_value(number, to)?;
    put_written(value, to)?;
    end_line(to)
}

fn put_array_lines(items: &Array, to: &mut Vec<u8>) -> Result<(), OutOfMemory>
    ensures { OnOk result (to.new.items ≡ to.old.items
        ++ (count_line (flat_number (flat_of_array items.now)) (count_of_array items.now) ++ array_lines items.now)) }
{
    put_count(items.flat().number(), items.len(), to)?;
    put_array(items, to)
}

fn put_written_array<T: Element>(
    number: u8,
    items: &[T],
    to: &mut Vec<u8>,
) -> Result<(), OutOfMemory>
    ensures { OnOk result (to.new.items
        ≡ to.old.items ++ (count_line number (length items.now) ++ written_lines T.written items.now)) }
{
    put_count(number, items.len(), to)?;
    put_written_lines(items, to)
}

/// A line for each DiagnosticInfo.
fn put_diagnostic_lines(count: usize, to: &mut Vec<u8>) -> Result<(), OutOfMemory>
    ensures { OnOk result (to.new.items ≡ to.old.items ++ diagnostic_lines count) }
{
    for _i in 0..count {
        put_written_line(&DiagnosticInfo, to)?;
    }
    Ok(())
}

fn put_diagnostics(count: usize, to: &mut Vec<u8>) -> Result<(), OutOfMemory>
    ensures { OnOk result (to.new.items ≡ to.old.items ++ (count_line 25 count ++ diagnostic_lines count)) }
{
    put_count(25, count, to)?;
    put_diagnostic_lines(count, to)
}

fn put_variant(value: &Variant, to: &mut Vec<u8>) -> Result<(), OutOfMemory>
    ensures { OnOk result (to.new.items ≡ to.old.items ++ variant_text value.now) }
{
    match value {
        Variant::Null => put_null(to),
        Variant::Scalar(value) => put_scalar_line(value, to),
        Variant::DataValue(value) => put_written_value(23, value.get(), to),
        Variant::Variant(value) => put_written_value(24, value.get(), to),
        Variant::DiagnosticInfo => put_written_value(25, &DiagnosticInfo, to),
        Variant::Array(items, _) => put_array_lines(items, to),
        Variant::DataValues(items, _) => put_written_array(23, items.as_slice(), to),
        Variant::Variants(items, _) => put_written_array(24, items.as_slice(), to),
        Variant::DiagnosticInfos(count, _) => put_diagnostics(*count, to),
    }
}

fn put_some_variant(value: &Option<Variant>, to: &mut Vec<u8>) -> Result<(), OutOfMemory>
    ensures { OnOk result (to.new.items ≡ to.old.items ++ some_text variant_text value.now) }
{
    match value {
        None => Ok(()),
        Some(value) => put_variant(value, to),
    }
}

/// The line of the status, where there is one.
fn put_status_field(status: Option<u32>, to: &mut Vec<u8>) -> Result<(), OutOfMemory>
    ensures { OnOk result (to.new.items ≡ to.old.items ++ field_line (codes "status") status_text status) }
{
    match status {
        None => Ok(()),
        Some(code) => {
            to.extend_from_slice(b"status ")?;
            put_status(code, to)?;
            end_line(to)
        }
    }
}

/// The line of a field with a text of its own, where it is there.
fn put_field<T: Plain + Copy>(
    name: &str,
    field: Option<T>,
    to: &mut Vec<u8>,
) -> Result<(), OutOfMemory>
    ensures { OnOk result (to.new.items ≡ to.old.items ++ field_line name.now T.text field) }
{
    match field {
        None => Ok(()),
        Some(value) => {
            to.extend_from_slice(name.as_bytes())?;
            to.push(b' ')?;
            put_plain(&value, to)?;
            end_line(to)
        }
    }
}

/// The text of a DataValue.
fn text_of(alloc: Global, value: &DataValue) -> Result<Vec<u8>, OutOfMemory>
    ensures { IfOk result (λ text. text.items ≡ value_text value.now) }
{
    let mut text = Vec::new(alloc);
    put_some_variant(&value.value, &mut text)?;
    put_status_field(value.status, &mut text)?;
    put_field("source", value.source_timestamp, &mut text)?;
    put_field("sourcepico", value.source_picoseconds, &mut text)?;
    put_field("server", value.server_timestamp, &mut text)?;
    put_field("serverpico", value.server_picoseconds, &mut text)?;
    Ok(text)
}

/// Bytes that are left over, or are not there, where a value ends.
fn refused(place: usize) -> ShowFault
    ensures { result ≡ faults.Bad place bad_decoding_error }
{
    ShowFault::Bad {
        place: place as u64,
        code: BAD_DECODING_ERROR,
    }
}

/// What a fault of reading is in an input of that length.
fn fault_of(fault: ValueFault, length: usize) -> ShowFault
    ensures { IsFaultOf fault length result }
{
    match fault {
        ValueFault::Short => refused(length),
        ValueFault::Bad { place, code } => ShowFault::Bad {
            place: place as u64,
            code,
        },
        ValueFault::OutOfMemory => ShowFault::OutOfMemory,
    }
}

/// The text of a value that takes so many bytes of an input of that length.
fn text_of_whole(
    alloc: Global,
    value: &DataValue,
    size: usize,
    length: usize,
) -> Result<Vec<u8>, ShowFault>
    ensures { Shows (λ text. text.items) result (shown_of length (Ok (value.now, size))) }
{
    if size != length {
        return Err(refused(size));
    }
    let text = text_of(alloc, value)?;
    Ok(text)
}

/// What `show_value` answers, by the reader and the printer alone.
fn shown(alloc: Global, bytes: &[u8]) -> Result<Vec<u8>, ShowFault>
    ensures { Shows (λ text. text.items) result (shown_value bytes.now) }
{
    match read_data_value(alloc, bytes) {
        Ok((value, size)) => text_of_whole(alloc, &value, size, bytes.len()),
        Err(fault) => Err(fault_of(fault, bytes.len())),
    }
}

/// What `show value` prints of one DataValue (OPC 10000-6, 5.2.2.17) with nothing after it: for each field that is
/// there a line `value TYPE TEXT`, `status XXXXXXXX`, `source N`, `sourcepico N`, `server N` or `serverpico N`, in this
/// order. An array is `value TYPE[n]` and a line for each element. TYPE is the number of the built-in type
/// (OPC 10000-6, 5.1.2). Numbers and times are decimal, status codes hexadecimal, a Guid has its hyphenated form, and
/// of any other value the bytes that are written are shown in hexadecimal behind an `x`.
///
/// Input that ends early is a fault at its length, and bytes left over are one at the first of them.
pub fn show_value(alloc: Global, bytes: &[u8]) -> Result<Vec<u8>, ShowFault>
    ensures exact { Shows (λ text. text.items) result (shown_value bytes.now) }
    ensures spelled { IsShown (λ text. text.items) bytes.now result }
    ensures complete { (d : Stamped Variant) → data_value 101 d bytes.now
        → Shows (λ text. text.items) result (Ok (value_text d)) }
{
    shown(alloc, bytes)
}
