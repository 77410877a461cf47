//! One value at the front of bytes, and values as elements of arrays.

ghost use Rattle.std.specs.Prelude.{◌≡◌, ◌++◌, OnOk, OnErr};
ghost use Rattle.byteorder.specs.Endian.{little_bytes};
ghost use Rattle.ua_values.specs.Reading.{input, Gives, sized};
ghost use Rattle.ua_values.specs.Answer.{IsReadOr};
ghost use Rattle.ua_variants.specs.Grammar.{diagnostic_info, diagnostic_cut, variant_spells, variant_cut, data_value, data_value_cut};
ghost use Rattle.ua_variants.specs.Reader.{diagnostic_at, variant_at, data_value_at};
ghost use Rattle.ua_variants.specs.Spelling.{written_variant, written_data_value};

use crate::diagnostic::diagnostic;
use crate::nested::{data_value, variant};
use crate::variant::{DataValue, DiagnosticInfo, MOST_DEPTH, Variant};
use crate::writing::{put_data_value, put_variant};
use std::alloc::Global;
use ua_base::OutOfMemory;
use ua_values::{Cursor, Element, ValueFault, append, write_byte};

/// Reads a Variant (OPC 10000-6, 5.2.2.16) at the front of the bytes: the value, and how many bytes it takes.
pub fn read_variant(alloc: Global, bytes: &[u8]) -> Result<(Variant, usize), ValueFault>
    ensures exact { Gives result (sized (variant_at 101 (input 0 bytes.now))) }
    ensures spelled { IsReadOr (variant_spells 101) (variant_cut 101) bytes.now result }
{
    let mut from = Cursor::new(bytes);
    let value = variant(alloc, MOST_DEPTH, &mut from);
    from.sized(value)
}

/// Reads a DataValue (OPC 10000-6, 5.2.2.17) at the front of the bytes: the value, and how many bytes it takes.
pub fn read_data_value(alloc: Global, bytes: &[u8]) -> Result<(DataValue, usize), ValueFault>
    ensures exact { Gives result (sized (data_value_at 101 (input 0 bytes.now))) }
    ensures spelled { IsReadOr (data_value 101) (data_value_cut 101) bytes.now result }
{
    let mut from = Cursor::new(bytes);
    let value = data_value(alloc, MOST_DEPTH, &mut from);
    from.sized(value)
}

/// Reads a DiagnosticInfo (OPC 10000-6, 5.2.2.12) at the front of the bytes, of which nothing is kept: how many bytes
/// it takes.
pub fn read_diagnostic_info(
    alloc: Global,
    bytes: &[u8],
) -> Result<(DiagnosticInfo, usize), ValueFault>
    ensures exact { Gives result (sized (diagnostic_at 101 (input 0 bytes.now))) }
    ensures spelled { IsReadOr (diagnostic_info 101) (diagnostic_cut 101) bytes.now result }
{
    let mut from = Cursor::new(bytes);
    let value = diagnostic(alloc, MOST_DEPTH, &mut from);
    from.sized(value)
}

/// Appends a Variant (OPC 10000-6, 5.2.2.16).
pub fn write_variant(value: &Variant, to: &mut Vec<u8>) -> Result<(), OutOfMemory>
    ensures ok { OnOk result (to.new.items ≡ to.old.items ++ written_variant value.now) }
    ensures unchanged { OnErr result (to.new.items ≡ to.old.items) }
{
    let mut built = Vec::new(*to.allocator());
    put_variant(value, &mut built)?;
    append(&built, to)
}

/// Appends a DataValue (OPC 10000-6, 5.2.2.17).
pub fn write_data_value(value: &DataValue, to: &mut Vec<u8>) -> Result<(), OutOfMemory>
    ensures ok { OnOk result (to.new.items ≡ to.old.items ++ written_data_value value.now) }
    ensures unchanged { OnErr result (to.new.items ≡ to.old.items) }
{
    let mut built = Vec::new(*to.allocator());
    put_data_value(value, &mut built)?;
    append(&built, to)
}

/// Appends a DiagnosticInfo that says nothing.
pub fn write_diagnostic_info(to: &mut Vec<u8>) -> Result<(), OutOfMemory>
    ensures ok { OnOk result (to.new.items ≡ to.old.items ++ little_bytes 1 0) }
    ensures unchanged { OnErr result (to.new.items ≡ to.old.items) }
{
    write_byte(0, to)
}

impl Element for Variant {
    ghost at = { variant_at 101 };

    ghost written = { written_variant };

    fn read(alloc: Global, from: &mut Cursor<'_>) -> Result<Variant, ValueFault> {
        variant(alloc, MOST_DEPTH, from)
    }

    fn put(&self, to: &mut Vec<u8>) -> Result<(), OutOfMemory> {
        put_variant(self, to)
    }
}

impl Element for DataValue {
    ghost at = { data_value_at 101 };

    ghost written = { written_data_value };

    fn read(alloc: Global, from: &mut Cursor<'_>) -> Result<DataValue, ValueFault> {
        data_value(alloc, MOST_DEPTH, from)
    }

    fn put(&self, to: &mut Vec<u8>) -> Result<(), OutOfMemory> {
        put_data_value(self, to)
    }
}

impl Element for DiagnosticInfo {
    ghost at = { diagnostic_at 101 };

    ghost written = { λ nothing. little_bytes 1 0 };

    fn read(alloc: Global, from: &mut Cursor<'_>) -> Result<DiagnosticInfo, ValueFault> {
        diagnostic(alloc, MOST_DEPTH, from)
    }

    fn put(&self, to: &mut Vec<u8>) -> Result<(), OutOfMemory> {
        write_byte(0, to)
    }
}
