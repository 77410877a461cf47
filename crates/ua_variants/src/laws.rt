//! Laws of the grammar, the readers and the written spellings, each the contract of a function that does nothing.
//!
//! That the written spelling is a spelling, and that what was written is read again, holds of the values that keep the
//! limits, which a law's first argument says: at most 1,048,576 bytes in a text, 65,536 elements in an array, 16
//! dimensions whose product is the number of elements, and 100 values inside each other below the outermost. Of a value
//! that breaks a limit a law says nothing.

ghost use Rattle.byteorder.specs.Endian.{little_bytes};
ghost use Rattle.ua_values.specs.Laws.{IsLawful};
ghost use Rattle.ua_variants.specs.Grammar.{diagnostic_info, variant_spells, data_value};
ghost use Rattle.ua_variants.specs.Reader.{diagnostic_at, variant_at, data_value_at};
ghost use Rattle.ua_variants.specs.Spelling.{written_variant, written_data_value};
ghost use Rattle.ua_variants.specs.Keeps.{KeepsVariant, KeepsDataValue};

/// A Variant of any type, which may hold others, where all of it keeps the limits.
pub fn variants_are_lawful()
    ensures { IsLawful (KeepsVariant 101) (variant_spells 101) (variant_at 101) written_variant }
{}

/// A DataValue, where its value keeps the limits.
pub fn data_values_are_lawful()
    ensures { IsLawful (KeepsDataValue 101) (data_value 101) (data_value_at 101) written_data_value }
{}

/// A DiagnosticInfo, of which nothing is kept.
pub fn diagnostic_infos_are_lawful()
    ensures { IsLawful (λ d. Unit {0}) (diagnostic_info 101) (diagnostic_at 101) (λ d. little_bytes 1 0) }
{}
