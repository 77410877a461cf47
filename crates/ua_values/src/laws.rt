//! Laws of the grammar, the readers and the written spellings, each the contract of a function that does nothing.
//!
//! Each law says three things of a type. No spelling is the front of another, and bytes spell one value at most.
//! The written spelling is a spelling, and what was written is read again, whatever follows it: both of the values that
//! keep the limits, which the law's first argument says (a text or a ByteString has at most 1,048,576 bytes, an array
//! at most 65,536 elements). Of a value that breaks a limit a law says nothing.

ghost use Rattle.std.specs.Prelude.{◌<◌, ◌^◌, ℕ, FitsSigned};
ghost use Rattle.std.specs.Int.{w8, w16, w32, w64};
ghost use Rattle.byteorder.specs.Endian.{little_bytes};
ghost use Rattle.ua_values.specs.Parts.{number, text, array};
ghost use Rattle.ua_values.specs.Reading.{number_at};
ghost use Rattle.ua_values.specs.Readers.{boolean_at, signed_at, guid_at, text_at, node_at, expanded_at, qualified_at, localized_at, extension_at, array_at};
ghost use Rattle.ua_values.specs.Types.{boolean, signed, guid, node_id, expanded_node_id, qualified_name, localized_text, extension_object};
ghost use Rattle.ua_values.specs.Written.{written_boolean, written_signed, written_guid, written_text, written_node, written_expanded, written_qualified, written_localized, written_extension, written_array};
ghost use Rattle.ua_values.specs.Laws.{KeepsText, KeepsGuid, KeepsNode, KeepsExpanded, KeepsQualified, KeepsLocalized, KeepsExtension, KeepsArray, IsLawful};

/// Numbers of any width: Byte, UInt16, UInt32, UInt64, Float, Double and StatusCode.
pub fn numbers_are_lawful()
    ensures { (w : ℕ) → 0 < w → IsLawful (λ n. n < 256 ^ w) (number w) (number_at w) (little_bytes w) }
{}

/// A String, an XmlElement or a ByteString: what is written is read again where it has at most 1,048,576 bytes.
pub fn texts_are_lawful()
    ensures { IsLawful KeepsText text text_at written_text }
{}

/// An array of Strings: as every array, it is lawful since its elements are. What is written is read again where it has
/// at most 65,536 elements, each of which keeps its own limit.
pub fn text_arrays_are_lawful()
    ensures { IsLawful (KeepsArray KeepsText) (array text) (array_at text_at) (written_array written_text) }
{}

/// A Boolean.
pub fn booleans_are_lawful()
    ensures { IsLawful (λ b. Unit {0}) boolean boolean_at written_boolean }
{}

/// A Guid.
pub fn guids_are_lawful()
    ensures { IsLawful KeepsGuid guid guid_at written_guid }
{}

/// A NodeId, where its text or its bytes keep the limit.
pub fn node_ids_are_lawful()
    ensures { IsLawful KeepsNode node_id node_at written_node }
{}

/// An ExpandedNodeId, where its texts and its bytes keep the limit.
pub fn expanded_node_ids_are_lawful()
    ensures { IsLawful KeepsExpanded expanded_node_id expanded_at written_expanded }
{}

/// A QualifiedName, where its name keeps the limit.
pub fn qualified_names_are_lawful()
    ensures { IsLawful KeepsQualified qualified_name qualified_at written_qualified }
{}

/// A LocalizedText, where both its texts keep the limit.
pub fn localized_texts_are_lawful()
    ensures { IsLawful KeepsLocalized localized_text localized_at written_localized }
{}

/// An ExtensionObject, where its type and its body keep the limit.
pub fn extension_objects_are_lawful()
    ensures { IsLawful KeepsExtension extension_object extension_at written_extension }
{}

/// SByte, Int16, Int32, Int64 and DateTime.
pub fn signed_numbers_are_lawful()
    ensures sbyte { IsLawful (FitsSigned w8) (signed 1 w8) (signed_at 1 w8) (written_signed 1 w8) }
    ensures int16 { IsLawful (FitsSigned w16) (signed 2 w16) (signed_at 2 w16) (written_signed 2 w16) }
    ensures int32 { IsLawful (FitsSigned w32) (signed 4 w32) (signed_at 4 w32) (written_signed 4 w32) }
    ensures int64 { IsLawful (FitsSigned w64) (signed 8 w64) (signed_at 8 w64) (written_signed 8 w64) }
{}
