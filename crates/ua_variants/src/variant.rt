ghost use Rattle.std.specs.Prelude.{◌≡◌};
ghost use Rattle.ua_variants.specs.Grammar.{count_of_array, with_stamps};

use sqlite_items::{Boxed, Items};
use ua_values::{
    ExpandedNodeId, ExtensionObject, LocalizedText, NodeId, QualifiedName, UaBytes, UaText,
};
use uuid::Uuid;

/// How many Variants and DataValues, or how many DiagnosticInfos, may stand inside each other.
pub const MOST_DEPTH: u8 = 101;

/// What a server tells of its own errors (OPC 10000-6, 5.2.2.12). Nothing of it is kept.
#[derive(Clone, Copy, Debug, PartialEq, Eq)]
pub struct DiagnosticInfo;

/// A built-in type whose values hold no others (OPC 10000-6, 5.1.2). Its number is its place in this list, from 1 on.
#[derive(Clone, Copy, Debug, PartialEq, Eq)]
pub enum Flat {
    Boolean,
    SByte,
    Byte,
    Int16,
    UInt16,
    Int32,
    UInt32,
    Int64,
    UInt64,
    Float,
    Double,
    String,
    DateTime,
    Guid,
    ByteString,
    XmlElement,
    NodeId,
    ExpandedNodeId,
    StatusCode,
    QualifiedName,
    LocalizedText,
    ExtensionObject,
}

/// One value of a built-in type whose values hold no others.
#[derive(Debug, Drop)]
pub enum Scalar {
    Boolean(bool),
    SByte(i8),
    Byte(u8),
    Int16(i16),
    UInt16(u16),
    Int32(i32),
    UInt32(u32),
    Int64(i64),
    UInt64(u64),
    /// The bits of a Float.
    Float(u32),
    /// The bits of a Double.
    Double(u64),
    String(UaText),
    /// 100 nanoseconds since 1601-01-01 UTC.
    DateTime(i64),
    Guid(Uuid),
    ByteString(UaBytes),
    XmlElement(UaText),
    NodeId(NodeId),
    ExpandedNodeId(ExpandedNodeId),
    StatusCode(u32),
    QualifiedName(QualifiedName),
    LocalizedText(LocalizedText),
    ExtensionObject(ExtensionObject),
}

/// Values of one built-in type whose values hold no others.
#[derive(Debug, Drop)]
pub enum Array {
    Boolean(Items<bool>),
    SByte(Items<i8>),
    Byte(Items<u8>),
    Int16(Items<i16>),
    UInt16(Items<u16>),
    Int32(Items<i32>),
    UInt32(Items<u32>),
    Int64(Items<i64>),
    UInt64(Items<u64>),
    /// The bits of Floats.
    Float(Items<u32>),
    /// The bits of Doubles.
    Double(Items<u64>),
    String(Items<UaText>),
    /// 100 nanoseconds since 1601-01-01 UTC.
    DateTime(Items<i64>),
    Guid(Items<Uuid>),
    ByteString(Items<UaBytes>),
    XmlElement(Items<UaText>),
    NodeId(Items<NodeId>),
    ExpandedNodeId(Items<ExpandedNodeId>),
    StatusCode(Items<u32>),
    QualifiedName(Items<QualifiedName>),
    LocalizedText(Items<LocalizedText>),
    ExtensionObject(Items<ExtensionObject>),
}

impl Array {
    /// How many elements there are.
    pub fn len(&self) -> usize
        ensures { result ≡ count_of_array self.now }
    {
        match self {
            Array::Boolean(items) => items.len(),
            Array::SByte(items) => items.len(),
            Array::Byte(items) => items.len(),
            Array::Int16(items) => items.len(),
            Array::UInt16(items) => items.len(),
            Array::Int32(items) => items.len(),
            Array::UInt32(items) => items.len(),
            Array::Int64(items) => items.len(),
            Array::UInt64(items) => items.len(),
            Array::Float(items) => items.len(),
            Array::Double(items) => items.len(),
            Array::String(items) => items.len(),
            Array::DateTime(items) => items.len(),
            Array::Guid(items) => items.len(),
            Array::ByteString(items) => items.len(),
            Array::XmlElement(items) => items.len(),
            Array::NodeId(items) => items.len(),
            Array::ExpandedNodeId(items) => items.len(),
            Array::StatusCode(items) => items.len(),
            Array::QualifiedName(items) => items.len(),
            Array::LocalizedText(items) => items.len(),
            Array::ExtensionObject(items) => items.len(),
        }
    }
}

/// A value with its status and its times (OPC 10000-4, 7.7; OPC 10000-6, 5.2.2.17), each of which may be missing.
/// What it holds is a [`Variant`]: see [`DataValue`].
#[derive(Debug, Drop)]
pub struct Stamped<V> {
    pub value: Option<V>,
    pub status: Option<u32>,
    /// 100 nanoseconds since 1601-01-01 UTC, of the source.
    pub source_timestamp: Option<i64>,
    pub source_picoseconds: Option<u16>,
    /// 100 nanoseconds since 1601-01-01 UTC, of the server.
    pub server_timestamp: Option<i64>,
    pub server_picoseconds: Option<u16>,
}

/// A DataValue's fields after its value.
#[derive(Clone, Copy, Debug)]
pub(crate) struct Stamps {
    pub status: Option<u32>,
    pub source_timestamp: Option<i64>,
    pub source_picoseconds: Option<u16>,
    pub server_timestamp: Option<i64>,
    pub server_picoseconds: Option<u16>,
}

impl Stamps {
    /// The DataValue of a value and these fields.
    pub(crate) fn with(self, value: Option<Variant>) -> DataValue
        ensures { result ≡ with_stamps value self }
    {
        DataValue {
            value,
            status: self.status,
            source_timestamp: self.source_timestamp,
            source_picoseconds: self.source_picoseconds,
            server_timestamp: self.server_timestamp,
            server_picoseconds: self.server_picoseconds,
        }
    }
}

/// A Variant with its status and its times.
pub type DataValue = Stamped<Variant>;

/// A value of any built-in type, or an array of such values (OPC 10000-6, 5.2.2.16).
#[derive(Debug, Drop)]
pub enum Variant {
    /// No value.
    Null,
    /// A value that holds no others.
    Scalar(Scalar),
    DataValue(Boxed<DataValue>),
    Variant(Boxed<Variant>),
    DiagnosticInfo,
    /// Values that hold no others. Here as below the sizes of the dimensions may follow; their product is the number of
    /// elements.
    Array(Array, Option<Items<u32>>),
    DataValues(Items<DataValue>, Option<Items<u32>>),
    Variants(Items<Variant>, Option<Items<u32>>),
    /// So many DiagnosticInfos.
    DiagnosticInfos(usize, Option<Items<u32>>),
}
