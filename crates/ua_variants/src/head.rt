ghost use Rattle.std.specs.Prelude.{◌≡◌};
ghost use Rattle.ua_base.specs.Status.{bad_decoding_error};
ghost use Rattle.ua_values.specs.Readers.{MeansOrNot};
ghost use Rattle.ua_variants.specs.Kinds.{flat_number, kind_number, head_number, kind_of, head_of};

use crate::variant::Flat;

/// A built-in type.
#[derive(Clone, Copy, Debug, PartialEq, Eq)]
pub(crate) enum Kind {
    Flat(Flat),
    DataValue,
    Variant,
    DiagnosticInfo,
}

/// What the first byte of a Variant says.
#[derive(Clone, Copy, Debug, PartialEq, Eq)]
pub(crate) enum Head {
    /// No value follows.
    Null,
    /// One value.
    One(Kind),
    /// An array, and whether dimensions follow.
    Many(Kind, bool),
}

impl Flat {
    /// The type's number (OPC 10000-6, 5.1.2, Table 1).
    pub fn number(self) -> u8
        ensures { result ≡ flat_number self }
    {
        match self {
            Flat::Boolean => 1,
            Flat::SByte => 2,
            Flat::Byte => 3,
            Flat::Int16 => 4,
            Flat::UInt16 => 5,
            Flat::Int32 => 6,
            Flat::UInt32 => 7,
            Flat::Int64 => 8,
            Flat::UInt64 => 9,
            Flat::Float => 10,
            Flat::Double => 11,
            Flat::String => 12,
            Flat::DateTime => 13,
            Flat::Guid => 14,
            Flat::ByteString => 15,
            Flat::XmlElement => 16,
            Flat::NodeId => 17,
            Flat::ExpandedNodeId => 18,
            Flat::StatusCode => 19,
            Flat::QualifiedName => 20,
            Flat::LocalizedText => 21,
            Flat::ExtensionObject => 22,
        }
    }
}

impl Kind {
    /// The type's number.
    pub(crate) fn number(self) -> u8
        ensures { result ≡ kind_number self }
    {
        match self {
            Kind::Flat(flat) => flat.number(),
            Kind::DataValue => 23,
            Kind::Variant => 24,
            Kind::DiagnosticInfo => 25,
        }
    }

    /// The type of that number, where it has one.
    pub(crate) fn of(number: u8) -> Option<Kind>
        ensures { MeansOrNot result (kind_of number) bad_decoding_error }
    {
        Some(match number {
            1 => Kind::Flat(Flat::Boolean),
            2 => Kind::Flat(Flat::SByte),
            3 => Kind::Flat(Flat::Byte),
            4 => Kind::Flat(Flat::Int16),
            5 => Kind::Flat(Flat::UInt16),
            6 => Kind::Flat(Flat::Int32),
            7 => Kind::Flat(Flat::UInt32),
            8 => Kind::Flat(Flat::Int64),
            9 => Kind::Flat(Flat::UInt64),
            10 => Kind::Flat(Flat::Float),
            11 => Kind::Flat(Flat::Double),
            12 => Kind::Flat(Flat::String),
            13 => Kind::Flat(Flat::DateTime),
            14 => Kind::Flat(Flat::Guid),
            15 => Kind::Flat(Flat::ByteString),
            16 => Kind::Flat(Flat::XmlElement),
            17 => Kind::Flat(Flat::NodeId),
            18 => Kind::Flat(Flat::ExpandedNodeId),
            19 => Kind::Flat(Flat::StatusCode),
            20 => Kind::Flat(Flat::QualifiedName),
            21 => Kind::Flat(Flat::LocalizedText),
            22 => Kind::Flat(Flat::ExtensionObject),
            23 => Kind::DataValue,
            24 => Kind::Variant,
            25 => Kind::DiagnosticInfo,
            _ => return None,
        })
    }
}

impl Head {
    /// The byte that says this.
    pub(crate) fn number(self) -> u8
        ensures { result ≡ head_number self }
    {
        match self {
            Head::Null => 0,
            Head::One(kind) => kind.number(),
            Head::Many(kind, false) => 128 + kind.number(),
            Head::Many(kind, true) => 192 + kind.number(),
        }
    }

    /// What the byte says, where it says something.
    pub(crate) fn of(byte: u8) -> Option<Head>
        ensures { MeansOrNot result (head_of byte) bad_decoding_error }
    {
        if byte == 0 {
            return Some(Head::Null);
        }
        let kind = Kind::of(byte & 63)?;
        match byte >> 6 {
            0 => Some(Head::One(kind)),
            2 => Some(Head::Many(kind, false)),
            3 => Some(Head::Many(kind, true)),
            _ => None,
        }
    }
}
