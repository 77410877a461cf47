//! A structure's fields, read and written one after the other.

ghost use Rattle.std.specs.Prelude.{◌≡◌, ◌++◌, List, ℕ, OnOk};
ghost use Rattle.ua_values.specs.Reading.{Reader, Moves};

use std::alloc::Global;
use std::marker::Model;
use ua_base::OutOfMemory;
use ua_values::{Cursor, Element, ValueFault};

/// Values that are appended one after the other: a reference to one, or a pair of such.
pub trait Fields: Sized + Drop {
    ghost written: { Self → List ℕ };

    /// Appends them. Want of memory leaves what was appended by then.
    fn put(self, to: &mut Vec<u8>) -> Result<(), OutOfMemory>
        ensures { OnOk result (to.new.items ≡ to.old.items ++ written self) };
}

impl<'a, T: Element> Fields for &'a T {
    ghost written = { λ value. T.written value.now };

    fn put(self, to: &mut Vec<u8>) -> Result<(), OutOfMemory> {
        Element::put(self, to)
    }
}

impl<A: Fields, B: Fields> Fields for (A, B) {
    ghost written = { λ pair. A.written pair.0 ++ B.written pair.1 };

    fn put(self, to: &mut Vec<u8>) -> Result<(), OutOfMemory> {
        let (first, second) = self;
        first.put(to)?;
        second.put(to)
    }
}

/// Values that are read one after the other: a pair of one and of more such, or the last of them.
pub trait Parts: Sized + Drop {
    ghost at: { Reader Self };

    /// Reads them.
    fn read_parts(alloc: Global, from: &mut Cursor<'_>) -> Result<Self, ValueFault>
        ensures { Moves (λ parts. parts) result from.new (at from.old) };
}

/// The last of the values that are read one after the other.
#[derive(Debug, Drop)]
pub struct Last<T> {
    value: T,
}

impl<T> Model for Last<T> {
    ghost Value = { T };

    ghost view = { λ last. last.value };
}

impl<T> Last<T> {
    /// The value itself.
    pub fn take(self) -> T
        ensures { result ≡ self }
    {
        self.value
    }
}

impl<T: Element> Parts for Last<T> {
    ghost at = { T.at };

    fn read_parts(alloc: Global, from: &mut Cursor<'_>) -> Result<Last<T>, ValueFault> {
        let value = T::read(alloc, from)?;
        Ok(Last { value })
    }
}

impl<A: Element, B: Parts> Parts for (A, B) {
    ghost use Rattle.ua_structures.specs.Form.{pair_at};

    ghost at = { pair_at A.at B.at };

    fn read_parts(alloc: Global, from: &mut Cursor<'_>) -> Result<(A, B), ValueFault> {
        let first = A::read(alloc, from)?;
        let rest = B::read_parts(alloc, from)?;
        Ok((first, rest))
    }
}

/// Reads the fields of a structure in their order, and makes it. A `?` would call functions at the whole type of the structure.
#[macro_export]
macro_rules! read_fields {
    ($alloc:expr, $from:expr => $($field:ident),+) => {
        match $crate::Parts::read_parts($alloc, $from) {
            Ok(parts) => {
                $crate::take_apart!(parts, $($field),+);
                Ok(Self { $($field),+ })
            }
            Err(fault) => Err(fault),
        }
    };
}

/// Gives each of the values that were read together a name of its own.
#[macro_export]
macro_rules! take_apart {
    ($parts:expr, $field:ident) => { let $field = $crate::Last::take($parts); };
    ($parts:expr, $field:ident, $($more:ident),+) => {
        let ($field, rest) = $parts;
        $crate::take_apart!(rest, $($more),+);
    };
}

/// Reads a structure, as a variant of an enum of structures. A `?` would call functions at the whole type of the enum.
#[macro_export]
macro_rules! read_as {
    ($variant:path, $alloc:expr, $from:expr) => {
        match ua_values::Element::read($alloc, $from) {
            Ok(structure) => Ok($variant(structure)),
            Err(fault) => Err(fault),
        }
    };
}

/// Appends the fields of a structure in their order.
#[macro_export]
macro_rules! put_fields {
    ($value:expr, $to:expr => $($field:ident),+) => {
        $crate::Fields::put($crate::fields_of!($value, $($field),+), $to)
    };
}

/// References to the fields of a structure in their order, as nested pairs.
#[macro_export]
macro_rules! fields_of {
    ($value:expr, $field:ident) => { &$value.$field };
    ($value:expr, $field:ident, $($more:ident),+) => {
        (&$value.$field, $crate::fields_of!($value, $($more),+))
    };
}

pub(crate) use put_fields;
pub(crate) use read_fields;
