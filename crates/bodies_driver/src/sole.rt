//! A family of one structure: whatever holds for any family is tried on it.

use std::alloc::Global;
use ua_base::OutOfMemory;
use ua_structures::{Body, ReadValueId};
use ua_values::{Cursor, Element, ValueFault};

/// The number of the type of a ReadValueId.
const NUMBER: u32 = 628;

/// Which structure of the family it is.
#[derive(Clone, Copy, Debug, PartialEq, Eq)]
pub(crate) struct Only;

/// A ReadValueId as a body.
#[derive(Debug, Drop)]
pub(crate) struct Sole {
    value: ReadValueId,
}

impl Body for Sole {
    ghost use Rattle.std.specs.Prelude.{◌^◌, [], ◌∷◌, refl};
    ghost use Rattle.std.proofs.lemmas.Bool.{ltb-true};
    ghost use Rattle.ua_structures.specs.Body.{Family, case};
    ghost use Rattle.ua_structures.specs.Structures.{a_read_value_id};

    type Service = Only;

    ghost family = { record {
      all = record {} ∷ [];
      id = λ k. 628;
      cases = λ k. case a_read_value_id (λ v. record { value = v });
      known = λ k. refl;
      small = λ k. ltb-true 628 (2 ^ 32) refl;
    } };

    ghost number = { λ r. 628 };

    ghost text = { λ r. a_read_value_id.written r.value };

    fn service(id: u32) -> Option<Only> {
        if id == NUMBER { Some(Only) } else { None }
    }

    fn read_structure(
        alloc: Global,
        which: Only,
        from: &mut Cursor<'_>,
    ) -> Result<Sole, ValueFault> {
        let value = Element::read(alloc, from)?;
        Ok(Sole { value })
    }

    fn number(&self) -> u32 {
        NUMBER
    }

    fn put_structure(&self, to: &mut Vec<u8>) -> Result<(), OutOfMemory> {
        self.value.put(to)
    }
}
