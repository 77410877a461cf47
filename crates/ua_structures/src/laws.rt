//! Laws of the shared structures and of any family, each the contract of a function that does nothing.

ghost use Rattle.std.specs.Prelude.{◌<◌, ◌^◌, ℕ, ℤ, FitsSigned};
ghost use Rattle.std.specs.Int.{w64};
ghost use Rattle.ua_values.specs.declared.node.NodeId.{NodeId};
ghost use Rattle.ua_values.specs.Laws.{IsLawful, KeepsNode};
ghost use Rattle.ua_structures.specs.Body.{IsForeignUnknown};
ghost use Rattle.ua_structures.specs.Structures.{a_request_header, a_response_header, a_read_value_id};
ghost use Rattle.ua_structures.specs.Structures.{request_header, response_header};

use crate::body::Body;

/// A body of a type that no structure of the family has is of an unknown type, whatever stands behind the type.
pub fn foreign_is_unknown<B: Body>()
    ensures { IsForeignUnknown B.family }
{}

/// A RequestHeader.
pub fn request_headers_are_lawful()
    ensures { IsLawful a_request_header.keeps a_request_header.spells a_request_header.at a_request_header.written }
{}

/// A ResponseHeader.
pub fn response_headers_are_lawful()
    ensures { IsLawful a_response_header.keeps a_response_header.spells a_response_header.at a_response_header.written }
{}

/// A header that is made of a token, a time and numbers keeps the rules, where these do: so it is read again as it was written.
pub fn made_headers_keep()
    ensures request { (token : NodeId) (time : ℤ) (number : ℕ) → KeepsNode token → FitsSigned w64 time → number < 2 ^ 32
        → a_request_header.keeps (request_header token time number) }
    ensures response { (time : ℤ) (number code : ℕ) → FitsSigned w64 time → number < 2 ^ 32 → code < 2 ^ 32
        → a_response_header.keeps (response_header time number code) }
{}

/// A ReadValueId.
pub fn read_value_ids_are_lawful()
    ensures { IsLawful a_read_value_id.keeps a_read_value_id.spells a_read_value_id.at a_read_value_id.written }
{}
