//! Who a session's user is.

ghost use Rattle.std.specs.Prelude.{◌≡◌, IfOk};
ghost use Rattle.ua_structures.specs.Body.{service, object_at, object_by, Answers, IsContentRead};
ghost use Rattle.ua_session_msgs.specs.Numbers.{token_id};
ghost use Rattle.ua_session_msgs.specs.Families.{token_put, identity_tokens};

use std::alloc::Global;
use ua_base::OutOfMemory;
use ua_structures::{Body, BodyFault, put_fields, read_content, read_fields, write_content};
use ua_values::{Cursor, Element, ExtensionObject, UaText, ValueFault};

/// The identity of who tells none; it stands in an ExtensionObject (OPC 10000-4, 7.36.3).
#[derive(Debug, Drop)]
pub struct AnonymousIdentityToken {
    pub policy_id: UaText,
}

#[tactic(auto, unfolding(crate::specs::Structures::an_anonymous_identity_token))]
impl Element for AnonymousIdentityToken {
    ghost use Rattle.ua_session_msgs.specs.Structures.{an_anonymous_identity_token};

    ghost at = { an_anonymous_identity_token.at };

    ghost written = { an_anonymous_identity_token.written };

    fn read(alloc: Global, from: &mut Cursor<'_>) -> Result<AnonymousIdentityToken, ValueFault> {
        read_fields!(alloc, from => policy_id)
    }

    fn put(&self, to: &mut Vec<u8>) -> Result<(), OutOfMemory> {
        put_fields!(self, to => policy_id)
    }
}

/// Which of these identities an object holds.
#[derive(Clone, Copy, Debug, PartialEq, Eq)]
pub enum IdentityTokenType {
    Anonymous,
}

impl IdentityTokenType {
    /// All of them.
    pub const ALL: [IdentityTokenType; 1] = [IdentityTokenType::Anonymous];

    /// The number of its NodeId in the namespace 0, which says that it is encoded in binary (OPC 10000-6, annex A.3).
    pub fn id(self) -> u32
        ensures { result ≡ token_id self }
    {
        match self {
            IdentityTokenType::Anonymous => 321,
        }
    }

    /// The one that has this number.
    pub fn of(id: u32) -> Option<IdentityTokenType>
        ensures { result ≡ service identity_tokens id }
    {
        IdentityTokenType::ALL
            .iter()
            .copied()
            .find(|one| one.id() == id)
    }
}

/// A user's identity, which stands in an ExtensionObject (OPC 10000-4, 7.36).
#[derive(Debug, Drop)]
pub enum IdentityToken {
    Anonymous(AnonymousIdentityToken),
}

impl IdentityToken {
    /// Which one it is.
    pub fn kind(&self) -> IdentityTokenType
        ensures { result ≡ (token_put self.now).kind }
    {
        match self {
            IdentityToken::Anonymous(_) => IdentityTokenType::Anonymous,
        }
    }
}

impl Body for IdentityToken {
    ghost use Rattle.ua_structures.specs.Body.{number_by};
    ghost use Rattle.ua_session_msgs.specs.Families.{identity_tokens, token_put};

    type Service = IdentityTokenType;

    ghost family = { identity_tokens };

    ghost number = { number_by identity_tokens token_put };

    ghost text = { λ value. (token_put value).text };

    fn service(id: u32) -> Option<IdentityTokenType> {
        IdentityTokenType::of(id)
    }

    fn read_structure(
        alloc: Global,
        which: IdentityTokenType,
        from: &mut Cursor<'_>,
    ) -> Result<IdentityToken, ValueFault> {
        Ok(match which {
            IdentityTokenType::Anonymous => IdentityToken::Anonymous(Element::read(alloc, from)?),
        })
    }

    fn number(&self) -> u32 {
        self.kind().id()
    }

    fn put_structure(&self, to: &mut Vec<u8>) -> Result<(), OutOfMemory> {
        match self {
            IdentityToken::Anonymous(identity) => identity.put(to),
        }
    }
}

/// Reads the identity that an ExtensionObject holds.
///
/// # Errors
///
/// `Unknown` where its type is none of these; `Bad` where it holds no bytes, or where these aren't just such a structure. Places are
/// counted in the object's bytes.
pub fn read_identity(alloc: Global, object: &ExtensionObject) -> Result<IdentityToken, BodyFault>
    ensures exact { Answers result (object_at identity_tokens object.now) }
    ensures held { IsContentRead identity_tokens object.now result }
{
    read_content(alloc, object)
}

/// The ExtensionObject that holds this identity.
pub fn write_identity(
    alloc: Global,
    identity: &IdentityToken,
) -> Result<ExtensionObject, OutOfMemory>
    ensures { IfOk result (λ x. x ≡ object_by identity_tokens token_put identity.now) }
{
    write_content(alloc, identity)
}
