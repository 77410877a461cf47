ghost use Rattle.std.specs.Prelude.{◌≡◌};
ghost use Rattle.ua_values.specs.Reading.{Gives, Moves, input};
ghost use Rattle.ua_chunks.specs.Bodies.{IsInFront, IsLeftOf, IsOpn, opn_head_at, opn_of, policy, policy_at};
ghost use Rattle.ua_chunks.specs.Bodies.{value_of};

use crate::body::Body;
use std::alloc::Global;
use ua_values::{Cursor, UaBytes, UaText, ValueFault};

/// An OPN, which opens or renews a secure channel (OPC 10000-6, 6.7.2.3), without its certificates.
#[derive(Debug, Drop)]
pub struct OpnChunk {
    /// The channel's id: 0 where there is none yet.
    pub channel: u32,
    /// The URI of the security policy.
    pub policy: UaText,
    /// The sequence number.
    pub number: u32,
    /// The id of the request that it is, or that it answers.
    pub request: u32,
    pub body: Body,
}

/// What stands in front of an OPN's own body.
#[derive(Debug, Drop)]
pub(crate) struct OpnHead {
    pub channel: u32,
    pub policy: UaText,
    pub certificate: UaBytes,
    pub thumbprint: UaBytes,
    pub number: u32,
    pub request: u32,
}

fn take_opn_head(from: &mut Cursor<'_>, alloc: Global) -> Result<OpnHead, ValueFault>
    ensures { Moves (λ h. h) result from.new (opn_head_at from.old) }
{
    let channel = from.uint32()?;
    let policy = from.text(alloc)?;
    let certificate = from.byte_string(alloc)?;
    let thumbprint = from.byte_string(alloc)?;
    let number = from.uint32()?;
    let request = from.uint32()?;
    Ok(OpnHead {
        channel,
        policy,
        certificate,
        thumbprint,
        number,
        request,
    })
}

fn take_policy(from: &mut Cursor<'_>, alloc: Global) -> Result<UaText, ValueFault>
    ensures { Moves (λ p. p) result from.new (policy_at from.old) }
{
    from.uint32()?;
    let policy = from.text(alloc)?;
    Ok(policy)
}

/// What is left of the bytes that were read from.
fn rest<'a>(from: &Cursor<'_>, bytes: &'a [u8]) -> &'a [u8]
    requires { IsLeftOf bytes.now from.now }
    ensures { result.now ≡ from.now.rest }
{
    bytes.split_at(from.place()).1
}

fn front_policy(alloc: Global, body: &[u8]) -> Result<UaText, ValueFault>
    ensures { Gives result (value_of (policy_at (input 0 body.now))) }
{
    let mut from = Cursor::new(body);
    let policy = take_policy(&mut from, alloc)?;
    Ok(policy)
}

fn whole_opn(alloc: Global, body: &[u8]) -> Result<OpnChunk, ValueFault>
    ensures { Gives result (opn_of (opn_head_at (input 0 body.now))) }
{
    let mut from = Cursor::new(body);
    let head = take_opn_head(&mut from, alloc)?;
    let own = Vec::from_slice(alloc, rest(&from, body))?;
    Ok(OpnChunk {
        channel: head.channel,
        policy: head.policy,
        number: head.number,
        request: head.request,
        body: Body::new(own),
    })
}

/// Reads the body of an OPN frame up to the URI of its security policy, and looks at nothing behind it.
///
/// # Errors
///
/// `Short` where the body ends before the policy's end; `Bad` at the field that breaks a rule.
pub fn read_policy(alloc: Global, body: &[u8]) -> Result<UaText, ValueFault>
    ensures exact { Gives result (value_of (policy_at (input 0 body.now))) }
    ensures spelled { IsInFront policy body.now result }
{
    front_policy(alloc, body)
}

/// Reads the whole body of an OPN frame.
///
/// # Errors
///
/// `Short` where the body ends early; `Bad` at the field that breaks a rule.
pub fn read_opn(alloc: Global, body: &[u8]) -> Result<OpnChunk, ValueFault>
    ensures exact { Gives result (opn_of (opn_head_at (input 0 body.now))) }
    ensures spelled { IsOpn body.now result }
{
    whole_opn(alloc, body)
}
