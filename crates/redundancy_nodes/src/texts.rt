//! The arrays of texts that nodes of the standard's namespace have.

ghost use Rattle.std.specs.Prelude.{◌≡◌, IfOk, Some, OnOk};
ghost use Rattle.std.specs.Prelude.{codes};
ghost use Rattle.redundancy_nodes.specs.Texts.{namespaces_of, servers_of, uris_of};

use crate::member::Member;
use std::alloc::Global;
use ua_base::OutOfMemory;
use ua_values::UaText;

/// The text of a word.
fn text_of(alloc: Global, word: &str) -> Result<UaText, OutOfMemory>
    ensures { IfOk result (λ text. text ≡ Some word.now) }
{
    let bytes = Vec::from_slice(alloc, word.as_bytes())?;
    Ok(UaText::new(bytes))
}

/// The servers that a server stands for: itself alone.
pub(crate) fn servers(alloc: Global, uri: &UaText) -> Result<Vec<UaText>, OutOfMemory>
    ensures { IfOk result (λ texts. texts.items ≡ servers_of uri.now) }
{
    let mut texts = Vec::new(alloc);
    texts.push(uri.copy(alloc)?)?;
    Ok(texts)
}

/// The namespaces of a server, by their indices.
pub(crate) fn namespaces(alloc: Global, uri: &UaText) -> Result<Vec<UaText>, OutOfMemory>
    ensures { IfOk result (λ texts. texts.items ≡ namespaces_of uri.now) }
{
    let mut texts = Vec::new(alloc);
    texts.push(text_of(alloc, "http://opcfoundation.org/UA/")?)?;
    texts.push(uri.copy(alloc)?)?;
    texts.push(text_of(alloc, "urn:uaset:plant")?)?;
    Ok(texts)
}

/// The uris of members, in order.
pub(crate) fn uris(alloc: Global, members: &[Member]) -> Result<Vec<UaText>, OutOfMemory>
    ensures { IfOk result (λ texts. texts.items ≡ uris_of members.now) }
{
    let mut texts = Vec::new(alloc);
    for member in members {
        texts.push(member.uri.copy(alloc)?)?;
    }
    Ok(texts)
}
