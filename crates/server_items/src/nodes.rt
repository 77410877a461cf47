//! The nodes of a server as they are at one moment.

ghost use Rattle.std.specs.Prelude.{◌≡◌, IfOk};
ghost use Rattle.server_rules.specs.Reading.{nodes_of, own_uri};

use redundancy_nodes::{CurrentChanges, Member, Members, Nodes};
use server_rules::ServerConfig;
use server_subs::ServerData;
use std::alloc::Global;
use ua_base::OutOfMemory;
use ua_values::UaText;

/// The members once more.
fn copied(alloc: Global, members: &[Member]) -> Result<Members, OutOfMemory>
    ensures { IfOk result (λ copied. copied ≡ members.now) }
{
    let mut copies = Vec::new(alloc);
    for member in members {
        copies.push(member.copy(alloc)?)?;
    }
    Ok(Members::new(copies))
}

/// The server's own ApplicationUri: that of the member of its number.
fn own_uri(alloc: Global, config: &ServerConfig) -> Result<UaText, OutOfMemory>
    ensures { IfOk result (λ uri. uri ≡ own_uri config.now) }
{
    let place = usize::from(config.number.saturating_sub(1));
    match config.members.as_slice().get(place) {
        Some(member) => member.uri.copy(alloc),
        None => Ok(UaText::null()),
    }
}

/// What the values of its nodes are made of at this moment.
#[tactic(auto, unfolding(server_rules::specs::Reading::nodes_of))]
pub(crate) fn nodes_of(alloc: Global, server: &ServerData) -> Result<Nodes, OutOfMemory>
    ensures { IfOk result (λ nodes. nodes ≡ nodes_of server.now) }
{
    let config = server.config();
    let uri = own_uri(alloc, config)?;
    let members = copied(alloc, config.members.as_slice())?;
    let current = Vec::from_slice(alloc, server.current())?;
    Ok(Nodes {
        uri,
        members,
        support: config.support,
        level: server.level(),
        start: config.start,
        now: server.server_time(),
        items: config.items,
        current: CurrentChanges::new(current),
    })
}
