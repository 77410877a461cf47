//! What the nodes of a set are made with.

ghost use Rattle.std.specs.Prelude.{◌≡◌, ◌≢◌, ◌≤◌, IfOk};
ghost use Rattle.ua_base.specs.declared.modes.SetMode.TheVariants.{Direct};
ghost use Rattle.ua_server.specs.State as server_state;
ghost use Rattle.ua_client.specs.State as client_state;
ghost use Rattle.set_world.specs.Bytes.{beginning};
ghost use Rattle.set_world.specs.Texts.{client_config, member, members, server_config, support_of, uri_text, url_text, urls};

use client_rules::ClientConfig;
use redundancy_nodes::{CurrentChanges, Member, Members};
use server_rules::ServerConfig;
use std::alloc::Global;
use ua_base::{OutOfMemory, SetMode};
use ua_client::Client;
use ua_server::Server;
use ua_structures::UaArray;
use ua_values::UaText;

/// The moment at which each node starts.
const START: i64 = 132_000_000_000_000_000;

/// How a set is used, and how many servers and items it has.
#[derive(Clone, Copy, Debug)]
pub(crate) struct Kind {
    pub(crate) mode: SetMode,
    pub(crate) servers: u8,
    pub(crate) items: u8,
}

fn text(alloc: Global, text: &str) -> Result<UaText, OutOfMemory>
    ensures { IfOk result (λ made. made ≡ Some text.now) }
{
    Ok(UaText::new(Vec::from_slice(alloc, text.as_bytes())?))
}

fn uri(alloc: Global, number: u8) -> Result<UaText, OutOfMemory>
    ensures { IfOk result (λ made. made ≡ Some (uri_text number)) }
{
    let uri = format!(in alloc; "urn:uaset:server:{number}")?;
    text(alloc, &uri)
}

fn url(alloc: Global, number: u8) -> Result<UaText, OutOfMemory>
    ensures { IfOk result (λ made. made ≡ Some (url_text number)) }
{
    let url = format!(in alloc; "opc.tcp://server{number}:4840")?;
    text(alloc, &url)
}

fn member(alloc: Global, number: u8) -> Result<Member, OutOfMemory>
    ensures { IfOk result (λ made. made ≡ member number) }
{
    let uri = uri(alloc, number)?;
    let url = url(alloc, number)?;
    Ok(Member { uri, url })
}

#[tactic(auto, using(crate::proofs::Counting::members_none, crate::proofs::Counting::members_next))]
fn members(alloc: Global, count: u8) -> Result<Members, OutOfMemory>
    ensures { IfOk result (λ made. made ≡ members count) }
{
    let mut list = Vec::new(alloc);
    for before in 0..count {
        list.push(member(alloc, before + 1)?)?;
    }
    Ok(Members::new(list))
}

#[tactic(auto, using(crate::proofs::Counting::urls_none, crate::proofs::Counting::urls_next))]
fn urls(alloc: Global, count: u8) -> Result<UaArray<UaText>, OutOfMemory>
    ensures { IfOk result (λ made. made ≡ urls count) }
{
    let mut list = Vec::new(alloc);
    for before in 0..count {
        list.push(url(alloc, before + 1)?)?;
    }
    Ok(UaArray::new(list))
}

fn support_of(mode: SetMode) -> u8
    ensures { result ≡ support_of mode }
{
    match mode {
        SetMode::Direct => 0,
        SetMode::Hot => 3,
        SetMode::Warm => 2,
        SetMode::Cold => 1,
    }
}

fn server_config(
    alloc: Global,
    kind: Kind,
    number: u8,
    boot: u16,
) -> Result<ServerConfig, OutOfMemory>
    ensures { IfOk result (λ made. made ≡ server_config kind.mode kind.servers kind.items number boot) }
{
    let members = members(alloc, kind.servers)?;
    Ok(ServerConfig {
        boot,
        number,
        support: support_of(kind.mode),
        members,
        items: kind.items,
        start: START,
    })
}

/// A life of a server that begins.
pub(crate) fn life(
    alloc: Global,
    kind: Kind,
    number: u8,
    boot: u16,
    current: CurrentChanges,
) -> Result<Server, OutOfMemory>
    ensures { IfOk result (λ made. made
        ≡ server_state.life_of (beginning kind.mode kind.servers kind.items number boot current)) }
{
    let config = server_config(alloc, kind, number, boot)?;
    Ok(Server::new(alloc, config, current))
}

/// A client that begins.
pub(crate) fn client(
    alloc: Global,
    kind: Kind,
    queue: u32,
    oldest: bool,
) -> Result<Client, OutOfMemory>
    requires mode { kind.mode ≢ Direct }
    requires servers { (1 ≤ kind.servers) × (kind.servers ≤ 8) }
    ensures { IfOk result (λ made. made
        ≡ client_state.life_of (client_state.new_bytes (client_config kind.mode kind.servers kind.items queue oldest))) }
{
    let urls = urls(alloc, kind.servers)?;
    Client::new(
        alloc,
        ClientConfig {
            mode: kind.mode,
            urls,
            items: kind.items,
            queue,
            oldest,
            start: START,
        },
    )
}
