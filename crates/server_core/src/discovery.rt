//! What servers there are, and how they are reached (OPC 10000-4, 5.4).

ghost use Rattle.std.specs.Prelude.{◌≡◌, ◌++◌, ◌∷◌, [], IfOk, None, OnOk, Some, codes, filter, map};
ghost use Rattle.std.specs.List.{list_any};
ghost use Rattle.ua_chunks.specs.Sending.{none_policy};
ghost use Rattle.sessions.specs.Table.{same_text};
ghost use Rattle.server_rules.specs.Reading.{own_uri};
ghost use Rattle.server_rules.specs.Said.{orders_of};
ghost use Rattle.server_rules.specs.Sessions.{application, described, endpoint, endpoint_of, find_servers, get_endpoints};
ghost use Rattle.server_core.specs.Policy.{anonymous_policy};
ghost use Rattle.server_rules.specs.Sessions.{is_listed, own_url, servers_listed, uaset};

use redundancy_nodes::Member;
use server_rules::{Asker, ServerConfig};
use server_subs::ServerData;
use std::alloc::Global;
use ua_base::OutOfMemory;
use ua_channel::Order;
use ua_chunks::NONE_POLICY;
use ua_services::Reply;
use ua_session_msgs::{
    ApplicationDescription, EndpointDescription, FindServersRequest, FindServersResponse,
    GetEndpointsRequest, GetEndpointsResponse, SessionReply, UserTokenPolicy,
};
use ua_structures::UaArray;
use ua_values::{LocalizedText, UaBytes, UaText};

/// MessageSecurityMode None (OPC 10000-4, 7.20).
const NO_SECURITY: i32 = 1;

/// How the bytes of messages are carried: UA TCP, the secure conversation, and the binary encoding (OPC 10000-7).
const TRANSPORT_PROFILE: &[u8] =
    b"http://opcfoundation.org/UA-Profile/Transport/uatcp-uasc-uabinary";

/// The text of these bytes.
fn text(alloc: Global, bytes: &[u8]) -> Result<UaText, OutOfMemory>
    ensures { IfOk result (λ text. text ≡ Some bytes.now) }
{
    Ok(UaText::new(Vec::from_slice(alloc, bytes)?))
}

/// An array of one element.
fn only<T: Drop>(alloc: Global, value: T) -> Result<UaArray<T>, OutOfMemory>
    ensures { IfOk result (λ array. array ≡ value ∷ []) }
{
    let mut list = Vec::new(alloc);
    list.push(value)?;
    Ok(UaArray::new(list))
}

// ---- this server

/// The ApplicationUri of a server, if it is a member of its set.
fn own_uri(alloc: Global, config: &ServerConfig) -> Result<UaText, OutOfMemory>
    ensures { IfOk result (λ uri. uri ≡ own_uri config.now) }
{
    let place = usize::from(config.number.saturating_sub(1));
    match config.members.as_slice().get(place) {
        Some(member) => member.uri.copy(alloc),
        None => Ok(UaText::null()),
    }
}

/// The url of a server, if it is a member of its set.
fn own_url(alloc: Global, config: &ServerConfig) -> Result<UaText, OutOfMemory>
    ensures { IfOk result (λ url. url ≡ own_url config.now) }
{
    let place = usize::from(config.number.saturating_sub(1));
    match config.members.as_slice().get(place) {
        Some(member) => member.url.copy(alloc),
        None => Ok(UaText::null()),
    }
}

/// The name of every server here.
fn name(alloc: Global) -> Result<LocalizedText, OutOfMemory>
    ensures { IfOk result (λ name. name ≡ record { locale = None; text = uaset }) }
{
    let text = text(alloc, b"uaset")?;
    Ok(LocalizedText {
        locale: UaText::null(),
        text,
    })
}

/// What every server here is a product of.
fn product(alloc: Global) -> Result<UaText, OutOfMemory>
    ensures { IfOk result (λ uri. uri ≡ Some (codes "urn:uaset")) }
{
    text(alloc, b"urn:uaset")
}

/// The one url.
fn urls(alloc: Global, url: &UaText) -> Result<UaArray<UaText>, OutOfMemory>
    ensures { IfOk result (λ urls. urls ≡ url.now ∷ []) }
{
    only(alloc, url.copy(alloc)?)
}

/// What a server is called: its ApplicationUri, its ProductUri and its name.
#[derive(Drop)]
struct Names {
    uri: UaText,
    product: UaText,
    name: LocalizedText,
}

/// What the server of this ApplicationUri is called.
fn names_of(alloc: Global, uri: &UaText) -> Result<Names, OutOfMemory>
    ensures { IfOk result (λ names. names ≡ record {
      uri = uri.now;
      product = Some (codes "urn:uaset");
      name = record { locale = None; text = uaset };
    }) }
{
    let name = name(alloc)?;
    let product = product(alloc)?;
    let uri = uri.copy(alloc)?;
    Ok(Names { uri, product, name })
}

/// The server of this ApplicationUri at this url (OPC 10000-4, 7.1).
fn application(
    alloc: Global,
    uri: &UaText,
    url: &UaText,
) -> Result<ApplicationDescription, OutOfMemory>
    ensures { IfOk result (λ one. one ≡ application uri.now url.now) }
{
    let names = names_of(alloc, uri)?;
    let discovery_urls = urls(alloc, url)?;
    Ok(ApplicationDescription {
        application_uri: names.uri,
        product_uri: names.product,
        application_name: names.name,
        application_type: 0,
        gateway_server_uri: UaText::null(),
        discovery_profile_uri: UaText::null(),
        discovery_urls,
    })
}

/// The policy by which nobody says who it is (OPC 10000-4, 7.37).
fn anonymous_policy(alloc: Global) -> Result<UserTokenPolicy, OutOfMemory>
    ensures { IfOk result (λ policy. policy ≡ anonymous_policy) }
{
    Ok(UserTokenPolicy {
        policy_id: text(alloc, b"anonymous")?,
        token_type: 0,
        issued_token_type: UaText::null(),
        issuer_endpoint_url: UaText::null(),
        security_policy_uri: UaText::null(),
    })
}

/// The one policy.
fn policies(alloc: Global) -> Result<UaArray<UserTokenPolicy>, OutOfMemory>
    ensures { IfOk result (λ policies. policies ≡ anonymous_policy ∷ []) }
{
    only(alloc, anonymous_policy(alloc)?)
}

/// Where an endpoint is, its security policy, and how messages get there.
#[derive(Drop)]
struct Place {
    url: UaText,
    policy: UaText,
    profile: UaText,
}

/// The place of the endpoint at this url.
fn place_of(alloc: Global, url: &UaText) -> Result<Place, OutOfMemory>
    ensures { IfOk result (λ place. place ≡ record {
      url = url.now;
      policy = Some none_policy;
      profile = Some (codes "http://opcfoundation.org/UA-Profile/Transport/uatcp-uasc-uabinary");
    }) }
{
    let policy = text(alloc, NONE_POLICY)?;
    let profile = text(alloc, TRANSPORT_PROFILE)?;
    let url = url.copy(alloc)?;
    Ok(Place {
        url,
        policy,
        profile,
    })
}

/// The endpoint of a server of this ApplicationUri at this url.
fn endpoint_of(
    alloc: Global,
    uri: &UaText,
    url: &UaText,
) -> Result<EndpointDescription, OutOfMemory>
    ensures { IfOk result (λ one. one ≡ endpoint_of uri.now url.now) }
{
    let place = place_of(alloc, url)?;
    let user_identity_tokens = policies(alloc)?;
    let server = application(alloc, uri, url)?;
    Ok(EndpointDescription {
        endpoint_url: place.url,
        server,
        server_certificate: UaBytes::null(),
        security_mode: NO_SECURITY,
        security_policy_uri: place.policy,
        user_identity_tokens,
        transport_profile_uri: place.profile,
        security_level: 0,
    })
}

/// The one endpoint of a server.
#[tactic(auto, unfolding(server_rules::specs::Sessions::endpoint))]
fn endpoint(alloc: Global, config: &ServerConfig) -> Result<EndpointDescription, OutOfMemory>
    ensures { IfOk result (λ one. one ≡ endpoint config.now) }
{
    let uri = own_uri(alloc, config)?;
    let url = own_url(alloc, config)?;
    endpoint_of(alloc, &uri, &url)
}

/// The endpoints of a server.
pub(crate) fn endpoints(
    alloc: Global,
    config: &ServerConfig,
) -> Result<UaArray<EndpointDescription>, OutOfMemory>
    ensures { IfOk result (λ all. all ≡ endpoint config.now ∷ []) }
{
    only(alloc, endpoint(alloc, config)?)
}

// ---- the servers of a set

/// Whether a text is a member's uri.
fn is_named(member: &Member, uri: &UaText) -> bool
    ensures { result ≡ same_text member.now.uri uri.now }
{
    member.uri.equals(uri)
}

/// Whether one of these texts is a member's uri.
fn is_among(uris: &[UaText], member: &Member) -> bool
    ensures { result ≡ list_any (λ uri. same_text member.now.uri uri) uris.now }
{
    uris.iter().any(|uri| is_named(member, uri))
}

/// Whether a member is among those asked for; all are where none is named.
fn is_listed(uris: &[UaText], member: &Member) -> bool
    ensures { result ≡ is_listed uris.now member.now }
{
    uris.len() == 0 || is_among(uris, member)
}

/// Appends a member that is asked for.
fn list_one(
    alloc: Global,
    uris: &[UaText],
    member: &Member,
    to: &mut Vec<ApplicationDescription>,
) -> Result<(), OutOfMemory>
    ensures { OnOk result (to.new.items ≡ to.old.items ++ map described (filter (is_listed uris.now) (member.now ∷ []))) }
{
    if is_listed(uris, member) {
        to.push(application(alloc, &member.uri, &member.url)?)?;
    }
    Ok(())
}

/// The members that are asked for.
#[tactic(auto, unfolding(server_rules::specs::Sessions::servers_listed))]
fn list_servers(
    alloc: Global,
    uris: &[UaText],
    members: &[Member],
) -> Result<Vec<ApplicationDescription>, OutOfMemory>
    ensures { IfOk result (λ list. list.items ≡ servers_listed uris.now members.now) }
{
    let mut list = Vec::new(alloc);
    for member in members {
        list_one(alloc, uris, member, &mut list)?;
    }
    Ok(list)
}

// ---- the services

/// Tells the servers of the set (OPC 10000-4, 5.4.2).
#[tactic(auto, unfolding(server_rules::specs::Sessions::find_servers))]
pub(crate) fn find_servers(
    alloc: Global,
    server: &mut ServerData,
    asker: Asker,
    request: &FindServersRequest,
    to: &mut Vec<(u32, Order)>,
) -> Result<(), OutOfMemory>
    ensures state { OnOk result (server.new ≡ (find_servers asker request.now server.old).state) }
    ensures orders { OnOk result (to.new.items ≡ to.old.items ++ orders_of (find_servers asker request.now server.old).said) }
{
    let servers = list_servers(
        alloc,
        request.server_uris.as_slice(),
        server.config().members.as_slice(),
    )?;
    let reply = Reply::Session(SessionReply::FindServers(FindServersResponse {
        response_header: server.good_header(asker.handle),
        servers: UaArray::new(servers),
    }));
    server.reply(alloc, asker, &reply, to)
}

/// Tells the one endpoint of the server (OPC 10000-4, 5.4.4).
#[tactic(auto, unfolding(server_rules::specs::Sessions::get_endpoints))]
pub(crate) fn get_endpoints(
    alloc: Global,
    server: &mut ServerData,
    asker: Asker,
    request: &GetEndpointsRequest,
    to: &mut Vec<(u32, Order)>,
) -> Result<(), OutOfMemory>
    ensures state { OnOk result (server.new ≡ (get_endpoints asker request.now server.old).state) }
    ensures orders { OnOk result (to.new.items ≡ to.old.items ++ orders_of (get_endpoints asker request.now server.old).said) }
{
    let endpoints = endpoints(alloc, server.config())?;
    let reply = Reply::Session(SessionReply::GetEndpoints(GetEndpointsResponse {
        response_header: server.good_header(asker.handle),
        endpoints,
    }));
    server.reply(alloc, asker, &reply, to)
}
