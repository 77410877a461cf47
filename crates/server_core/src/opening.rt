//! Secure channels, and their tokens (OPC 10000-4, 5.5.2; OPC 10000-6, 6.7.4).

ghost use Rattle.std.specs.Prelude.{◌≡◌, ◌≤◌, ◌++◌, IfOk, OnOk, length};
ghost use Rattle.ua_structures.specs.Body.{Answers, body_at};
ghost use Rattle.ua_session_msgs.specs.Families.{session_requests};
ghost use Rattle.ua_services.specs.Families.{written_reply};
ghost use Rattle.server_rules.specs.Opening.{asked_at, granted, granted_on, is_unsecured, issued, opened_as};
ghost use Rattle.server_rules.specs.Opening.{opened_for, opening, opening_reply, opening_response, revised_lifetime};
ghost use Rattle.server_rules.specs.Opening.{token_renewed};
ghost use Rattle.server_rules.specs.Said.{orders_of};

use server_rules::{Conn, OpeningRequest, SecurityMode, SecurityTokenRequestType};
use server_subs::ServerData;
use std::alloc::Global;
use ua_base::status::{
    BAD_DECODING_ERROR, BAD_SECURITY_POLICY_REJECTED, BAD_SEQUENCE_NUMBER_INVALID,
    BAD_TCP_MESSAGE_TOO_LARGE, BAD_TCP_SECURE_CHANNEL_UNKNOWN,
};
use ua_base::{OutOfMemory, next_message};
use ua_channel::{Ear, Order, Wire};
use ua_chunks::Kind;
use ua_services::{Reply, write_reply};
use ua_session_msgs::{
    ChannelSecurityToken, OpenSecureChannelResponse, SessionReply, SessionRequest, read_request,
};
use ua_structures::BodyFault;
use ua_values::UaBytes;

// ---- what is asked

/// What was read of a body asks for a channel, or for none.
fn asked_in(
    body: &[u8],
    read: &Result<SessionRequest, BodyFault>,
) -> Result<Option<OpeningRequest>, OutOfMemory>
    ensures { Answers read.now (body_at session_requests body.now) → IfOk result (λ asked. asked ≡ asked_at body.now) }
{
    match read {
        Ok(SessionRequest::OpenSecureChannel(request)) => Ok(Some(OpeningRequest {
            handle: request.request_header.request_handle,
            request_type: request.request_type,
            security_mode: request.security_mode,
            lifetime: request.requested_lifetime,
        })),
        Ok(_) => Ok(None),
        Err(BodyFault::OutOfMemory) => Err(OutOfMemory),
        Err(_) => Ok(None),
    }
}

/// What the body of an OPN asks for.
fn asked_at(alloc: Global, body: &[u8]) -> Result<Option<OpeningRequest>, OutOfMemory>
    ensures { IfOk result (λ asked. asked ≡ asked_at body.now) }
{
    let read = read_request(alloc, body);
    asked_in(body, &read)
}

// ---- what is answered

/// The reply that tells of a channel and its token.
fn reply_for(server: &ServerData, conn: &Conn, asked: OpeningRequest) -> Reply
    ensures { result ≡ opening_reply (opening_response conn.now asked server.now) }
{
    Reply::Session(SessionReply::OpenSecureChannel(OpenSecureChannelResponse {
        response_header: server.good_header(asked.handle),
        server_protocol_version: 0,
        security_token: ChannelSecurityToken {
            channel_id: conn.channel,
            token_id: conn.token,
            created_at: server.server_time(),
            revised_lifetime: asked.lifetime.clamp(10_000, 3_600_000),
        },
        server_nonce: UaBytes::null(),
    }))
}

/// The body of that reply, which is short.
fn body_for(
    alloc: Global,
    server: &ServerData,
    conn: &Conn,
    asked: OpeningRequest,
) -> Result<Vec<u8>, OutOfMemory>
    ensures body { IfOk result (λ body.
        body.items ≡ written_reply (opening_reply (opening_response conn.now asked server.now))) }
    ensures short { IfOk result (λ body. length body.items ≤ 4096) }
{
    let mut body = Vec::new(alloc);
    let reply = reply_for(server, conn, asked);
    write_reply(&reply, &mut body)?;
    Ok(body)
}

// ---- a token given

/// Says that reply under the new token, which is taken from then on.
#[tactic(auto, unfolding(server_rules::specs::Opening::granted_on))]
fn grant_on(
    server: &mut ServerData,
    conn: Conn,
    request: u32,
    asked: OpeningRequest,
    body: Vec<u8>,
    to: &mut Vec<(u32, Order)>,
) -> Result<(), OutOfMemory>
    requires short { length body.items ≤ 4096 }
    requires body { body.items ≡ written_reply (opening_reply (opening_response conn asked server.old)) }
    ensures state { OnOk result
        (server.new ≡ (granted_on conn request (opening_response conn asked server.old) server.old).state) }
    ensures orders { OnOk result (to.new.items ≡ to.old.items
        ++ orders_of (granted_on conn request (opening_response conn asked server.old) server.old).said) }
{
    let reply = Wire::new(Kind::Opn, conn.channel, conn.token, request, body);
    to.push((conn.number, Order::Put(reply)))?;
    to.push((
        conn.number,
        Order::Renew {
            channel: conn.channel,
            token: conn.token,
        },
    ))?;
    server.put_conn(conn);
    Ok(())
}

/// Gives a connection a channel and a token. Where the reply is too large the connection ends.
#[tactic(auto, unfolding(server_rules::specs::Opening::granted))]
fn grant(
    alloc: Global,
    server: &mut ServerData,
    channel: u32,
    token: u32,
    conn: Conn,
    request: u32,
    asked: OpeningRequest,
    to: &mut Vec<(u32, Order)>,
) -> Result<(), OutOfMemory>
    ensures state { OnOk result (server.new ≡ (granted channel token conn request asked server.old).state) }
    ensures orders { OnOk result
        (to.new.items ≡ to.old.items ++ orders_of (granted channel token conn request asked server.old).said) }
{
    let open = Conn {
        ear: Ear::Open,
        channel,
        token,
        ..conn
    };
    let body = body_for(alloc, server, &open, asked)?;
    if body.len() <= conn.limit {
        grant_on(server, open, request, asked, body, to)
    } else {
        server.refuse(alloc, conn, BAD_TCP_MESSAGE_TOO_LARGE, to)
    }
}

/// Opens a channel: it has the next id, and its first token is 1.
#[tactic(auto, unfolding(server_rules::specs::Opening::issued))]
fn issue(
    alloc: Global,
    server: &mut ServerData,
    conn: Conn,
    request: u32,
    asked: OpeningRequest,
    to: &mut Vec<(u32, Order)>,
) -> Result<(), OutOfMemory>
    ensures state { OnOk result (server.new ≡ (issued conn request asked server.old).state) }
    ensures orders { OnOk result (to.new.items ≡ to.old.items ++ orders_of (issued conn request asked server.old).said) }
{
    let channel = next_message(server.channels_given());
    server.set_channels_given(channel);
    grant(alloc, server, channel, 1, conn, request, asked, to)
}

/// Renews the token of an open channel.
#[tactic(auto, unfolding(server_rules::specs::Opening::token_renewed))]
fn renew(
    alloc: Global,
    server: &mut ServerData,
    conn: Conn,
    request: u32,
    asked: OpeningRequest,
    to: &mut Vec<(u32, Order)>,
) -> Result<(), OutOfMemory>
    ensures state { OnOk result (server.new ≡ (token_renewed conn request asked server.old).state) }
    ensures orders { OnOk result
        (to.new.items ≡ to.old.items ++ orders_of (token_renewed conn request asked server.old).said) }
{
    let token = next_message(conn.token);
    grant(alloc, server, conn.channel, token, conn, request, asked, to)
}

// ---- the checks, in order

/// Opens a channel where none is open, and renews the token of the open one.
fn open_as(
    alloc: Global,
    server: &mut ServerData,
    kind: Option<SecurityTokenRequestType>,
    channel: u32,
    conn: Conn,
    request: u32,
    asked: OpeningRequest,
    to: &mut Vec<(u32, Order)>,
) -> Result<(), OutOfMemory>
    ensures state { OnOk result (server.new ≡ (opened_as conn.ear kind channel conn request asked server.old).state) }
    ensures orders { OnOk result (to.new.items
        ≡ to.old.items ++ orders_of (opened_as conn.ear kind channel conn request asked server.old).said) }
{
    match (conn.ear, kind) {
        (Ear::Opening, Some(SecurityTokenRequestType::Issue)) => {
            issue(alloc, server, conn, request, asked, to)
        }
        (Ear::Open, Some(SecurityTokenRequestType::Renew)) if channel == conn.channel => {
            renew(alloc, server, conn, request, asked, to)
        }
        _ => server.refuse(alloc, conn, BAD_TCP_SECURE_CHANNEL_UNKNOWN, to),
    }
}

/// Whether a mode is that of no security.
fn is_unsecured(mode: Option<SecurityMode>) -> bool
    ensures { result ≡ is_unsecured mode }
{
    matches!(mode, Some(SecurityMode::None))
}

/// Answers an OPN that asks for this.
#[tactic(auto, unfolding(server_rules::specs::Opening::opened_for))]
fn open_for(
    alloc: Global,
    server: &mut ServerData,
    channel: u32,
    follows: bool,
    conn: Conn,
    request: u32,
    asked: OpeningRequest,
    to: &mut Vec<(u32, Order)>,
) -> Result<(), OutOfMemory>
    ensures state { OnOk result (server.new ≡ (opened_for channel follows conn request asked server.old).state) }
    ensures orders { OnOk result
        (to.new.items ≡ to.old.items ++ orders_of (opened_for channel follows conn request asked server.old).said) }
{
    if !follows {
        return server.refuse(alloc, conn, BAD_SEQUENCE_NUMBER_INVALID, to);
    }
    if !is_unsecured(SecurityMode::of_number(asked.security_mode)) {
        return server.refuse(alloc, conn, BAD_SECURITY_POLICY_REJECTED, to);
    }
    let kind = SecurityTokenRequestType::of_number(asked.request_type);
    open_as(alloc, server, kind, channel, conn, request, asked, to)
}

/// Hears an OPN that names this channel, and whose number follows the last one or doesn't.
#[tactic(auto, unfolding(server_rules::specs::Opening::opening))]
pub(crate) fn open(
    alloc: Global,
    server: &mut ServerData,
    channel: u32,
    follows: bool,
    request: u32,
    body: &[u8],
    conn: Conn,
    to: &mut Vec<(u32, Order)>,
) -> Result<(), OutOfMemory>
    ensures state { OnOk result (server.new ≡ (opening channel follows request body.now conn server.old).state) }
    ensures orders { OnOk result
        (to.new.items ≡ to.old.items ++ orders_of (opening channel follows request body.now conn server.old).said) }
{
    match asked_at(alloc, body)? {
        Some(asked) => open_for(alloc, server, channel, follows, conn, request, asked, to),
        None => server.refuse(alloc, conn, BAD_DECODING_ERROR, to),
    }
}
