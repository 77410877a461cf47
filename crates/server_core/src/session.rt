//! Sessions (OPC 10000-4, 5.6).

ghost use Rattle.std.specs.Prelude.{◌≡◌, ◌++◌, IfOk, OnOk};
ghost use Rattle.server_rules.specs.Said.{orders_of};
ghost use Rattle.server_rules.specs.Sessions.{activate_session, activation_done, all_gone, close_answered, close_session};
ghost use Rattle.server_rules.specs.Sessions.{create_session, created_response, creation_answered, is_anonymous, nonce};
ghost use Rattle.server_rules.specs.Sessions.{session_activated, session_closed, session_node, token_at, without_owned};
ghost use Rattle.sessions.specs.Table.{activate_answer, activated};

use crate::discovery::endpoints;
use server_rules::{Asker, duration_bits, revised_duration};
use server_subs::ServerData;
use sessions::{SessionFault, token};
use std::alloc::Global;
use ua_base::OutOfMemory;
use ua_base::status::{BAD_IDENTITY_TOKEN_REJECTED, BAD_SESSION_CLOSED};
use ua_channel::Order;
use ua_services::Reply;
use ua_session_msgs::{
    ActivateSessionRequest, ActivateSessionResponse, CloseSessionRequest, CreateSessionRequest,
    CreateSessionResponse, SessionReply, SignatureData, read_identity,
};
use ua_structures::{BodyFault, UaArray, UnusedDiagnostics};
use ua_values::{ExtensionBody, ExtensionObject, NodeId, UaBytes};

/// The least and the greatest timeout of a session, in milliseconds.
const LEAST_TIMEOUT: u32 = 10_000;

const MOST_TIMEOUT: u32 = 3_600_000;

/// A nonce, which stands for none since nothing is signed.
fn nonce(alloc: Global) -> Result<UaBytes, OutOfMemory>
    ensures { IfOk result (λ bytes. bytes ≡ nonce) }
{
    Ok(UaBytes::new(Vec::from_slice(alloc, &[0; 32])?))
}

// ---- CreateSession (5.6.2)

/// A NodeId of a session: in the namespace 0 its token, in the namespace 1 its public id.
fn session_node(
    alloc: Global,
    namespace: u16,
    boot: u16,
    counter: u32,
) -> Result<NodeId, OutOfMemory>
    ensures { IfOk result (λ node. node ≡ session_node namespace boot counter) }
{
    let id = UaBytes::new(Vec::from_slice(alloc, &token(boot, counter))?);
    Ok(NodeId::Opaque { namespace, id })
}

/// What a session is known by.
#[derive(Drop)]
struct Ids {
    public: NodeId,
    token: NodeId,
}

/// What the session of this counter is known by.
fn ids_of(alloc: Global, boot: u16, counter: u32) -> Result<Ids, OutOfMemory>
    ensures { IfOk result (λ ids. ids ≡ record {
      public = session_node 1 boot counter;
      token = session_node 0 boot counter;
    }) }
{
    let public = session_node(alloc, 1, boot, counter)?;
    let token = session_node(alloc, 0, boot, counter)?;
    Ok(Ids { public, token })
}

/// The reply that tells of a session.
#[tactic(auto, unfolding(server_rules::specs::Sessions::created_response))]
fn created_response(
    alloc: Global,
    server: &ServerData,
    asker: Asker,
    counter: u32,
    timeout: u32,
) -> Result<CreateSessionResponse, OutOfMemory>
    ensures { IfOk result (λ response. response ≡ created_response asker counter timeout server.now) }
{
    let ids = ids_of(alloc, server.config().boot, counter)?;
    let server_nonce = nonce(alloc)?;
    let server_endpoints = endpoints(alloc, server.config())?;
    Ok(CreateSessionResponse {
        response_header: server.good_header(asker.handle),
        session_id: ids.public,
        authentication_token: ids.token,
        revised_session_timeout: duration_bits(timeout),
        server_nonce,
        server_certificate: UaBytes::null(),
        server_endpoints,
        server_software_certificates: UaArray::empty(alloc),
        server_signature: SignatureData::blank(),
        max_request_message_size: 0,
    })
}

/// Tells of a session that was made.
#[tactic(auto, unfolding(server_rules::specs::Sessions::creation_answered))]
fn answer_creation(
    alloc: Global,
    server: &mut ServerData,
    asker: Asker,
    counter: u32,
    timeout: u32,
    to: &mut Vec<(u32, Order)>,
) -> Result<(), OutOfMemory>
    ensures state { OnOk result (server.new ≡ (creation_answered asker counter timeout server.old).state) }
    ensures orders { OnOk result
        (to.new.items ≡ to.old.items ++ orders_of (creation_answered asker counter timeout server.old).said) }
{
    let response = created_response(alloc, server, asker, counter, timeout)?;
    let reply = Reply::Session(SessionReply::CreateSession(response));
    server.reply(alloc, asker, &reply, to)
}

/// Makes a session, bound to the connection.
#[tactic(auto, unfolding(server_rules::specs::Sessions::create_session))]
pub(crate) fn create(
    alloc: Global,
    server: &mut ServerData,
    asker: Asker,
    request: &CreateSessionRequest,
    to: &mut Vec<(u32, Order)>,
) -> Result<(), OutOfMemory>
    ensures state { OnOk result (server.new ≡ (create_session asker request.now server.old).state) }
    ensures orders { OnOk result
        (to.new.items ≡ to.old.items ++ orders_of (create_session asker request.now server.old).said) }
{
    let uri = request.client_description.application_uri.copy(alloc)?;
    let timeout = revised_duration(
        LEAST_TIMEOUT,
        MOST_TIMEOUT,
        request.requested_session_timeout,
    );
    match server.create(alloc, asker.conn, uri, timeout) {
        Ok(counter) => answer_creation(alloc, server, asker, counter, timeout, to),
        Err(SessionFault::Code(code)) => server.fault(alloc, asker, code, to),
        Err(SessionFault::OutOfMemory) => Err(OutOfMemory),
    }
}

// ---- ActivateSession (5.6.3)

/// Whether an object holds no identity, or the anonymous one.
fn is_anonymous(alloc: Global, object: &ExtensionObject) -> Result<bool, OutOfMemory>
    ensures { IfOk result (λ anonymous. anonymous ≡ is_anonymous object.now) }
{
    match object.body {
        ExtensionBody::Absent => Ok(true),
        ExtensionBody::Binary(_) | ExtensionBody::Xml(_) => match read_identity(alloc, object) {
            Ok(_) => Ok(true),
            Err(BodyFault::OutOfMemory) => Err(OutOfMemory),
            Err(_) => Ok(false),
        },
    }
}

/// Tells that a session is active.
#[tactic(auto, unfolding(server_rules::specs::Sessions::activation_done))]
fn answer_activation(
    alloc: Global,
    server: &mut ServerData,
    asker: Asker,
    to: &mut Vec<(u32, Order)>,
) -> Result<(), OutOfMemory>
    ensures state { OnOk result (server.new ≡ (activation_done asker server.old).state) }
    ensures orders { OnOk result (to.new.items ≡ to.old.items ++ orders_of (activation_done asker server.old).said) }
{
    let server_nonce = nonce(alloc)?;
    let reply = Reply::Session(SessionReply::ActivateSession(ActivateSessionResponse {
        response_header: server.good_header(asker.handle),
        server_nonce,
        results: UaArray::empty(alloc),
        diagnostic_infos: UnusedDiagnostics,
    }));
    server.reply(alloc, asker, &reply, to)
}

/// Activates the session of these bytes.
fn activate_of(server: &mut ServerData, asker: Asker, token: &NodeId) -> Result<u32, SessionFault>
    ensures answer { result ≡ activate_answer (token_at token.now) asker.conn server.old.sessions }
    ensures after { server.new ≡ record server.old {
      sessions = activated (token_at token.now) asker.conn server.old.age server.old.sessions;
    } }
{
    match token {
        NodeId::Opaque { namespace: 0, id } => server.activate(id, asker.conn),
        _ => server.activate(&UaBytes::null(), asker.conn),
    }
}

/// Activates the session of a token, and tells so.
#[tactic(auto, unfolding(server_rules::specs::Sessions::session_activated))]
fn activate_token(
    alloc: Global,
    server: &mut ServerData,
    asker: Asker,
    token: &NodeId,
    to: &mut Vec<(u32, Order)>,
) -> Result<(), OutOfMemory>
    ensures state { OnOk result (server.new ≡ (session_activated asker (token_at token.now) server.old).state) }
    ensures orders { OnOk result
        (to.new.items ≡ to.old.items ++ orders_of (session_activated asker (token_at token.now) server.old).said) }
{
    match activate_of(server, asker, token) {
        Ok(_) => answer_activation(alloc, server, asker, to),
        Err(SessionFault::Code(code)) => server.fault(alloc, asker, code, to),
        Err(SessionFault::OutOfMemory) => Err(OutOfMemory),
    }
}

/// Binds a session to the connection, and activates it.
#[tactic(auto, unfolding(server_rules::specs::Sessions::activate_session))]
pub(crate) fn activate(
    alloc: Global,
    server: &mut ServerData,
    asker: Asker,
    request: &ActivateSessionRequest,
    to: &mut Vec<(u32, Order)>,
) -> Result<(), OutOfMemory>
    ensures state { OnOk result (server.new ≡ (activate_session asker request.now server.old).state) }
    ensures orders { OnOk result
        (to.new.items ≡ to.old.items ++ orders_of (activate_session asker request.now server.old).said) }
{
    if is_anonymous(alloc, &request.user_identity_token)? {
        let token = &request.request_header.authentication_token;
        activate_token(alloc, server, asker, token, to)
    } else {
        server.fault(alloc, asker, BAD_IDENTITY_TOKEN_REJECTED, to)
    }
}

// ---- CloseSession (5.6.4)

/// Tells that a session is no more.
#[tactic(auto, unfolding(server_rules::specs::Sessions::close_answered))]
fn answer_close(
    alloc: Global,
    server: &mut ServerData,
    asker: Asker,
    to: &mut Vec<(u32, Order)>,
) -> Result<(), OutOfMemory>
    ensures state { OnOk result (server.new ≡ (close_answered asker server.old).state) }
    ensures orders { OnOk result (to.new.items ≡ to.old.items ++ orders_of (close_answered asker server.old).said) }
{
    let header = server.good_header(asker.handle);
    let reply = Reply::Session(SessionReply::CloseSession(header));
    server.reply(alloc, asker, &reply, to)
}

/// Deletes subscriptions, of which nobody is told.
#[tactic(auto, unfolding(server_rules::specs::Sessions::all_gone))]
fn delete_all(server: &mut ServerData, ids: &[u32])
    ensures { server.new ≡ all_gone ids.now server.old }
{
    for id in ids {
        server.gone(*id);
    }
}

/// Deletes the subscriptions of a session, or leaves them without an owner.
fn delete_owned(
    alloc: Global,
    server: &mut ServerData,
    deletes: bool,
    session: u32,
) -> Result<(), OutOfMemory>
    ensures { OnOk result (server.new ≡ without_owned deletes session server.old) }
{
    if deletes {
        let ids = server.owned_ids(alloc, session)?;
        delete_all(server, &ids);
    }
    Ok(())
}

/// Ends a session that has no Publish queued.
#[tactic(auto, unfolding(server_rules::specs::Sessions::session_closed))]
fn close_served(
    alloc: Global,
    server: &mut ServerData,
    asker: Asker,
    deletes: bool,
    session: u32,
    to: &mut Vec<(u32, Order)>,
) -> Result<(), OutOfMemory>
    ensures state { OnOk result (server.new ≡ (session_closed asker deletes session server.old).state) }
    ensures orders { OnOk result
        (to.new.items ≡ to.old.items ++ orders_of (session_closed asker deletes session server.old).said) }
{
    delete_owned(alloc, server, deletes, session)?;
    server.close_session(session);
    answer_close(alloc, server, asker, to)
}

/// Ends a session; its queued Publishes are answered first.
#[tactic(auto, unfolding(server_rules::specs::Sessions::close_session))]
pub(crate) fn close(
    alloc: Global,
    server: &mut ServerData,
    asker: Asker,
    session: u32,
    request: &CloseSessionRequest,
    to: &mut Vec<(u32, Order)>,
) -> Result<(), OutOfMemory>
    ensures state { OnOk result (server.new ≡ (close_session asker session request.now server.old).state) }
    ensures orders { OnOk result
        (to.new.items ≡ to.old.items ++ orders_of (close_session asker session request.now server.old).said) }
{
    server.answer_queued(alloc, BAD_SESSION_CLOSED, session, to)?;
    close_served(
        alloc,
        server,
        asker,
        request.delete_subscriptions,
        session,
        to,
    )
}
