//! Which service the body of a message asks for, and of which session (OPC 10000-4, 5.3).

ghost use Rattle.std.specs.Prelude.{◌≡◌, ◌++◌, OnOk};
ghost use Rattle.sessions.specs.Table.{bound_answer, check_answer};
ghost use Rattle.ua_services.specs.Requests.{Asks};
ghost use Rattle.std.specs.Prelude.{Result};
ghost use Rattle.ua_services.specs.declared.request.Request.{Request};
ghost use Rattle.ua_services.specs.declared.request.RequestFault.{RequestFault};
ghost use Rattle.server_rules.specs.Requests as rules;
ghost use Rattle.server_rules.specs.Requests.{call_served, close_served, in_session, noted, read_served, served, session_served, sub_served};
ghost use Rattle.server_rules.specs.Said.{orders_of};
ghost use Rattle.server_rules.specs.Sessions.{token_at};

use crate::discovery::{find_servers, get_endpoints};
use crate::session;
use server_rules::Asker;
use server_subs::ServerData;
use std::alloc::Global;
use ua_base::OutOfMemory;
use ua_base::status::{BAD_DECODING_ERROR, BAD_SERVICE_UNSUPPORTED};
use ua_channel::Order;
use ua_services::{Request, RequestFault, read_request};
use ua_session_msgs::{CallRequest, CloseSessionRequest, ReadRequest, SessionRequest};
use ua_sub_msgs::SubRequest;
use ua_values::{NodeId, UaBytes};

// ---- of which session

/// The session of a token, if it is bound to the connection and activated. The request is its last one.
fn check(server: &mut ServerData, asker: Asker, token: &NodeId) -> Result<u32, u32>
    ensures answer { result ≡ check_answer (token_at token.now) asker.conn server.old.sessions }
    ensures after { server.new ≡ noted asker (token_at token.now) server.old }
{
    match token {
        NodeId::Opaque { namespace: 0, id } => server.check(id, asker.conn),
        _ => server.check(&UaBytes::null(), asker.conn),
    }
}

/// The session of a token, if it is bound to the connection. The request is its last one.
fn bound(server: &mut ServerData, asker: Asker, token: &NodeId) -> Result<u32, u32>
    ensures answer { result ≡ bound_answer (token_at token.now) asker.conn server.old.sessions }
    ensures after { server.new ≡ noted asker (token_at token.now) server.old }
{
    match token {
        NodeId::Opaque { namespace: 0, id } => server.bound(id, asker.conn),
        _ => server.bound(&UaBytes::null(), asker.conn),
    }
}

// ---- which service

/// Answers a request of monitored items or subscriptions.
#[tactic(auto, unfolding(server_rules::specs::Requests::sub_served))]
fn serve_sub(
    alloc: Global,
    server: &mut ServerData,
    asker: Asker,
    session: u32,
    request: &SubRequest,
    to: &mut Vec<(u32, Order)>,
) -> Result<(), OutOfMemory>
    ensures state { OnOk result (server.new ≡ (sub_served asker request.now session server.old).state) }
    ensures orders { OnOk result
        (to.new.items ≡ to.old.items ++ orders_of (sub_served asker request.now session server.old).said) }
{
    match request {
        SubRequest::CreateMonitoredItems(request) => {
            server_items::create_items(alloc, server, asker, session, request, to)
        }
        SubRequest::SetMonitoringMode(request) => {
            server_items::set_modes(alloc, server, asker, session, request, to)
        }
        SubRequest::DeleteMonitoredItems(request) => {
            server_items::delete_items(alloc, server, asker, session, request, to)
        }
        SubRequest::CreateSubscription(request) => {
            server_items::create_sub(alloc, server, asker, session, request, to)
        }
        SubRequest::ModifySubscription(request) => {
            server_items::modify_sub(alloc, server, asker, session, request, to)
        }
        SubRequest::SetPublishingMode(request) => {
            server_items::set_publishing(alloc, server, asker, session, request, to)
        }
        SubRequest::Publish(request) => server.publish(alloc, asker, session, request, to),
        SubRequest::Republish(request) => {
            server_items::republish(alloc, server, asker, session, request, to)
        }
        SubRequest::TransferSubscriptions(request) => {
            server_items::transfer_subs(alloc, server, asker, session, request, to)
        }
        SubRequest::DeleteSubscriptions(request) => {
            server_items::delete_subs(alloc, server, asker, session, request, to)
        }
    }
}

/// Answers a request of monitored items or subscriptions for the session of its token.
fn serve_sub_of(
    alloc: Global,
    server: &mut ServerData,
    asker: Asker,
    token: &NodeId,
    request: &SubRequest,
    to: &mut Vec<(u32, Order)>,
) -> Result<(), OutOfMemory>
    ensures state { OnOk result
        (server.new ≡ (in_session (sub_served asker request.now) asker (token_at token.now) server.old).state) }
    ensures orders { OnOk result (to.new.items ≡ to.old.items
        ++ orders_of (in_session (sub_served asker request.now) asker (token_at token.now) server.old).said) }
{
    match check(server, asker, token) {
        Ok(session) => serve_sub(alloc, server, asker, session, request, to),
        Err(code) => server.fault(alloc, asker, code, to),
    }
}

/// Closes the session of its token.
fn serve_close(
    alloc: Global,
    server: &mut ServerData,
    asker: Asker,
    request: &CloseSessionRequest,
    to: &mut Vec<(u32, Order)>,
) -> Result<(), OutOfMemory>
    ensures state { OnOk result
        (server.new ≡ (close_served asker request.now server.old).state) }
    ensures orders { OnOk result
        (to.new.items ≡ to.old.items ++ orders_of (close_served asker request.now server.old).said) }
{
    match bound(server, asker, &request.request_header.authentication_token) {
        Ok(session) => session::close(alloc, server, asker, session, request, to),
        Err(code) => server.fault(alloc, asker, code, to),
    }
}

/// Reads for the session of its token.
fn serve_read(
    alloc: Global,
    server: &mut ServerData,
    asker: Asker,
    request: &ReadRequest,
    to: &mut Vec<(u32, Order)>,
) -> Result<(), OutOfMemory>
    ensures state { OnOk result (server.new ≡ (read_served asker request.now server.old).state) }
    ensures orders { OnOk result
        (to.new.items ≡ to.old.items ++ orders_of (read_served asker request.now server.old).said) }
{
    match check(server, asker, &request.request_header.authentication_token) {
        Ok(_) => server_items::read(alloc, server, asker, request, to),
        Err(code) => server.fault(alloc, asker, code, to),
    }
}

/// Calls for the session of its token.
fn serve_call(
    alloc: Global,
    server: &mut ServerData,
    asker: Asker,
    request: &CallRequest,
    to: &mut Vec<(u32, Order)>,
) -> Result<(), OutOfMemory>
    ensures state { OnOk result (server.new ≡ (call_served asker request.now server.old).state) }
    ensures orders { OnOk result
        (to.new.items ≡ to.old.items ++ orders_of (call_served asker request.now server.old).said) }
{
    match check(server, asker, &request.request_header.authentication_token) {
        Ok(session) => server_items::call(alloc, server, asker, session, request, to),
        Err(code) => server.fault(alloc, asker, code, to),
    }
}

/// Answers a request of channels, discovery, sessions, Read or Call.
#[tactic(auto, unfolding(server_rules::specs::Requests::session_served))]
fn serve_session(
    alloc: Global,
    server: &mut ServerData,
    asker: Asker,
    request: &SessionRequest,
    to: &mut Vec<(u32, Order)>,
) -> Result<(), OutOfMemory>
    ensures state { OnOk result (server.new ≡ (session_served asker request.now server.old).state) }
    ensures orders { OnOk result
        (to.new.items ≡ to.old.items ++ orders_of (session_served asker request.now server.old).said) }
{
    match request {
        SessionRequest::OpenSecureChannel(_) | SessionRequest::CloseSecureChannel(_) => {
            server.fault(alloc, asker, BAD_SERVICE_UNSUPPORTED, to)
        }
        SessionRequest::FindServers(request) => find_servers(alloc, server, asker, request, to),
        SessionRequest::GetEndpoints(request) => get_endpoints(alloc, server, asker, request, to),
        SessionRequest::CreateSession(request) => {
            session::create(alloc, server, asker, request, to)
        }
        SessionRequest::ActivateSession(request) => {
            session::activate(alloc, server, asker, request, to)
        }
        SessionRequest::CloseSession(request) => serve_close(alloc, server, asker, request, to),
        SessionRequest::Read(request) => serve_read(alloc, server, asker, request, to),
        SessionRequest::Call(request) => serve_call(alloc, server, asker, request, to),
    }
}

/// Answers a request.
#[tactic(auto, unfolding(server_rules::specs::Requests::served))]
fn serve(
    alloc: Global,
    server: &mut ServerData,
    asker: Asker,
    request: &Request,
    to: &mut Vec<(u32, Order)>,
) -> Result<(), OutOfMemory>
    ensures state { OnOk result (server.new ≡ (served asker request.now server.old).state) }
    ensures orders { OnOk result (to.new.items ≡ to.old.items ++ orders_of (served asker request.now server.old).said) }
{
    let token = &request.header().authentication_token;
    match request {
        Request::Session(request) => serve_session(alloc, server, asker, request, to),
        Request::Subscription(request) => serve_sub_of(alloc, server, asker, token, request, to),
    }
}

// ---- a message

fn asker(conn: u32, request: u32, handle: u32) -> Asker
    ensures { result ≡ rules.asker_of conn request handle }
{
    Asker {
        conn,
        request,
        handle,
    }
}

/// Answers what was read of a body. One that is no request is answered with the handle, as far as that is known.
fn answer(
    alloc: Global,
    server: &mut ServerData,
    conn: u32,
    number: u32,
    read: &Result<Request, RequestFault>,
    to: &mut Vec<(u32, Order)>,
) -> Result<(), OutOfMemory>
    ensures state { (told : Result Request RequestFault) → Asks read.now told
        → OnOk result (server.new ≡ (rules.asked conn number told server.old).state) }
    ensures orders { (told : Result Request RequestFault) → Asks read.now told
        → OnOk result (to.new.items ≡ to.old.items ++ orders_of (rules.asked conn number told server.old).said) }
{
    match read {
        Ok(request) => {
            let handle = request.header().request_handle;
            serve(alloc, server, asker(conn, number, handle), request, to)
        }
        Err(RequestFault::Header) => {
            server.fault(alloc, asker(conn, number, 0), BAD_DECODING_ERROR, to)
        }
        Err(RequestFault::Service { handle }) => {
            server.fault(
                alloc,
                asker(conn, number, *handle),
                BAD_SERVICE_UNSUPPORTED,
                to,
            )
        }
        Err(RequestFault::Body { handle }) => {
            server.fault(alloc, asker(conn, number, *handle), BAD_DECODING_ERROR, to)
        }
        Err(RequestFault::OutOfMemory) => Err(OutOfMemory),
    }
}

/// Answers the message of this number on a connection's channel.
#[tactic(auto, unfolding(server_rules::specs::Requests::requested))]
pub(crate) fn requested(
    alloc: Global,
    server: &mut ServerData,
    conn: u32,
    number: u32,
    body: &[u8],
    to: &mut Vec<(u32, Order)>,
) -> Result<(), OutOfMemory>
    ensures state { OnOk result (server.new ≡ (rules.requested conn number body.now server.old).state) }
    ensures orders { OnOk result
        (to.new.items ≡ to.old.items ++ orders_of (rules.requested conn number body.now server.old).said) }
{
    let read = read_request(alloc, body);
    let answered = answer(alloc, server, conn, number, &read, to);
    drop(read);
    answered
}
