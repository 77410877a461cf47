//! Connections: how they come and go, and what is heard on them.

ghost use Rattle.std.specs.Prelude.{◌≡◌, ◌++◌, [], false, OnOk};
ghost use Rattle.ua_channel.specs.State.{is_deaf};
ghost use Rattle.server_rules.specs.Connecting.{acknowledged, acknowledgement, closed, closing, first_ear, greeting, is_above, is_small};
ghost use Rattle.server_rules.specs.Connecting.{hears_on, hears, limit_with, limits_of, new_conn, opened};
ghost use Rattle.server_rules.specs.Said.{orders_of};
ghost use Rattle.server_rules.specs.Step.{ears, fed, leveled};
ghost use Rattle.server_rules.specs.Step as step;

use crate::opening;
use crate::requests::requested;
use server_rules::Conn;
use server_subs::ServerData;
use set_model::Change;
use std::alloc::Global;
use ua_base::OutOfMemory;
use ua_base::status::BAD_DECODING_ERROR;
use ua_channel::{Ear, Heard, Limits, Order, Wire};
use ua_chunks::{Greeting, Kind, Sender, ack_body, read_hello};
use ua_values::ValueFault;

/// How many connections are heard at a time.
const MOST_CONNS: usize = 32;

/// The size of frames that each end takes (OPC 10000-6, 7.1.2.3).
const LEAST_FRAME: u32 = 8192;

// ---- connections

/// What the end of this connection takes next; nothing where the connection isn't there.
pub(crate) fn ear(server: &ServerData, number: u32) -> Ear
    ensures { result ≡ ears number server.now }
{
    match server.conn(number) {
        Some(conn) => conn.ear,
        None => Ear::Deaf,
    }
}

/// Whether a number is above the highest one.
pub(crate) fn is_above(highest: Option<u32>, number: u32) -> bool
    ensures { result ≡ is_above highest number }
{
    match highest {
        Some(highest) => highest < number,
        None => true,
    }
}

/// What a further connection takes next, beside so many.
fn first_ear(server: &ServerData) -> Ear
    ensures { result ≡ first_ear server.now.conns }
{
    if server.conn_count() < MOST_CONNS {
        Ear::Hello
    } else {
        Ear::Deaf
    }
}

/// A connection as it begins.
fn new_conn(number: u32, ear: Ear) -> Conn
    ensures { result ≡ new_conn number ear }
{
    Conn {
        number,
        ear,
        limit: Sender::new(0, 0, LEAST_FRAME, 0, 0).most_body(),
        channel: 0,
        token: 0,
    }
}

/// A connection is opened. One whose number isn't above those before is none.
#[tactic(auto, unfolding(server_rules::specs::Connecting::opened))]
pub(crate) fn open(server: &mut ServerData, number: u32) -> Result<(), OutOfMemory>
    ensures state { OnOk result (server.new ≡ (opened number server.old).state) }
    ensures silent { (opened number server.old).said ≡ [] }
{
    if is_above(server.highest(), number) {
        let ear = first_ear(server);
        server.add_conn(new_conn(number, ear))?;
    }
    Ok(())
}

/// A connection ended.
#[tactic(auto, unfolding(server_rules::specs::Connecting::closed))]
pub(crate) fn close(server: &mut ServerData, number: u32)
    ensures state { server.new ≡ (closed number server.old).state }
    ensures silent { (closed number server.old).said ≡ [] }
{
    if server.conn(number).is_some() {
        server.drop_conn(number);
        server.unbind(number);
    }
}

// ---- what is heard

/// Whether a HEL names frames that are too small.
fn is_small(hello: &Greeting) -> bool
    ensures { result ≡ is_small hello.now }
{
    hello.receive < LEAST_FRAME || hello.send < LEAST_FRAME
}

/// What answers a HEL (OPC 10000-6, 7.1.2.4).
fn acknowledgement(hello: &Greeting) -> Greeting
    ensures { result ≡ acknowledgement hello.now }
{
    Greeting {
        version: 0,
        receive: hello.send.min(65_536),
        send: hello.receive.min(65_536),
        max_message: 1_048_576,
        max_chunks: 64,
    }
}

/// How many bytes of a body an end puts to one that names these sizes.
fn limit_of(hello: &Greeting) -> usize
    requires { is_small hello.now ≡ false }
    ensures { result ≡ limit_with (limits_of hello.now) }
{
    Sender::new(0, 0, hello.receive, hello.max_message, hello.max_chunks).most_body()
}

/// The sizes that a HEL names, which its sender takes.
fn limits_of(hello: &Greeting) -> Limits
    requires { is_small hello.now ≡ false }
    ensures { result ≡ limits_of hello.now }
{
    Limits::new(hello.receive, hello.max_message, hello.max_chunks)
}

/// Takes the sizes of a HEL, and acknowledges it.
#[tactic(auto, unfolding(server_rules::specs::Connecting::acknowledged))]
fn acknowledge(
    alloc: Global,
    server: &mut ServerData,
    hello: &Greeting,
    conn: Conn,
    to: &mut Vec<(u32, Order)>,
) -> Result<(), OutOfMemory>
    requires { is_small hello.now ≡ false }
    ensures state { OnOk result (server.new ≡ (acknowledged hello.now conn server.old).state) }
    ensures orders { OnOk result (to.new.items ≡ to.old.items ++ orders_of (acknowledged hello.now conn server.old).said) }
{
    let body = ack_body(alloc, &acknowledgement(hello))?;
    to.push((conn.number, Order::Limit(limits_of(hello))))?;
    to.push((
        conn.number,
        Order::Put(Wire::new(Kind::Ack, conn.channel, conn.token, 0, body)),
    ))?;
    server.put_conn(Conn {
        ear: Ear::Opening,
        limit: limit_of(hello),
        ..conn
    });
    Ok(())
}

/// Hears a HEL (OPC 10000-6, 7.1.2.3).
#[tactic(auto, unfolding(server_rules::specs::Connecting::greeting))]
fn greeting(
    alloc: Global,
    server: &mut ServerData,
    body: &[u8],
    conn: Conn,
    to: &mut Vec<(u32, Order)>,
) -> Result<(), OutOfMemory>
    ensures state { OnOk result (server.new ≡ (greeting body.now conn server.old).state) }
    ensures orders { OnOk result (to.new.items ≡ to.old.items ++ orders_of (greeting body.now conn server.old).said) }
{
    match read_hello(alloc, body) {
        Ok((hello, _url)) => {
            if is_small(&hello) {
                server.refuse(alloc, conn, BAD_DECODING_ERROR, to)
            } else {
                acknowledge(alloc, server, &hello, conn, to)
            }
        }
        Err(ValueFault::OutOfMemory) => Err(OutOfMemory),
        Err(_) => server.refuse(alloc, conn, BAD_DECODING_ERROR, to),
    }
}

/// Hears a CLO, which is not answered (OPC 10000-6, 7.1.4).
#[tactic(auto, unfolding(server_rules::specs::Connecting::closing))]
fn end(server: &mut ServerData, conn: Conn)
    ensures state { server.new ≡ (closing conn server.old).state }
    ensures silent { (closing conn server.old).said ≡ [] }
{
    server.put_conn(Conn {
        ear: Ear::Deaf,
        ..conn
    });
}

/// Hears something on a connection.
fn hear_on(
    alloc: Global,
    server: &mut ServerData,
    heard: &Heard,
    conn: Conn,
    to: &mut Vec<(u32, Order)>,
) -> Result<(), OutOfMemory>
    ensures state { OnOk result (server.new ≡ (hears_on heard.now conn server.old).state) }
    ensures orders { OnOk result (to.new.items ≡ to.old.items ++ orders_of (hears_on heard.now conn server.old).said) }
{
    match heard {
        Heard::Greeting { body } => greeting(alloc, server, body.bytes(), conn, to),
        Heard::Opening {
            channel,
            follows,
            request,
            body,
        } => opening::open(
            alloc,
            server,
            *channel,
            *follows,
            *request,
            body.bytes(),
            conn,
            to,
        ),
        Heard::Message { request, body } => {
            requested(alloc, server, conn.number, *request, body.bytes(), to)
        }
        Heard::Close => {
            end(server, conn);
            Ok(())
        }
        Heard::Fault { code } => server.refuse(alloc, conn, *code, to),
    }
}

/// Hears something; nothing where the connection isn't there.
#[tactic(auto, unfolding(server_rules::specs::Connecting::hears))]
fn hear_at(
    alloc: Global,
    server: &mut ServerData,
    number: u32,
    heard: &Heard,
    to: &mut Vec<(u32, Order)>,
) -> Result<(), OutOfMemory>
    ensures state { OnOk result (server.new ≡ (hears number heard.now server.old).state) }
    ensures orders { OnOk result (to.new.items ≡ to.old.items ++ orders_of (hears number heard.now server.old).said) }
{
    match server.conn(number) {
        Some(conn) => hear_on(alloc, server, heard, conn, to),
        None => Ok(()),
    }
}

/// Hears something; a deaf connection hears nothing.
#[tactic(auto, unfolding(server_rules::specs::Step::heard))]
pub(crate) fn hear(
    alloc: Global,
    server: &mut ServerData,
    number: u32,
    heard: &Heard,
    to: &mut Vec<(u32, Order)>,
) -> Result<(), OutOfMemory>
    ensures state { OnOk result (server.new ≡ (step.heard number heard.now server.old).state) }
    ensures orders { OnOk result (to.new.items ≡ to.old.items ++ orders_of (step.heard number heard.now server.old).said) }
{
    if ear(server, number).is_deaf() {
        Ok(())
    } else {
        hear_at(alloc, server, number, heard, to)
    }
}

// ---- the rest

/// An item has a new value.
#[tactic(auto, unfolding(server_rules::specs::Step::fed))]
pub(crate) fn feed(server: &mut ServerData, change: Change) -> Result<(), OutOfMemory>
    ensures state { OnOk result (server.new ≡ (fed change server.old).state) }
    ensures silent { (fed change server.old).said ≡ [] }
{
    server.feed(change)
}

/// Sets the ServiceLevel.
#[tactic(auto, unfolding(server_rules::specs::Step::leveled))]
pub(crate) fn set_level(server: &mut ServerData, level: u8)
    ensures state { server.new ≡ (leveled level server.old).state }
    ensures silent { (leveled level server.old).said ≡ [] }
{
    server.set_level(level);
}
