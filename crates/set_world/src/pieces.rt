//! What comes in pieces.

ghost use Rattle.std.specs.Prelude.{◌≡◌, ◌≤◌, OnOk};
ghost use Rattle.client_cuts.specs.Resting.{IsAtRest};
ghost use Rattle.ua_client.specs.declared.event.ClientEvent.TheVariants as learned;
ghost use Rattle.ua_client.specs.Step as learning;
ghost use Rattle.ua_server.specs.declared.event.ServerEvent.TheVariants as served;
ghost use Rattle.ua_server.specs.Step as serving;

use std::alloc::Global;
use ua_base::OutOfMemory;
use ua_client::{Client, ClientEvent};
use ua_server::{Server, ServerEvent};

/// Gives a server one piece.
fn give_server(alloc: Global, life: &mut Server, conn: u32, piece: &[u8]) -> Result<(), OutOfMemory>
    ensures { OnOk result (life.new.bytes ≡ serving.stepped (served.Bytes conn piece.now) life.old.bytes) }
{
    let bytes = Vec::from_slice(alloc, piece)?;
    let bytes = ua_server::Piece::new(bytes);
    life.step(alloc, &ServerEvent::Bytes { conn, bytes })
}

/// Gives a server bytes in pieces of this size.
#[tactic(auto, using(crate::proofs::Cuts::server_cut))]
fn serve_each(
    alloc: Global,
    life: &mut Server,
    conn: u32,
    bytes: &[u8],
    size: usize,
) -> Result<(), OutOfMemory>
    requires { 1 ≤ size }
    ensures { OnOk result (life.new.bytes ≡ serving.stepped (served.Bytes conn bytes.now) life.old.bytes) }
{
    let mut rest = bytes;
    while rest.len() > size {
        let (piece, later) = rest.split_at(size);
        give_server(alloc, life, conn, piece)?;
        rest = later;
    }
    give_server(alloc, life, conn, rest)
}

/// Gives a server bytes in pieces of at most this size.
pub(crate) fn serve(
    alloc: Global,
    life: &mut Server,
    conn: u32,
    bytes: Vec<u8>,
    size: usize,
) -> Result<(), OutOfMemory>
    requires { 1 ≤ size }
    ensures { OnOk result (life.new.bytes ≡ serving.stepped (served.Bytes conn bytes.items) life.old.bytes) }
{
    if bytes.len() > size {
        return serve_each(alloc, life, conn, &bytes, size);
    }
    let bytes = ua_server::Piece::new(bytes);
    life.step(alloc, &ServerEvent::Bytes { conn, bytes })
}

/// Gives the client one piece.
fn give_client(
    alloc: Global,
    client: &mut Client,
    server: u8,
    piece: &[u8],
) -> Result<(), OutOfMemory>
    requires { IsAtRest client.old.bytes }
    ensures bytes { OnOk result (client.new.bytes
        ≡ learning.stepped (learned.Bytes server piece.now) client.old.bytes) }
    ensures rests { OnOk result (IsAtRest client.new.bytes) }
{
    let bytes = Vec::from_slice(alloc, piece)?;
    let bytes = ua_client::Piece::new(bytes);
    client.step(alloc, &ClientEvent::Bytes { server, bytes })?;
    Ok(())
}

/// Gives the client bytes in pieces of this size.
#[tactic(auto, using(crate::proofs::Cuts::client_cut))]
pub(crate) fn learn(
    alloc: Global,
    client: &mut Client,
    server: u8,
    bytes: &[u8],
    size: usize,
) -> Result<(), OutOfMemory>
    requires size { 1 ≤ size }
    requires rests { IsAtRest client.old.bytes }
    ensures bytes { OnOk result (client.new.bytes
        ≡ learning.stepped (learned.Bytes server bytes.now) client.old.bytes) }
    ensures rests { OnOk result (IsAtRest client.new.bytes) }
{
    let mut rest = bytes;
    while rest.len() > size {
        let (piece, later) = rest.split_at(size);
        give_client(alloc, client, server, piece)?;
        rest = later;
    }
    give_client(alloc, client, server, rest)
}
