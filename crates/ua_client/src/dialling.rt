//! Which links may dial: in hot and warm all, in cold one at a time.

ghost use Rattle.std.specs.Prelude.{◌≡◌, IfSome, length};
ghost use Rattle.client_rules.specs.Dialling.{are_idle, dialled, dialled_by, dials_among, dials_at, dials_one, first_to_dial};
ghost use Rattle.ua_client.specs.Standing.{HasServer};

use crate::client_core::ClientCore;
use ua_base::SetMode;

fn dial_at(client: &mut ClientCore, server: u8)
    requires { HasServer server client.old }
    ensures state { client.new ≡ dials_at server client.old }
    ensures links { length client.new.links ≡ length client.old.links }
{
    if client.link(server).may_dial() {
        client.dial(server);
    }
}

/// Lets each link dial that may.
#[tactic(auto, using(crate::proofs::Counting::dials_none, crate::proofs::Counting::dials_next))]
fn dial_all(client: &mut ClientCore)
    ensures { client.new ≡ dials_among (length client.old.links) client.old }
{
    for before in 0..client.count() {
        dial_at(client, before + 1);
    }
}

/// Whether no link has a connection.
#[tactic(auto, using(crate::proofs::Counting::idle_none, crate::proofs::Counting::idle_next))]
fn are_idle(client: &ClientCore) -> bool
    ensures { result ≡ are_idle (length client.now.links) client.now }
{
    let mut idle = true;
    for before in 0..client.count() {
        idle = idle && client.link(before + 1).is_idle();
    }
    idle
}

/// The first of so many servers from one on, around the ring, that may dial.
#[tactic(auto, using(crate::proofs::Counting::first_none, crate::proofs::Counting::first_some))]
fn first_to_dial(client: &ClientCore, count: u8, server: u8) -> Option<u8>
    requires { HasServer server client.now }
    ensures server { result ≡ first_to_dial count server client.now }
    ensures has { IfSome result (λ server. HasServer server client.now) }
{
    if count == 0 {
        return None;
    }
    if client.link(server).may_dial() {
        Some(server)
    } else {
        first_to_dial(client, count - 1, client.after(server))
    }
}

/// Lets the first link dial from the cursor on, where none has a connection.
fn dial_one(client: &mut ClientCore)
    ensures { client.new ≡ dials_one client.old }
{
    if are_idle(client) {
        if let Some(server) = first_to_dial(client, client.count(), client.cursor()) {
            dial_at(client, server);
        }
    }
}

/// Lets those links dial that may by the client's mode.
fn dial_by_mode(client: &mut ClientCore)
    ensures { client.new ≡ dialled_by client.old.config.mode client.old }
{
    match client.mode() {
        SetMode::Hot | SetMode::Warm => dial_all(client),
        SetMode::Cold => dial_one(client),
        SetMode::Direct => {}
    }
}

/// The end of an event. Once all numbers of connections are used up nobody is dialled.
#[tactic(auto, unfolding(client_rules::specs::Dialling::dialled))]
pub(crate) fn dial(client: &mut ClientCore)
    ensures { client.new ≡ dialled client.old }
{
    if client.dials() < u64::from(u32::MAX) {
        dial_by_mode(client);
    }
}
