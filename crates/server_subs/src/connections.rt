//! The connections of a server.

ghost use Rattle.std.specs.Prelude.{◌≡◌, ◌++◌, ◌∷◌, [], filter, length, map, not, OnOk, Some};
ghost use Rattle.server_rules.specs.State.{conn_at, is_conn, renewed_conn, with_conn};

use crate::data::ServerData;
use server_rules::Conn;
use ua_base::OutOfMemory;

/// Puts a connection in the place of one, where that has its number.
fn renew(known: &mut Conn, conn: Conn)
    ensures { known.new ≡ renewed_conn conn known.old }
{
    if known.number == conn.number {
        *known = conn;
    }
}

/// Puts a connection in the place of the one of its number.
fn renew_all(conns: &mut Vec<Conn>, conn: Conn)
    ensures { conns.new.items ≡ map (renewed_conn conn) conns.old.items }
{
    for known in conns.iter_mut() {
        renew(known, conn);
    }
}

/// The connection of a number.
fn conn_in(conns: &[Conn], number: u32) -> Option<Conn>
    ensures { result ≡ conn_at number conns.now }
{
    conns.iter().copied().find(|conn| conn.number == number)
}

/// Drops the connection of a number.
fn drop_in(conns: &mut Vec<Conn>, number: u32)
    ensures { conns.new.items ≡ filter (λ conn. not (is_conn number conn)) conns.old.items }
{
    conns.retain(|conn| conn.number != number);
}

impl ServerData {
    /// The connection of a number.
    pub fn conn(&self, number: u32) -> Option<Conn>
        ensures { result ≡ conn_at number self.now.conns }
    {
        conn_in(&self.conns, number)
    }

    /// Puts a connection in the place of the one of its number.
    pub fn put_conn(&mut self, conn: Conn)
        ensures { self.new ≡ with_conn conn self.old }
    {
        renew_all(&mut self.conns, conn);
    }

    /// How many connections there are.
    pub fn conn_count(&self) -> usize
        ensures { result ≡ length self.now.conns }
    {
        self.conns.len()
    }

    /// The highest number of a connection that was opened.
    pub fn highest(&self) -> Option<u32>
        ensures { result ≡ self.now.highest }
    {
        self.highest
    }

    /// Adds a connection behind the others; its number is then the highest.
    pub fn add_conn(&mut self, conn: Conn) -> Result<(), OutOfMemory>
        ensures { OnOk result (self.new ≡ record self.old {
          highest = Some conn.number;
          conns = self.old.conns ++ conn ∷ [];
        }) }
    {
        self.conns.push(conn)?;
        self.highest = Some(conn.number);
        Ok(())
    }

    /// Removes the connection of a number.
    pub fn drop_conn(&mut self, number: u32)
        ensures { self.new ≡ record self.old { conns = filter (λ conn. not (is_conn number conn)) self.old.conns } }
    {
        drop_in(&mut self.conns, number);
    }

    /// How many ids of secure channels were given.
    pub fn channels_given(&self) -> u32
        ensures { result ≡ self.now.channels_given }
    {
        self.channels_given
    }

    /// Sets how many ids of secure channels were given.
    pub fn set_channels_given(&mut self, channels_given: u32)
        ensures { self.new ≡ record self.old { channels_given = channels_given } }
    {
        self.channels_given = channels_given;
    }
}
