ghost use Rattle.std.specs.Prelude.{◌≡◌};

use std::marker::Model;

/// Some bytes of a connection's stream, in the order in which they came.
#[derive(Debug, Drop)]
pub struct Piece {
    bytes: Vec<u8>,
}

impl Model for Piece {
    ghost use Rattle.std.specs.Prelude.{List, ℕ};

    ghost Value = { List ℕ };

    ghost view = { λ p. p.bytes.items };
}

impl Piece {
    /// These bytes. It takes no memory.
    pub fn new(bytes: Vec<u8>) -> Piece
        ensures { result ≡ bytes.items }
    {
        Piece { bytes }
    }

    /// The bytes.
    pub fn as_slice(&self) -> &[u8]
        ensures { result.now ≡ self.now }
    {
        self.bytes.as_slice()
    }
}

/// What happens to a client. Servers are numbered from 1 on, in the order of their urls.
#[derive(Debug, Drop)]
pub enum ClientEvent {
    /// A connection to a server was made.
    Opened { server: u8 },
    /// None could be made.
    Refused { server: u8 },
    /// Some bytes of a server came.
    Bytes { server: u8, bytes: Piece },
    /// The connection to a server ended, by either side.
    Closed { server: u8 },
    /// So many milliseconds passed.
    Tick { ms: u32 },
}
