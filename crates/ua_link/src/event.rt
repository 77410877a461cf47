ghost use Rattle.std.specs.Prelude.{◌≡◌};

use std::marker::Model;
use ua_base::Mode;
use ua_values::UaText;

/// Some bytes of a connection's stream, in the order in which they came.
#[derive(Debug, Drop)]
pub struct Piece {
    bytes: Vec<u8>,
}

impl Model for Piece {
    ghost use Rattle.std.specs.Prelude.{List, ℕ};

    ghost Value = { List ℕ };

    ghost view = { λ p. p.bytes.items };
}

impl Piece {
    /// These bytes. It takes no memory.
    pub fn new(bytes: Vec<u8>) -> Piece
        ensures { result ≡ bytes.items }
    {
        Piece { bytes }
    }

    /// The bytes.
    pub fn as_slice(&self) -> &[u8]
        ensures { result.now ≡ self.now }
    {
        self.bytes.as_slice()
    }
}

/// What happens to a link.
#[derive(Debug, Drop)]
pub enum LinkEvent {
    /// A connection to this endpoint was made.
    Opened { url: UaText },
    /// None could be made.
    Refused,
    /// The connection ended, by either side.
    Closed,
    /// Some bytes of the connection came. How a stream is cut into pieces makes no difference.
    Bytes { bytes: Piece },
    /// So many milliseconds passed.
    Tick { ms: u32 },
    /// The client wants this mode of all items.
    Wants { mode: Mode },
    /// The client wants a connection.
    Dial,
}
