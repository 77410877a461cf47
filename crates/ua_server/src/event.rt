ghost use Rattle.std.specs.Prelude.{◌≡◌};

use set_model::Change;
use std::marker::Model;

/// Some bytes of a connection's stream, in the order in which they came.
#[derive(Debug, Drop)]
pub struct Piece {
    bytes: Vec<u8>,
}

impl Model for Piece {
    ghost use Rattle.std.specs.Prelude.{List, ℕ};

    ghost Value = { List ℕ };

    ghost view = { λ p. p.bytes.items };
}

impl Piece {
    /// These bytes. It takes no memory.
    pub fn new(bytes: Vec<u8>) -> Piece
        ensures { result ≡ bytes.items }
    {
        Piece { bytes }
    }

    /// The bytes.
    pub fn as_slice(&self) -> &[u8]
        ensures { result.now ≡ self.now }
    {
        self.bytes.as_slice()
    }
}

/// What happens to a server.
#[derive(Debug, Drop)]
pub enum ServerEvent {
    /// A connection was accepted. Its number is above those of all before it; another one has no effect.
    Opened { conn: u32 },
    /// Some bytes of a connection came. How a stream is cut into pieces makes no difference.
    Bytes { conn: u32, bytes: Piece },
    /// A connection ended, by either side.
    Closed { conn: u32 },
    /// An item's value changed.
    Feed { change: Change },
    /// So many milliseconds passed.
    Tick { ms: u32 },
    /// The ServiceLevel is this from now on (OPC 10000-4, 6.6.2.4.2).
    Level { level: u8 },
}
