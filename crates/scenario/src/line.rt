use set_model::Change;
use ua_base::SetMode;

/// One line of a scenario.
#[derive(Clone, Copy, Debug, PartialEq, Eq)]
pub enum Line {
    /// The first line: how the client uses the set, and how many servers it has.
    Set { mode: SetMode, servers: u8 },
    /// The second line: how many items each server has, how many entries an item's queue holds, and whether a full one
    /// discards its oldest entry (DiscardOldest, OPC 10000-4, 5.12.1.5) or its newest.
    Items { items: u8, queue: u32, oldest: bool },
    /// The source changes.
    Change { change: Change },
    /// The server is fed the next `count` changes of the source, or as many as there are.
    Feed { server: u8, count: u32 },
    /// The client takes up to `count` entries of each queue of the server.
    Take { server: u8, count: u32 },
    /// So many milliseconds pass.
    Tick { ms: u32 },
    /// So many rounds: in each, links are made and closed as the client wishes, and what is in flight arrives.
    Pass { rounds: u32 },
    /// From now on bytes arrive in pieces of at most so many.
    Piece { bytes: u32 },
    /// The server's service level (OPC 10000-4, 6.6.2).
    Level { server: u8, level: u8 },
    /// The server stops.
    Stop { server: u8 },
    /// The server starts again, with one more in its boot number.
    Start { server: u8 },
    /// The link between the client and the server ends, and what is in flight on it is lost.
    Cut { server: u8 },
    /// The link ends: what is in flight to the server still arrives, and what is in flight to the client is lost.
    Half { server: u8 },
    /// Rounds leave the server out until it is freed. The end of a link or of the server's life doesn't free it.
    Hold { server: u8 },
    /// Rounds take the server in again.
    Free { server: u8 },
    /// The next listener of the pool listens to the item.
    Listen { item: u8 },
    /// The listener of the `id`-th `listen` line no longer listens.
    Unlisten { id: u8 },
    /// The last line.
    End,
}
