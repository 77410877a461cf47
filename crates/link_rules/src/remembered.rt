/// An item that a subscription monitors: the client's number, which is its node's number and its handle, and the
/// server's id.
#[derive(Clone, Copy, Debug, PartialEq, Eq)]
pub struct Monitored {
    pub item: u8,
    pub id: u32,
}

/// A subscription of the server, known over lost connections.
#[derive(Clone, Copy, Debug, PartialEq, Eq)]
pub struct Remembered {
    /// The server's id of it.
    pub id: u32,
    /// The number of its next message (OPC 10000-4, 5.13.1.1).
    pub next: u32,
}
