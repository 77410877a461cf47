/// A request that isn't answered yet.
#[derive(Clone, Copy, Debug, PartialEq, Eq)]
pub struct Asked {
    /// Its handle, which its reply has too (OPC 10000-4, 7.33).
    pub handle: u32,
    /// When it was sent, in milliseconds of the client's age.
    pub at: u64,
}

/// What counts on one connection, and begins anew with the next.
#[derive(Clone, Copy, Debug, PartialEq, Eq)]
pub struct Conversation {
    /// The id of the secure channel and its newest token; both are 0 before it is opened (OPC 10000-4, 5.5.2).
    pub channel: u32,
    /// See `channel`.
    pub token: u32,
    /// How many bytes of a body the server takes.
    pub limit: usize,
    /// The handle of the last request, which is also its id on the channel; 0 before the first.
    pub last: u32,
    /// When the channel was opened or its token renewed last, in milliseconds of the client's age.
    pub opened: u64,
    /// How long the token is good from then on, in milliseconds.
    pub lifetime: u32,
    /// A renewal of the token that isn't answered.
    pub renewal: Option<Asked>,
    /// A Read of the ServiceLevel that isn't answered, beside that by which a connection begins.
    pub reading: Option<Asked>,
    /// When the last Read was sent, in milliseconds of the client's age.
    pub read_at: u64,
}
