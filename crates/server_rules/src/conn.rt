use ua_channel::Ear;

/// What a server knows of a connection, beside its end's bytes.
#[derive(Clone, Copy, Debug, PartialEq, Eq)]
pub struct Conn {
    /// Its number, under which it was opened.
    pub number: u32,
    /// What is taken next; a connection that is deaf is to be closed once its bytes are taken.
    pub ear: Ear,
    /// How many bytes of a body the other end takes.
    pub limit: usize,
    /// The id of its secure channel and its newest token; both are 0 before the channel is opened (OPC 10000-4,
    /// 5.5.2).
    pub channel: u32,
    /// See `channel`.
    pub token: u32,
}

/// Who is to be answered: a request of a connection, and the handle that the reply's header repeats (OPC 10000-4,
/// 7.33).
#[derive(Clone, Copy, Debug, PartialEq, Eq)]
pub struct Asker {
    /// The number of the connection.
    pub conn: u32,
    /// The id of the request on its channel.
    pub request: u32,
    /// The handle in the request's header.
    pub handle: u32,
}
