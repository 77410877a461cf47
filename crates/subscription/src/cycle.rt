/// Which row of the publishing timer's table a cycle took (OPC 10000-4, 5.13.1.2).
#[derive(Clone, Copy, Debug, PartialEq, Eq)]
pub enum Cycle {
    /// Nothing is to be sent.
    Quiet,
    /// A Publish request is queued, and a data message is to be sent with it.
    Notify,
    /// A Publish request is queued, and a keep-alive is to be sent with it.
    KeepAlive,
    /// A message is to be sent, and no Publish request is queued: the next one is used at once.
    Late,
    /// No Publish request came for the lifetime count: the subscription ends.
    Expired,
}
