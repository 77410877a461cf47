use ua_base::Mode;
use ua_variants::DataValue;

/// What a link tells its client.
#[derive(Debug, Drop)]
pub enum Notice {
    /// It has a subscription, and its Publish requests are sent.
    Ready,
    /// It has none any more, or the connection ended, after it was ready.
    Lost,
    /// The server's redundancy is of a kind that this client doesn't use; the link dials no more.
    Unsupported,
    /// The ServiceLevel that was read (OPC 10000-4, 6.6.2.4.2).
    Level { level: u8 },
    /// The values of an item begin anew, with a new subscription.
    Stream { item: u8 },
    /// Messages are missing before those that come.
    Jump,
    /// A value of an item came.
    Taken { item: u8, value: DataValue },
    /// All items were asked to change to this mode.
    Sent { mode: Mode },
    /// They did.
    Confirmed { mode: Mode },
}

/// What a link wishes to happen to its connection.
#[derive(Clone, Copy, Debug, PartialEq, Eq)]
pub enum Wish {
    /// Nothing.
    None,
    /// That one be made.
    Dial,
    /// That it be closed.
    Close,
}
