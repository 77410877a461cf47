use ua_base::{Mode, Timestamps};

/// How many monitored items a subscription has at the most.
pub const MOST_ITEMS: usize = 1024;

/// What a subscription is made with, after the server has revised it (OPC 10000-4, 5.13.2).
#[derive(Clone, Copy, Debug, PartialEq, Eq)]
pub struct SubSpec {
    /// Its id.
    pub id: u32,
    /// The publishing interval, in milliseconds.
    pub interval: u32,
    /// The maximum keep-alive count: after so many cycles without a message a keep-alive is sent.
    pub keep_alive: u32,
    /// The lifetime count: after so many cycles without a Publish request the subscription ends.
    pub lifetime: u32,
    /// The most notifications that one message has (maxNotificationsPerPublish). With 0 none are sent.
    pub most: u32,
    /// Whether publishing is enabled.
    pub enabled: bool,
}

/// What a monitored item is made with, after the server has revised it (OPC 10000-4, 5.12.2).
#[derive(Clone, Copy, Debug, PartialEq, Eq)]
pub struct ItemSpec {
    /// The number of the item's node, which is that of its changes.
    pub node: u8,
    /// The client's handle, which stands beside each of its values.
    pub handle: u32,
    /// Its monitoring mode.
    pub mode: Mode,
    /// How many entries its queue has, from 1 to 1,000.
    pub queue: u32,
    /// Whether its queue discards its oldest entry where it is full, or its newest.
    pub oldest: bool,
    /// Which times are sent with its values.
    pub stamps: Timestamps,
}
