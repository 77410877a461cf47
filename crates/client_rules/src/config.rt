use ua_base::SetMode;
use ua_structures::UaArray;
use ua_values::UaText;

/// What a failover client is made with.
#[derive(Debug, Drop)]
pub struct ClientConfig {
    /// How it uses the set; a direct set has no such client (OPC 10000-4, 6.6.2.4.5).
    pub mode: SetMode,
    /// The urls of the servers, from 1 to 8, in the order of their numbers: the first has number 1. Each has at most 4070
    /// bytes, so that the client can append a number to it.
    pub urls: UaArray<UaText>,
    /// How many items it monitors at each server, from 1 to 64: numeric nodes of namespace 2, by their numbers from 1 on.
    pub items: u8,
    /// How many values of an item may wait at a server, from 2 to 1000.
    pub queue: u32,
    /// Whether the oldest value makes room in a full queue; else the newest does (OPC 10000-4, 7.16).
    pub oldest: bool,
    /// When it starts: a DateTime, in steps of 100 ns since 1601-01-01 (OPC 10000-6, 5.2.2.5).
    pub start: i64,
}
