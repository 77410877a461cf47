use ua_base::Mode;

/// What a link is made with.
#[derive(Clone, Copy, Debug, PartialEq, Eq)]
pub struct LinkConfig {
    /// How many items it monitors, from 1 to 64: numeric nodes of namespace 2, by their numbers from 1 on.
    pub items: u8,
    /// How many values of an item may wait at the server, from 2 to 1000.
    pub queue: u32,
    /// Whether the oldest value makes room in a full queue; else the newest does (OPC 10000-4, 7.16).
    pub oldest: bool,
    /// How its items are made: Sampling in a hot set, Disabled in a warm one, and Reporting in a cold one (OPC 10000-4,
    /// 6.6.2.4.5).
    pub rest: Mode,
    /// When the client started: a DateTime, in steps of 100 ns since 1601-01-01 (OPC 10000-6, 5.2.2.5).
    pub start: i64,
}
