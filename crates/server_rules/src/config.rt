use redundancy_nodes::Members;

/// What a life of a server begins with.
#[derive(Debug, Drop)]
pub struct ServerConfig {
    /// The number of this life, from 1 on, by which its tokens and the ids of its subscriptions differ from those of
    /// other lives.
    pub boot: u16,
    /// Which member of the set it is, from 1 on.
    pub number: u8,
    /// RedundancySupport, by its number: 0 is None, 1 Cold, 2 Warm, 3 Hot, 4 Transparent, and 5 HotAndMirrored (OPC
    /// 10000-5, 12.5).
    pub support: u8,
    /// The members of the set, from 1 to 8, in the order of their numbers.
    pub members: Members,
    /// How many items it has, from 1 to 64: numeric nodes of namespace 2.
    pub items: u8,
    /// When it started: a DateTime, in steps of 100 ns since 1601-01-01 (OPC 10000-6, 5.2.2.5).
    pub start: i64,
}
