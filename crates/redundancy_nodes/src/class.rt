ghost use Rattle.std.specs.Prelude.{◌≡◌};
ghost use Rattle.redundancy_nodes.specs.Class.{class_of};

/// What a server's ServiceLevel says of it (OPC 10000-4, 6.6.2.4.2).
#[derive(Clone, Copy, Debug, PartialEq, Eq)]
pub enum Class {
    /// It is in maintenance: clients stay away and come back later.
    Maintenance,
    /// It runs and has no data.
    NoData,
    /// It has data and is worse than it could be.
    Degraded,
    /// It has all of its data.
    Healthy,
}

/// The class of a ServiceLevel: 0 is Maintenance, 1 NoData, 2 to 199 Degraded, and 200 to 255 Healthy (OPC 10000-4,
/// 6.6.2.4.2).
pub fn class_of(level: u8) -> Class
    ensures { result ≡ class_of level }
{
    match level {
        0 => Class::Maintenance,
        1 => Class::NoData,
        2..=199 => Class::Degraded,
        _ => Class::Healthy,
    }
}
