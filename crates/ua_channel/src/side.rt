/// Which side of a connection an end is: it judges an OPN otherwise (OPC 10000-6, 6.7.4).
#[derive(Clone, Copy, Debug, PartialEq, Eq)]
pub enum Side {
    /// The end of a client. What its server answers to an OPN is told by the ids in the reply's body, so neither the
    /// security policy nor the channel in front of it is looked at.
    Client,
    /// The end of a server. It takes an OPN of the security policy None alone.
    Server,
}
