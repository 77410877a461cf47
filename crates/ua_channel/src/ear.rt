ghost use Rattle.std.specs.Prelude.{◌≡◌};
ghost use Rattle.ua_channel.specs.Hearing.{takes};
ghost use Rattle.ua_channel.specs.State.{is_deaf};

use ua_chunks::Kind;

/// Which frames an end takes next (OPC 10000-6, 7.1.3). Another one is a fault.
#[derive(Clone, Copy, Debug, PartialEq, Eq)]
pub enum Ear {
    /// A HEL, as a server does first.
    Hello,
    /// The ACK that answers it.
    Acknowledge,
    /// The OPN that opens the channel.
    Opening,
    /// MSG, CLO, and the OPN of a renewal.
    Open,
    /// None, and no byte either: nothing comes of what the other end sends.
    Deaf,
}

impl Ear {
    /// Whether nothing is heard.
    pub fn is_deaf(self) -> bool
        ensures { result ≡ is_deaf self }
    {
        match self {
            Ear::Hello | Ear::Acknowledge | Ear::Opening | Ear::Open => false,
            Ear::Deaf => true,
        }
    }

    /// Whether a frame of this kind is taken.
    pub fn takes(self, kind: Kind) -> bool
        ensures { result ≡ takes self kind }
    {
        match (self, kind) {
            (Ear::Hello, Kind::Hel) => true,
            (Ear::Acknowledge, Kind::Ack) => true,
            (Ear::Opening, Kind::Opn) => true,
            (Ear::Open, Kind::Opn | Kind::Msg | Kind::Clo) => true,
            _ => false,
        }
    }
}
