ghost use Rattle.std.specs.Prelude.{◌≡◌};
ghost use Rattle.server_rules.specs.Opening.{request_type_of, security_mode_of};

/// How the messages of a channel are secured: a MessageSecurityMode (OPC 10000-4, 7.20).
#[derive(Clone, Copy, Debug, PartialEq, Eq)]
pub enum SecurityMode {
    /// They are not; on the wire 1. No other one is taken here.
    None,
    /// They are signed; on the wire 2.
    Sign,
    /// They are signed and encrypted; on the wire 3.
    SignAndEncrypt,
}

impl SecurityMode {
    /// The mode of a number on the wire; `None` where it is the number of none, which a server refuses as it does a
    /// mode that it doesn't take.
    pub fn of_number(number: i32) -> Option<SecurityMode>
        ensures { result ≡ security_mode_of number }
    {
        match number {
            1 => Some(SecurityMode::None),
            2 => Some(SecurityMode::Sign),
            3 => Some(SecurityMode::SignAndEncrypt),
            _ => None,
        }
    }
}

/// What an OPN is for (OPC 10000-4, 5.5.2.2).
#[derive(Clone, Copy, Debug, PartialEq, Eq)]
pub enum SecurityTokenRequestType {
    /// A channel is opened; on the wire 0.
    Issue,
    /// The token of an open one is renewed; on the wire 1.
    Renew,
}

impl SecurityTokenRequestType {
    /// What a number on the wire says; `None` where it says neither.
    pub fn of_number(number: i32) -> Option<SecurityTokenRequestType>
        ensures { result ≡ request_type_of number }
    {
        match number {
            0 => Some(SecurityTokenRequestType::Issue),
            1 => Some(SecurityTokenRequestType::Renew),
            _ => None,
        }
    }
}

/// What an OPN asks for, of all that its structure says (OPC 10000-4, 5.5.2.2).
#[derive(Clone, Copy, Debug, PartialEq, Eq)]
pub struct OpeningRequest {
    /// The handle in its header.
    pub handle: u32,
    /// A SecurityTokenRequestType, by its number.
    pub request_type: i32,
    /// A MessageSecurityMode, by its number.
    pub security_mode: i32,
    /// How long the token is to last, in milliseconds.
    pub lifetime: u32,
}
