use crate::conversation::Asked;
use ua_base::Mode;
use ua_structures::UaArray;

/// The Publish requests that aren't answered, by their handles: two at most.
#[derive(Clone, Copy, Debug, PartialEq, Eq)]
pub enum Publishes {
    Zero,
    One(u32),
    Two(u32, u32),
}

/// A SetMonitoringMode that isn't answered, and the mode that it asks for.
#[derive(Clone, Copy, Debug, PartialEq, Eq)]
pub struct Setting {
    pub asked: Asked,
    pub mode: Mode,
}

/// What a link knows whose subscription sends messages.
#[derive(Clone, Copy, Debug, PartialEq, Eq)]
pub struct ReadyState {
    pub publishes: Publishes,
    pub setting: Option<Setting>,
    /// The mode that the items have, if the server confirmed one on this connection.
    pub confirmed: Option<Mode>,
    /// The mode that the client wants, once it said one.
    pub wanted: Option<Mode>,
}

/// How far a link has come, by what it awaits.
#[derive(Debug, Drop)]
pub enum Phase {
    /// Nothing: there is no connection.
    Idle,
    /// A connection; `taken` says whether the wish for one was taken.
    Dialing { taken: bool },
    /// The ACK.
    Hello,
    /// The reply to the OPN.
    Opening,
    /// That to CreateSession.
    Creating,
    /// That to ActivateSession.
    Activating,
    /// That to the first Read.
    Probing,
    /// That to TransferSubscriptions.
    Transferring,
    /// That to a Republish; `wanted` are the numbers that are still to be asked for, after it.
    Republishing { wanted: UaArray<u32> },
    /// That to CreateSubscription.
    Subscribing,
    /// That to CreateMonitoredItems.
    Adding,
    /// Messages of the subscription.
    Ready(ReadyState),
}
