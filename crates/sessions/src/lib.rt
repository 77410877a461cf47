//! The sessions of a server (OPC 10000-4, 5.6): their tokens and connections, their queued Publishes, and the
//! subscriptions that they own.
#![tactic(auto)]

mod fault;
mod laws;
mod ownership;
mod results;
mod session;
mod table;
mod tokens;

pub use fault::SessionFault;
pub use laws::{
    counters_rise, last_publishes_wait, oldest_unbound_leaves, owners_leave,
    sessions_expire_when_due, stay_sound, subscriptions_stay_with_their_client, tokens_tell_apart,
};
pub use results::AckResults;
pub use session::{MOST_QUEUED, Parked};
pub use table::{MOST_SESSIONS, Sessions};
pub use tokens::token;
