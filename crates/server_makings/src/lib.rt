//! Which monitored items a server's life makes: those that were asked for (OPC 10000-4, 5.12.2), and what is told of
//! them. Nothing here runs.
#![tactic(auto)]

mod lives;
mod making;
mod telling;

pub use lives::{fewer_are_made_too, lives_have_what_was_made};
pub use making::{items_are_made_as_asked, items_are_those_asked_for};
pub use telling::{ids_of_items_are_their_places, subscriptions_tell_what_was_asked_for};
