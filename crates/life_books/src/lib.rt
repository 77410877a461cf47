//! The books of a life's subscriptions: what the values of all their messages owe to each other, as a client's log takes
//! them. Nothing here runs.
#![tactic(auto)]

mod handles;
mod lives;
mod values;

pub use handles::asked_items_have_their_own_handles;
pub use lives::lives_make_sound_books;
pub use values::told_entries_make_linked_values;
