//! The whole books of a life's subscriptions: all messages that each sent or kept, whatever became of them. Nothing here runs.
#![tactic(auto)]

mod books;

pub use books::{ids_tell_their_life, lives_make_whole_books};
