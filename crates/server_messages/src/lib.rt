//! A server over whole messages, and how it shows a server over bytes. Nothing here runs.
#![tactic(auto)]

mod laws;

pub use laws::{
    messages_show_bytes, messages_show_what_comes, what_comes_is_awaited_still,
    what_is_awaited_stays,
};
