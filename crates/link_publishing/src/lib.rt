//! What the messages of a link's subscription bring, and what the link does as soon as it can: it keeps two Publish
//! requests at the server, and gives the items their mode (OPC 10000-4, 5.12.4 and 5.13.5).
#![tactic(auto)]

mod content;
mod messages;
mod publishing;

pub use content::content_of;
pub use messages::{data_taken, kept_alive};
pub use publishing::{enters_ready, fills, sets_mode, wants};
