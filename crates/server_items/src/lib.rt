//! What a server does for the sessions that read, call its method, and make and change monitored items and
//! subscriptions (OPC 10000-4, 5.10 to 5.13). Publish and the timer are below.
#![tactic(auto)]

mod checks;
mod creating;
mod deleting;
mod filters;
mod form;
mod judging;
mod leaving;
mod methods;
mod modes;
mod named;
mod nodes;
mod publishing;
mod reading;
mod replies;
mod subs;
mod values;

pub use creating::create_items;
pub use deleting::delete_items;
pub use leaving::{delete_subs, transfer_subs};
pub use methods::call;
pub use modes::set_modes;
pub use publishing::{republish, set_publishing};
pub use reading::read;
pub use subs::{create_sub, modify_sub};
