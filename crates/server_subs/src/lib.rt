//! What a server knows between two events, and how it publishes: whom it answers, what a session is told of the
//! subscriptions that leave it, what becomes of a Publish, and what each millisecond brings (OPC 10000-4, 5.13).
#![tactic(auto)]

mod access;
mod answering;
mod connections;
mod data;
mod leaving;
mod notices;
mod outgoing;
mod publishing;
mod sending;
mod subs;
mod timer;
mod waiting;

pub use data::ServerData;
