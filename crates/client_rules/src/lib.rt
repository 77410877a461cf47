//! The rules of a client that fails over between the servers of a redundant set: what each message, each moment and each
//! other event makes of its links, of its choice and of its log (OPC 10000-4, 6.6.2). Its code is the plain data of which
//! the rules speak; the rules stand in `specs/`.
#![tactic(auto)]

mod config;

pub use config::ClientConfig;
