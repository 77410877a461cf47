//! Every service of a server as one request and one reply, as bytes both ways (OPC 10000-4, 5.4 to 5.13).
#![tactic(auto)]

mod laws;
mod reply;
mod request;

pub use laws::{replies_are_read_again, requests_are_read_again, requests_begin_with_their_header};
pub use reply::{Reply, ReplyType, read_reply, write_reply};
pub use request::{Request, RequestFault, RequestType, read_request, write_request};
