//! Frames, chunks and messages of a connection (OPC 10000-6, 6.7 and 7.1), both ways.
#![tactic(auto)]

mod body;
mod frame;
mod framer;
mod greeting;
mod laws;
mod message;
mod opening;
mod sender;
mod writing;

pub use body::Body;
pub use frame::{Chunk, Frame, FrameFault, Kind, MOST_FRAME};
pub use framer::Framer;
pub use greeting::{
    Greeting, ack_body, err_body, hello_body, read_ack, read_err, read_hello, write_ack, write_err,
    write_hello,
};
pub use laws::{
    an_opn_is_read, bodies_are_lawful, chunks_make_a_message, everything_put_is_heard, faults_stay,
    foreign_chunks_are_refused, frames_are_read_again, frames_are_the_longest, fronts_are_sound,
    greetings_are_read, messages_come_before_a_fault, numbers_follow, pieces_are_one,
    renewals_keep_step, senders_stay_sound, what_is_put_arrives,
};
pub use message::{Assembler, MOST_CHUNKS, MOST_MESSAGE, Message};
pub use opening::{OpnChunk, read_opn, read_policy};
pub use sender::{NONE_POLICY, PutFault, Sender};
pub use writing::write_frame;
