use ua_chunks::Body;

/// What an end hears: whole messages, and faults.
#[derive(Debug, Drop)]
pub enum Heard {
    /// The body of a HEL or an ACK (OPC 10000-6, 7.1.2.3 and 7.1.2.4), which nobody has read yet.
    Greeting {
        body: Body,
    },
    /// An OPN without security (OPC 10000-6, 6.7.4): the channel that it names, whether its sequence number follows the
    /// last one, its request, and the spelling of its structure.
    Opening {
        channel: u32,
        follows: bool,
        request: u32,
        body: Body,
    },
    /// A MSG of the channel: its request, and the spelling of its structure.
    Message {
        request: u32,
        body: Body,
    },
    /// A CLO of the channel (OPC 10000-6, 7.1.4).
    Close,
    /// Something broke the rule of this status code.
    Fault {
        code: u32,
    },
}
