ghost use Rattle.std.specs.Prelude.{◌≡◌, ◌≤◌, ◌++◌, length, IfOk, IfSome, OnErr, OnOk};
ghost use Rattle.ua_values.specs.Reading.{Gives, Moves, TakesNoMemory, input};
ghost use Rattle.ua_chunks.specs.Bodies.{Ends, IsWhole, error, error_at, greeting, greeting_at, hello};
ghost use Rattle.ua_chunks.specs.Bodies.{hello_at, value_of, whole_at, written_error, written_greeting};
ghost use Rattle.ua_chunks.specs.Bodies.{written_hello};
ghost use Rattle.ua_chunks.specs.Streams.{chunk_bytes};
ghost use Rattle.ua_chunks.specs.declared.frame.Kind.TheVariants as kind;
ghost use Rattle.ua_chunks.specs.declared.frame.Chunk.TheVariants as chunk;

use crate::frame::Kind;
use crate::writing::write_frame;
use std::alloc::Global;
use ua_base::OutOfMemory;
use ua_base::status::BAD_DECODING_ERROR;
use ua_values::{Cursor, UaText, ValueFault, write_string, write_uint32};

/// What both ends of a connection tell of themselves: in a HEL the client, in an ACK the server
/// (OPC 10000-6, 7.1.2.3 and 7.1.2.4).
#[derive(Clone, Copy, Debug, PartialEq, Eq)]
pub struct Greeting {
    /// The version of the protocol.
    pub version: u32,
    /// How many bytes a frame may have that the sender of this takes.
    pub receive: u32,
    /// How many bytes a frame has at most that the sender of this sends.
    pub send: u32,
    /// How many bytes a message may have that the sender of this takes; 0 says that there is no limit.
    pub max_message: u32,
    /// How many chunks a message may have that the sender of this takes; 0 says that there is no limit.
    pub max_chunks: u32,
}

/// Whether nothing is left: else the first byte that is left over is a fault.
fn end(from: &mut Cursor<'_>) -> Result<(), ValueFault>
    ensures ends { Ends result from.old }
    ensures memory { TakesNoMemory result }
{
    let place = from.place();
    match from.byte() {
        Ok(_) => Err(ValueFault::Bad {
            place,
            code: BAD_DECODING_ERROR,
        }),
        Err(ValueFault::Short) => Ok(()),
        Err(fault) => Err(fault),
    }
}

fn take_greeting(from: &mut Cursor<'_>) -> Result<Greeting, ValueFault>
    ensures greeting { Moves (λ g. g) result from.new (greeting_at from.old) }
    ensures memory { TakesNoMemory result }
{
    let version = from.uint32()?;
    let receive = from.uint32()?;
    let send = from.uint32()?;
    let max_message = from.uint32()?;
    let max_chunks = from.uint32()?;
    Ok(Greeting {
        version,
        receive,
        send,
        max_message,
        max_chunks,
    })
}

fn take_hello(from: &mut Cursor<'_>, alloc: Global) -> Result<(Greeting, UaText), ValueFault>
    ensures { Moves (λ h. h) result from.new (hello_at from.old) }
{
    let greeting = take_greeting(from)?;
    let url = from.text(alloc)?;
    Ok((greeting, url))
}

fn take_error(from: &mut Cursor<'_>, alloc: Global) -> Result<u32, ValueFault>
    ensures { Moves (λ n. n) result from.new (error_at from.old) }
{
    let code = from.uint32()?;
    from.text(alloc)?;
    Ok(code)
}

fn whole_hello(alloc: Global, body: &[u8]) -> Result<(Greeting, UaText), ValueFault>
    ensures { Gives result (value_of (whole_at hello_at (input 0 body.now))) }
{
    let mut from = Cursor::new(body);
    let hello = take_hello(&mut from, alloc)?;
    end(&mut from)?;
    Ok(hello)
}

fn whole_ack(body: &[u8]) -> Result<Greeting, ValueFault>
    ensures exact { Gives result (value_of (whole_at greeting_at (input 0 body.now))) }
    ensures memory { TakesNoMemory result }
{
    let mut from = Cursor::new(body);
    let greeting = take_greeting(&mut from)?;
    end(&mut from)?;
    Ok(greeting)
}

fn whole_err(alloc: Global, body: &[u8]) -> Result<u32, ValueFault>
    ensures { Gives result (value_of (whole_at error_at (input 0 body.now))) }
{
    let mut from = Cursor::new(body);
    let code = take_error(&mut from, alloc)?;
    end(&mut from)?;
    Ok(code)
}

/// Reads the whole body of a HEL: the greeting, and the URL of the endpoint (OPC 10000-6, 7.1.2.3).
///
/// # Errors
///
/// `Short` where the body ends early; `Bad` at the field that breaks a rule, or at the first byte that is left over.
pub fn read_hello(alloc: Global, body: &[u8]) -> Result<(Greeting, UaText), ValueFault>
    ensures exact { Gives result (value_of (whole_at hello_at (input 0 body.now))) }
    ensures spelled { IsWhole hello body.now result }
{
    whole_hello(alloc, body)
}

/// Reads the whole body of an ACK (OPC 10000-6, 7.1.2.4). It takes no memory.
///
/// # Errors
///
/// As `read_hello`, but never want of memory.
pub fn read_ack(body: &[u8]) -> Result<Greeting, ValueFault>
    ensures exact { Gives result (value_of (whole_at greeting_at (input 0 body.now))) }
    ensures spelled { IsWhole greeting body.now result }
    ensures memory { TakesNoMemory result }
{
    whole_ack(body)
}

/// Reads the whole body of an ERR: its status code (OPC 10000-6, 7.1.2.5). The reason is dropped.
///
/// # Errors
///
/// As `read_hello`.
pub fn read_err(alloc: Global, body: &[u8]) -> Result<u32, ValueFault>
    ensures exact { Gives result (value_of (whole_at error_at (input 0 body.now))) }
    ensures spelled { IsWhole error body.now result }
{
    whole_err(alloc, body)
}

fn put_greeting(greeting: &Greeting, to: &mut Vec<u8>) -> Result<(), OutOfMemory>
    ensures { OnOk result (to.new.items ≡ to.old.items ++ written_greeting greeting.now) }
{
    write_uint32(greeting.version, to)?;
    write_uint32(greeting.receive, to)?;
    write_uint32(greeting.send, to)?;
    write_uint32(greeting.max_message, to)?;
    write_uint32(greeting.max_chunks, to)?;
    Ok(())
}

/// The body of a HEL (OPC 10000-6, 7.1.2.3). The encoded value of the URL is below 4096.
pub fn hello_body(alloc: Global, greeting: &Greeting, url: &UaText) -> Result<Vec<u8>, OutOfMemory>
    requires { IfSome url.now (λ run. length run ≤ 4091) }
    ensures body { IfOk result (λ body. body.items ≡ written_hello (greeting.now, url.now)) }
    ensures short { IfOk result (λ body. length body.items ≤ 4115) }
{
    let mut body = Vec::new(alloc);
    put_greeting(greeting, &mut body)?;
    write_string(url, &mut body)?;
    Ok(body)
}

/// The body of an ACK (OPC 10000-6, 7.1.2.4).
pub fn ack_body(alloc: Global, greeting: &Greeting) -> Result<Vec<u8>, OutOfMemory>
    ensures body { IfOk result (λ body. body.items ≡ written_greeting greeting.now) }
    ensures short { IfOk result (λ body. length body.items ≡ 20) }
{
    let mut body = Vec::new(alloc);
    put_greeting(greeting, &mut body)?;
    Ok(body)
}

/// The body of an ERR of a status code, whose reason is null (OPC 10000-6, 7.1.2.5).
pub fn err_body(alloc: Global, code: u32) -> Result<Vec<u8>, OutOfMemory>
    ensures body { IfOk result (λ body. body.items ≡ written_error code) }
    ensures short { IfOk result (λ body. length body.items ≡ 8) }
{
    let mut body = Vec::new(alloc);
    write_uint32(code, &mut body)?;
    write_string(&UaText::null(), &mut body)?;
    Ok(body)
}

/// Appends a whole HEL (OPC 10000-6, 7.1.2.3). The encoded value of the URL is below 4096.
pub fn write_hello(
    alloc: Global,
    greeting: &Greeting,
    url: &UaText,
    to: &mut Vec<u8>,
) -> Result<(), OutOfMemory>
    requires { IfSome url.now (λ run. length run ≤ 4091) }
    ensures ok { OnOk result (to.new.items
        ≡ to.old.items ++ chunk_bytes kind.Hel chunk.Final (written_hello (greeting.now, url.now))) }
    ensures unchanged { OnErr result (to.new.items ≡ to.old.items) }
{
    let body = hello_body(alloc, greeting, url)?;
    write_frame(alloc, Kind::Hel, &body, to)
}

/// Appends a whole ACK (OPC 10000-6, 7.1.2.4).
pub fn write_ack(alloc: Global, greeting: &Greeting, to: &mut Vec<u8>) -> Result<(), OutOfMemory>
    ensures ok { OnOk result (to.new.items
        ≡ to.old.items ++ chunk_bytes kind.Ack chunk.Final (written_greeting greeting.now)) }
    ensures unchanged { OnErr result (to.new.items ≡ to.old.items) }
{
    let body = ack_body(alloc, greeting)?;
    write_frame(alloc, Kind::Ack, &body, to)
}

/// Appends a whole ERR of a status code, whose reason is null (OPC 10000-6, 7.1.2.5).
pub fn write_err(alloc: Global, code: u32, to: &mut Vec<u8>) -> Result<(), OutOfMemory>
    ensures ok { OnOk result (to.new.items ≡ to.old.items ++ chunk_bytes kind.Err chunk.Final (written_error code)) }
    ensures unchanged { OnErr result (to.new.items ≡ to.old.items) }
{
    let body = err_body(alloc, code)?;
    write_frame(alloc, Kind::Err, &body, to)
}
