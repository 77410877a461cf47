//! Sequence numbers and what comes after each.

ghost use Rattle.std.specs.Prelude.{◌≡◌, ◌≤◌};
ghost use Rattle.ua_base.specs.Number.{after_message, after_chunk};

/// The last sequence number of a chunk: after it comes 1 (OPC 10000-6, 6.7.2.4).
pub const LAST_CHUNK: u32 = 4_294_966_272;

/// The sequence number of a subscription's message that comes after this one: 1 after the last one of 32 bits,
/// since 0 is no message's number (OPC 10000-4, 5.13.1.1).
pub fn next_message(number: u32) -> u32
    ensures { result ≡ after_message number }
{
    if number == u32::MAX { 1 } else { number + 1 }
}

/// The sequence number of a connection's chunk that comes after this one: 1 after `LAST_CHUNK`.
pub fn next_chunk(number: u32) -> u32
    requires { number ≤ 4294966272 }
    ensures { result ≡ after_chunk number }
{
    if number == LAST_CHUNK { 1 } else { number + 1 }
}
