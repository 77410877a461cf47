//! The numbers of a subscription's messages (OPC 10000-4, 5.13.1.1).

ghost use Rattle.std.specs.Prelude.{◌≡◌};
ghost use Rattle.link_rules.specs.Numbers.{ahead, is_jump, is_new, is_next};

/// How far a number is ahead of the next one, around the ring of 2^32 - 1 numbers.
pub fn ahead(next: u32, number: u32) -> u32
    ensures { result ≡ ahead next number }
{
    let span = u64::from(u32::MAX);
    let ahead = (u64::from(number) + span - u64::from(next)) % span;
    ahead as u32
}

/// Whether this is the next number.
pub fn is_next(next: u32, number: u32) -> bool
    ensures { result ≡ is_next next number }
{
    number == next
}

/// Whether messages are missing before this number: it is ahead, by less than half of the ring.
pub fn is_jump(next: u32, number: u32) -> bool
    ensures { result ≡ is_jump next number }
{
    let ahead = ahead(next, number);
    1 <= ahead && ahead <= 0x7FFF_FFFF
}

/// Whether this number isn't behind.
pub fn is_new(next: u32, number: u32) -> bool
    ensures { result ≡ is_new next number }
{
    is_next(next, number) || is_jump(next, number)
}
