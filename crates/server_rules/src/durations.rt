//! What a server makes of the durations, counts and sizes that it is asked for.

ghost use Rattle.std.specs.Prelude.{◌≡◌, ◌≤◌};
ghost use Rattle.server_rules.specs.Durations.{duration_bits, ms_within, revised_duration, revised_keep_alive, revised_lifetime, revised_most, revised_queue};

use ua_base::ms_of_bits;

/// Whole milliseconds within these limits.
fn ms_within(least: u32, most: u32, ms: i64) -> u32
    requires { least ≤ most }
    ensures { result ≡ ms_within least most ms }
{
    if ms < i64::from(least) {
        least
    } else if ms > i64::from(most) {
        most
    } else {
        ms as u32
    }
}

#[tactic(auto, unfolding(crate::specs::Durations::revised_duration))]
/// The whole milliseconds of a Duration that a client asks for (the bits of a Double, OPC 10000-3, 8.13), brought into
/// these limits. What is no number counts as 0.
pub fn revised_duration(least: u32, most: u32, bits: u64) -> u32
    requires { least ≤ most }
    ensures { result ≡ revised_duration least most bits }
{
    ms_within(least, most, ms_of_bits(bits))
}

#[tactic(auto, unfolding(crate::specs::Durations::duration_bits))]
/// The Duration of these whole milliseconds: the bits of a Double.
pub fn duration_bits(ms: u32) -> u64
    ensures { result ≡ duration_bits ms }
{
    f64::from(ms).to_bits()
}

/// The keep-alive count of a subscription, which is within 1 and 10,000 cycles (OPC 10000-4, 5.13.2).
pub fn revised_keep_alive(count: u32) -> u32
    ensures revised { result ≡ revised_keep_alive count }
    ensures most { result ≤ 10000 }
{
    count.clamp(1, 10_000)
}

/// The lifetime count of a subscription: at least three keep-alive counts, and else at most 100,000 cycles (OPC
/// 10000-4, 5.13.2).
pub fn revised_lifetime(keep_alive: u32, count: u32) -> u32
    requires { keep_alive ≤ 10000 }
    ensures { result ≡ revised_lifetime keep_alive count }
{
    (3 * keep_alive).max(count.min(100_000))
}

/// How many notifications a message has at the most: 1000, and no more than the client asks for, where 0 asks for no
/// limit (OPC 10000-4, 5.13.2).
pub fn revised_most(count: u32) -> u32
    ensures { result ≡ revised_most count }
{
    if count == 0 { 1000 } else { count.min(1000) }
}

/// How many entries the queue of a monitored item has, within 1 and 1000 (OPC 10000-4, 7.21).
pub fn revised_queue(size: u32) -> u32
    ensures revised { result ≡ revised_queue size }
    ensures least { 1 ≤ result }
    ensures most { result ≤ 1000 }
{
    size.clamp(1, 1000)
}
