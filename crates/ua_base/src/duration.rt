//! Durations: a Double of milliseconds on the wire, whole milliseconds inside.

ghost use Rattle.std.specs.Prelude.{◌≡◌, ◌≤◌, ◌<◌, ◌*◌, ◌-◌, ◌^◌, pos, ℕ};
ghost use Rattle.ua_base.specs.Duration.{exponent_of, fraction_of, ms_of, size_of, IsBitsOf};

/// Durations are held between this number of milliseconds and its negative, up to which a Double tells each whole number from the next.
pub const MOST_MS: u64 = 1 << 53;

/// What the exponent of a Double is when its significand is a whole number of ones.
const ONES: u64 = 1075;

/// The exponent of infinities and of what is no number.
const NOT_FINITE: u64 = 2047;

/// The whole part of a Double without its sign, `MOST_MS` at most.
#[tactic(auto, using(crate::proofs::DurationLemmas::far_beyond, crate::proofs::DurationLemmas::far_below))]
fn whole_size(exponent: u64, fraction: u64) -> u64
    requires exponent_fits { exponent < 2 ^ 11 }
    requires fraction_fits { fraction < 2 ^ 52 }
    ensures { result ≡ size_of exponent fraction }
{
    let significand = (1 << 52) + fraction;
    if exponent == NOT_FINITE {
        return if fraction == 0 { MOST_MS } else { 0 };
    }
    if exponent > ONES {
        MOST_MS
    } else if ONES - exponent > 52 {
        0
    } else {
        significand >> (ONES - exponent)
    }
}

/// The whole milliseconds of a Double (IEEE 754, binary64) given by its bits, truncated towards zero.
/// What is no number gives 0, and what is beyond 2^53 or -2^53, an infinity too, gives that bound.
pub fn ms_of_bits(bits: u64) -> i64
    ensures { result ≡ ms_of bits }
{
    let size = whole_size(bits / (1 << 52) % (1 << 11), bits % (1 << 52)) as i64;
    if bits / (1 << 63) == 0 { size } else { -size }
}

/// The 53 bits of a number, from its highest one on: the number's power of two is `power`.
fn significand_of(ms: u64, power: u32) -> u64
    requires most { ms ≤ 2 ^ 53 }
    requires least { 2 ^ power ≤ ms }
    requires next { ms < 2 * 2 ^ power }
    ensures low { 2 ^ 52 ≤ result }
    ensures high { result < 2 ^ 53 }
    ensures power { power ≤ 53 }
    ensures exactly { result * 2 ^ (power - 52) ≡ ms * 2 ^ (52 - power) }
{
    if power <= 52 {
        ms << (52 - power)
    } else {
        ms / 2
    }
}

#[tactic(auto, using(crate::proofs::DurationLemmas::parts))]
/// The bits of the Double that is this whole number of milliseconds.
pub fn bits_of_ms(ms: u64) -> u64
    requires { ms ≤ 2 ^ 53 }
    ensures { IsBitsOf ms result }
{
    if ms == 0 {
        return 0;
    }
    let power = ms.ilog2();
    let significand = significand_of(ms, power);
    (1023 + u64::from(power)) * (1 << 52) + (significand - (1 << 52))
}

/// Law: the bits of whole milliseconds give these milliseconds again.
pub fn reads_again()
    ensures { (ms bits : ℕ) → ms ≤ 2 ^ 53 → IsBitsOf ms bits → ms_of bits ≡ pos ms }
{}
