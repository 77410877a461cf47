//! A text as lines, a line as words, a word as a number.
ghost use Rattle.std.specs.Prelude.{◌≡◌, ◌==◌, ◌<◌, ◌∷◌, [], ℕ, Some, None, IfSome, MatchOption, length, position};
ghost use Rattle.std.specs.Option.{option_copied};
ghost use Rattle.scenario.specs.Words.{capped, digits_from, dotted, integer_by, lines_of, number_by};
ghost use Rattle.scenario.specs.Words.{pico_by, read_by, stamp_by, words_left, words_of};

/// The first place of a byte.
fn place_of(bytes: &[u8], byte: u8) -> Option<usize>
    ensures place { result ≡ position (λ other. other == byte) bytes.now }
    ensures within { IfSome result (λ place. place < length bytes.now) }
{
    bytes.iter().position(|other| *other == byte)
}

/// The first line of a text that is not empty, and what follows its line feed.
pub(crate) fn split_line(bytes: &[u8]) -> (&[u8], &[u8])
    requires { 0 < length bytes.now }
    ensures cut { lines_of bytes.now ≡ result.0.now ∷ lines_of result.1.now }
    ensures shorter { length result.1.now < length bytes.now }
{
    match place_of(bytes, b'\n') {
        Some(end) => (&bytes[..end], &bytes[end + 1..]),
        None => (bytes, &[]),
    }
}

/// The first word of a line, and what follows its space, if it has one.
pub(crate) fn split_word(text: &[u8]) -> (&[u8], Option<&[u8]>)
    ensures { words_of text.now ≡ result.0.now ∷ words_left (option_copied result.1) }
{
    match place_of(text, b' ') {
        Some(end) => (&text[..end], Some(&text[end + 1..])),
        None => (text, None),
    }
}

/// What stands before the first dot of a word, and what behind it, if it has one.
fn split_dot(word: &[u8]) -> (&[u8], Option<&[u8]>)
    ensures { dotted word.now ≡ (result.0.now, option_copied result.1) }
{
    match place_of(word, b'.') {
        Some(end) => (&word[..end], Some(&word[end + 1..])),
        None => (word, None),
    }
}

/// The number that digits say, at most `u64::MAX`.
fn digits(word: &[u8]) -> Option<u64>
    ensures { result ≡ read_by capped (digits_from 0 word.now) }
{
    let mut number: u64 = 0;
    for byte in word {
        if !byte.is_ascii_digit() {
            return None;
        }
        number = number
            .saturating_mul(10)
            .saturating_add(u64::from(*byte - b'0'));
    }
    Some(number)
}

/// The number that a word is the numeral of, at most `u64::MAX`.
pub(crate) fn number_of(word: &[u8]) -> Option<u64>
    ensures { result ≡ number_by capped word.now }
{
    match word {
        [] => None,
        [b'0'] => Some(0),
        [b'0', ..] => None,
        _ => digits(word),
    }
}

/// The picoseconds that are said behind a dot, if there is one, at most `u64::MAX`.
fn pico_of(behind: Option<&[u8]>) -> Option<Option<u64>>
    ensures { result ≡ pico_by capped (option_copied behind.entry) }
{
    match behind {
        None => Some(None),
        Some(word) => Some(Some(number_of(word)?)),
    }
}

/// The time that a word says and its picoseconds, if it says them, each at most `u64::MAX`.
pub(crate) fn stamp_of(word: &[u8]) -> Option<(u64, Option<u64>)>
    ensures { result ≡ stamp_by capped word.now }
{
    let (time, behind) = split_dot(word);
    let time = number_of(time)?;
    let pico = pico_of(behind)?;
    Some((time, pico))
}

/// The whole number that a word is the signed numeral of, its size at most `u64::MAX`.
pub(crate) fn integer_of(word: &[u8]) -> Option<i128>
    ensures { result ≡ integer_by capped word.now }
{
    match word {
        [b'-', rest @ ..] => match number_of(rest)? {
            0 => None,
            size => Some(-i128::from(size)),
        },
        _ => Some(i128::from(number_of(word)?)),
    }
}
