ghost use Rattle.std.specs.Prelude.{◌≡◌, Some, None, ℕ};
ghost use Rattle.std.specs.Option.{option_copied};
ghost use Rattle.scenario.specs.Words.{capped, Finds, words_left};
ghost use Rattle.scenario.specs.Grammar.{word_at, none_left, name_at, number_at, stamp_at, integer_at};
ghost use Rattle.scenario.specs.Grammar.{mode_of, mode_at, one_number, newest_at, rule_at};
ghost use Rattle.scenario.specs.Grammar.{two_numbers, numbers_after, some_numbers, numbers_at, plain_form};
ghost use Rattle.scenario.specs.Grammar.{set_form, items_form, change_form, form_after, form_by, form_read};

use crate::table::{Name, Numbers};
use crate::words::{integer_of, number_of, split_word, stamp_of};
use ua_base::SetMode;

/// What a line says by its words alone, before any number is judged. A number above `u64::MAX` is read as `u64::MAX`.
#[derive(Clone, Copy, Debug, PartialEq, Eq)]
pub enum Form {
    /// `set M N`
    Set {
        mode: SetMode,
        servers: u64,
    },
    /// `items I queue Q`, or `items I queue Q discard newest`
    Items {
        items: u64,
        queue: u64,
        oldest: bool,
    },
    /// `change I T V`, or `change I T.P V` with the picoseconds P
    Change {
        item: u64,
        time: u64,
        pico: Option<u64>,
        value: i128,
    },
    /// Any other line: a word of the table, and its numbers.
    Plain {
        name: Name,
        numbers: Numbers,
    },
}

/// The next word, and what is left after it.
fn next_word<'a>(rest: Option<&'a [u8]>) -> Option<(&'a [u8], Option<&'a [u8]>)>
    ensures { Finds (λ x. (x.0.now, words_left (option_copied x.1))) result
        (word_at (words_left (option_copied rest.entry))) }
{
    Some(split_word(rest?))
}

/// Nothing, where no word is left.
fn last(rest: Option<&[u8]>) -> Option<()>
    ensures { result ≡ none_left (words_left (option_copied rest.entry)) }
{
    match rest {
        None => Some(()),
        Some(_) => None,
    }
}

fn next_number<'a>(rest: Option<&'a [u8]>) -> Option<(u64, Option<&'a [u8]>)>
    ensures { Finds (λ x. (x.0, words_left (option_copied x.1))) result
        (number_at capped (words_left (option_copied rest.entry))) }
{
    let (word, rest) = next_word(rest)?;
    let number = number_of(word)?;
    Some((number, rest))
}

/// A time and the picoseconds behind its dot, if it has one.
fn next_stamp<'a>(rest: Option<&'a [u8]>) -> Option<((u64, Option<u64>), Option<&'a [u8]>)>
    ensures { Finds (λ x. (x.0, words_left (option_copied x.1))) result
        (stamp_at capped (words_left (option_copied rest.entry))) }
{
    let (word, rest) = next_word(rest)?;
    let stamp = stamp_of(word)?;
    Some((stamp, rest))
}

fn next_integer<'a>(rest: Option<&'a [u8]>) -> Option<(i128, Option<&'a [u8]>)>
    ensures { Finds (λ x. (x.0, words_left (option_copied x.1))) result
        (integer_at capped (words_left (option_copied rest.entry))) }
{
    let (word, rest) = next_word(rest)?;
    let number = integer_of(word)?;
    Some((number, rest))
}

fn mode_of(word: &[u8]) -> Option<SetMode>
    ensures { result ≡ mode_of word.now }
{
    if word == b"direct".as_slice() {
        Some(SetMode::Direct)
    } else if word == b"hot".as_slice() {
        Some(SetMode::Hot)
    } else if word == b"warm".as_slice() {
        Some(SetMode::Warm)
    } else if word == b"cold".as_slice() {
        Some(SetMode::Cold)
    } else {
        None
    }
}

fn next_mode<'a>(rest: Option<&'a [u8]>) -> Option<(SetMode, Option<&'a [u8]>)>
    ensures { Finds (λ x. (x.0, words_left (option_copied x.1))) result
        (mode_at (words_left (option_copied rest.entry))) }
{
    let (word, rest) = next_word(rest)?;
    let mode = mode_of(word)?;
    Some((mode, rest))
}

/// What is left after this word.
fn after_name<'a>(name: &[u8], rest: Option<&'a [u8]>) -> Option<Option<&'a [u8]>>
    ensures { Finds (λ x. words_left (option_copied x)) result
        (name_at name.now (words_left (option_copied rest.entry))) }
{
    let (word, rest) = next_word(rest)?;
    if word == name { Some(rest) } else { None }
}

/// False for exactly the words `discard newest`.
fn newest(rest: Option<&[u8]>) -> Option<bool>
    ensures { result ≡ newest_at (words_left (option_copied rest.entry)) }
{
    let rest = after_name(b"discard".as_slice(), rest)?;
    let rest = after_name(b"newest".as_slice(), rest)?;
    last(rest)?;
    Some(false)
}

/// Whether a full queue drops its oldest entry.
fn rule(rest: Option<&[u8]>) -> Option<bool>
    ensures { result ≡ rule_at (words_left (option_copied rest.entry)) }
{
    match rest {
        None => Some(true),
        Some(_) => newest(rest),
    }
}

/// Exactly one number.
fn one_number(rest: Option<&[u8]>) -> Option<u64>
    ensures { result ≡ one_number capped (words_left (option_copied rest.entry)) }
{
    let (number, rest) = next_number(rest)?;
    last(rest)?;
    Some(number)
}

/// One number, or two where a second follows.
fn numbers_after(first: u64, rest: Option<&[u8]>) -> Option<Numbers>
    ensures { result ≡ numbers_after capped first (words_left (option_copied rest.entry)) }
{
    match rest {
        None => Some(Numbers::One(first)),
        Some(_) => two_numbers(first, rest),
    }
}

/// The first number, and exactly one more.
fn two_numbers(first: u64, rest: Option<&[u8]>) -> Option<Numbers>
    ensures { result ≡ two_numbers capped first (words_left (option_copied rest.entry)) }
{
    let second = one_number(rest)?;
    Some(Numbers::Two(first, second))
}

fn some_numbers(rest: Option<&[u8]>) -> Option<Numbers>
    ensures { result ≡ some_numbers capped (words_left (option_copied rest.entry)) }
{
    let (first, rest) = next_number(rest)?;
    numbers_after(first, rest)
}

/// Up to two numbers, and nothing else.
fn numbers(rest: Option<&[u8]>) -> Option<Numbers>
    ensures { result ≡ numbers_at capped (words_left (option_copied rest.entry)) }
{
    match rest {
        None => Some(Numbers::Nothing),
        Some(_) => some_numbers(rest),
    }
}

fn set_form(rest: Option<&[u8]>) -> Option<Form>
    ensures { result ≡ set_form capped (words_left (option_copied rest.entry)) }
{
    let (mode, rest) = next_mode(rest)?;
    let servers = one_number(rest)?;
    Some(Form::Set { mode, servers })
}

fn items_form(rest: Option<&[u8]>) -> Option<Form>
    ensures { result ≡ items_form capped (words_left (option_copied rest.entry)) }
{
    let (items, rest) = next_number(rest)?;
    let rest = after_name(b"queue".as_slice(), rest)?;
    let (queue, rest) = next_number(rest)?;
    let oldest = rule(rest)?;
    Some(Form::Items {
        items,
        queue,
        oldest,
    })
}

fn change_form(rest: Option<&[u8]>) -> Option<Form>
    ensures { result ≡ change_form capped (words_left (option_copied rest.entry)) }
{
    let (item, rest) = next_number(rest)?;
    let ((time, pico), rest) = next_stamp(rest)?;
    let (value, rest) = next_integer(rest)?;
    last(rest)?;
    Some(Form::Change {
        item,
        time,
        pico,
        value,
    })
}

fn plain_form(keyword: &[u8], rest: Option<&[u8]>) -> Option<Form>
    ensures { result ≡ plain_form capped keyword.now (words_left (option_copied rest.entry)) }
{
    let name = Name::of(keyword)?;
    let numbers = numbers(rest)?;
    Some(Form::Plain { name, numbers })
}

/// The form after its first word.
fn form_after(keyword: &[u8], rest: Option<&[u8]>) -> Option<Form>
    ensures { result ≡ form_after capped keyword.now (words_left (option_copied rest.entry)) }
{
    if keyword == b"set".as_slice() {
        set_form(rest)
    } else if keyword == b"items".as_slice() {
        items_form(rest)
    } else if keyword == b"change".as_slice() {
        change_form(rest)
    } else {
        plain_form(keyword, rest)
    }
}

/// The form that a line's text is a spelling of.
pub(crate) fn form_of(text: &[u8]) -> Option<Form>
    ensures { result ≡ form_read text.now }
{
    let (keyword, rest) = split_word(text);
    form_after(keyword, rest)
}
