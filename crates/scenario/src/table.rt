//! The table of the lines that are a word and up to two numbers.
ghost use Rattle.std.specs.Prelude.{◌≡◌, ◌≤◌};
ghost use Rattle.scenario.specs.declared.table.Argument.TheVariants as argument;
ghost use Rattle.scenario.specs.declared.table.Arguments.TheVariants as arguments;
ghost use Rattle.scenario.specs.Table.{first_of, line_with, name_of, row_of, row_with, second_of, word_of};
ghost use Rattle.scenario.specs.Reading.{AreSmall};

use self::Group::{Common, Links, Listeners, Servers};
use self::Modes::{All, Direct, OverBytes};
use crate::line::Line;
use std::fmt;

/// A line that is a word and up to two numbers: all but `set`, `items` and `change` are such.
#[derive(Clone, Copy, Debug, PartialEq, Eq)]
pub enum Name {
    /// `feed S K`
    Feed,
    /// `take S K`
    Take,
    /// `tick MS`
    Tick,
    /// `pass K`
    Pass,
    /// `piece K`
    Piece,
    /// `level S N`
    Level,
    /// `stop S`
    Stop,
    /// `start S`
    Start,
    /// `cut S`
    Cut,
    /// `half S`
    Half,
    /// `hold S`
    Hold,
    /// `free S`
    Free,
    /// `listen I`
    Listen,
    /// `unlisten K`
    Unlisten,
    /// `end`
    End,
}

/// The numbers of such a line, as they stand. A number above `u64::MAX` is read as `u64::MAX`.
#[derive(Clone, Copy, Debug, PartialEq, Eq)]
pub enum Numbers {
    Nothing,
    One(u64),
    Two(u64, u64),
}

/// What a number of a line says.
#[derive(Clone, Copy, Debug, PartialEq, Eq)]
pub enum Argument {
    /// A server of the set, from 1.
    Server,
    /// An item of the set, from 1.
    Item,
    /// A number within these bounds.
    From(u32, u32),
}

/// The numbers that a line has.
#[derive(Clone, Copy, Debug, PartialEq, Eq)]
pub enum Arguments {
    Nothing,
    One(Argument),
    Two(Argument, Argument),
}

/// The modes in which a line may stand.
#[derive(Clone, Copy, Debug, PartialEq, Eq)]
pub enum Modes {
    All,
    /// Direct mode alone.
    Direct,
    /// The modes over bytes: hot, warm and cold.
    OverBytes,
}

/// Lines that a command's scenarios have together or not at all.
#[derive(Clone, Copy, Debug, PartialEq, Eq)]
pub enum Group {
    /// Those that every scenario may have.
    Common,
    /// What befalls the links.
    Links,
    /// What befalls the servers.
    Servers,
    /// Who listens to the client's log.
    Listeners,
}

/// What a line needs of the lines before it. Servers, items and ids are the line's first number.
#[derive(Clone, Copy, Debug, PartialEq, Eq)]
pub enum Need {
    Nothing,
    /// The server runs.
    Running,
    /// The server doesn't run, and may start once more.
    Stopped,
    /// A listener is left.
    Listener,
    /// The listener of this id listens.
    Attached,
}

/// What the table says of a line beside its word.
#[derive(Clone, Copy, Debug, PartialEq, Eq)]
pub struct Row {
    pub group: Group,
    pub modes: Modes,
    pub arguments: Arguments,
    pub need: Need,
}

/// All names, those of the most frequent lines first.
const NAMES: [Name; 15] = [
    Name::Feed,
    Name::Take,
    Name::Tick,
    Name::Pass,
    Name::Piece,
    Name::Level,
    Name::Stop,
    Name::Start,
    Name::Cut,
    Name::Half,
    Name::Hold,
    Name::Free,
    Name::Listen,
    Name::Unlisten,
    Name::End,
];

/// A row of the table.
fn row_with(group: Group, modes: Modes, arguments: Arguments, need: Need) -> Row
    ensures { result ≡ row_with group modes arguments need }
{
    Row {
        group,
        modes,
        arguments,
        need,
    }
}

/// One number within these bounds.
fn number(low: u32, high: u32) -> Arguments
    ensures { result ≡ arguments.One (argument.From low high) }
{
    Arguments::One(Argument::From(low, high))
}

/// A server, and a number within these bounds.
fn server_and(low: u32, high: u32) -> Arguments
    ensures { result ≡ arguments.Two argument.Server (argument.From low high) }
{
    Arguments::Two(Argument::Server, Argument::From(low, high))
}

impl Name {
    /// The word of the line.
    pub(crate) fn word(self) -> &'static str
        ensures { result.now ≡ word_of self }
    {
        match self {
            Name::Feed => "feed",
            Name::Take => "take",
            Name::Tick => "tick",
            Name::Pass => "pass",
            Name::Piece => "piece",
            Name::Level => "level",
            Name::Stop => "stop",
            Name::Start => "start",
            Name::Cut => "cut",
            Name::Half => "half",
            Name::Hold => "hold",
            Name::Free => "free",
            Name::Listen => "listen",
            Name::Unlisten => "unlisten",
            Name::End => "end",
        }
    }

    /// The name whose word it is.
    pub(crate) fn of(word: &[u8]) -> Option<Name>
        ensures { result ≡ name_of word.now }
    {
        NAMES
            .iter()
            .copied()
            .find(|name| name.word().as_bytes() == word)
    }

    /// What the table says of the line.
    pub(crate) fn row(self) -> Row
        ensures { result ≡ row_of self }
    {
        let server = Arguments::One(Argument::Server);
        let item = Arguments::One(Argument::Item);
        match self {
            Name::Feed => row_with(Common, All, server_and(1, 200_000), Need::Running),
            Name::Take => row_with(Common, Direct, server_and(1, 1000), Need::Running),
            Name::Tick => row_with(Common, OverBytes, number(1, 3_600_000), Need::Nothing),
            Name::Pass => row_with(Common, OverBytes, number(1, 1000), Need::Nothing),
            Name::Piece => row_with(Common, OverBytes, number(1, 1_048_576), Need::Nothing),
            Name::Level => row_with(Servers, OverBytes, server_and(0, 255), Need::Running),
            Name::Stop => row_with(Servers, All, server, Need::Running),
            Name::Start => row_with(Servers, All, server, Need::Stopped),
            Name::Cut => row_with(Links, OverBytes, server, Need::Nothing),
            Name::Half => row_with(Links, OverBytes, server, Need::Nothing),
            Name::Hold => row_with(Servers, OverBytes, server, Need::Nothing),
            Name::Free => row_with(Servers, OverBytes, server, Need::Nothing),
            Name::Listen => row_with(Listeners, All, item, Need::Listener),
            Name::Unlisten => row_with(Listeners, All, number(1, 255), Need::Attached),
            Name::End => row_with(Common, All, Arguments::Nothing, Need::Nothing),
        }
    }

    /// The line of this name and its numbers, of which those that it doesn't have count for nothing.
    pub(crate) fn line(self, first: u64, second: u64) -> Line
        requires { AreSmall (row_of self).arguments first second }
        ensures { result ≡ line_with self first second }
    {
        match self {
            Name::Feed => Line::Feed {
                server: first as u8,
                count: second as u32,
            },
            Name::Take => Line::Take {
                server: first as u8,
                count: second as u32,
            },
            Name::Tick => Line::Tick { ms: first as u32 },
            Name::Pass => Line::Pass {
                rounds: first as u32,
            },
            Name::Piece => Line::Piece {
                bytes: first as u32,
            },
            Name::Level => Line::Level {
                server: first as u8,
                level: second as u8,
            },
            Name::Stop => Line::Stop {
                server: first as u8,
            },
            Name::Start => Line::Start {
                server: first as u8,
            },
            Name::Cut => Line::Cut {
                server: first as u8,
            },
            Name::Half => Line::Half {
                server: first as u8,
            },
            Name::Hold => Line::Hold {
                server: first as u8,
            },
            Name::Free => Line::Free {
                server: first as u8,
            },
            Name::Listen => Line::Listen { item: first as u8 },
            Name::Unlisten => Line::Unlisten { id: first as u8 },
            Name::End => Line::End,
        }
    }
}

impl Numbers {
    /// The first number, or 0.
    pub(crate) fn first(self) -> u64
        ensures { result ≡ first_of self }
    {
        match self {
            Numbers::Nothing => 0,
            Numbers::One(first) | Numbers::Two(first, _) => first,
        }
    }

    /// The second number, or 0.
    pub(crate) fn second(self) -> u64
        ensures { result ≡ second_of self }
    {
        match self {
            Numbers::Two(_, second) => second,
            Numbers::Nothing | Numbers::One(_) => 0,
        }
    }
}

impl fmt::Display for Numbers {
    ghost use Rattle.std.specs.Prelude.{Some};
    ghost use Rattle.scenario.specs.Texts.{numbers_text};

    ghost output = { λ numbers. Some (numbers_text numbers) };

    fn fmt<W: fmt::Write>(&self, f: &mut fmt::Formatter<W>) -> fmt::Result {
        match self {
            Numbers::Nothing => Ok(()),
            Numbers::One(first) => write!(f, " {first}"),
            Numbers::Two(first, second) => write!(f, " {first} {second}"),
        }
    }
}
