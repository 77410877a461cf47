ghost use Rattle.std.specs.Prelude.{◌≡◌};
ghost use Rattle.scenario.specs.declared.shape.Shape.TheVariants as shape;
ghost use Rattle.scenario.specs.declared.table.Numbers.TheVariants as numbers;
ghost use Rattle.scenario.specs.Table.{shape_of};

use crate::line::Line;
use crate::table::{Name, Numbers};
use set_model::Change;
use std::fmt;
use ua_base::SetMode;

/// A line as what it is made of: `set`, `items` and `change` have a form of their own, and all others are a name and
/// its numbers.
#[derive(Clone, Copy, Debug, PartialEq, Eq)]
pub(crate) enum Shape {
    Set { mode: SetMode, servers: u8 },
    Items { items: u8, queue: u32, oldest: bool },
    Change { change: Change },
    Plain { name: Name, numbers: Numbers },
}

fn one(name: Name, number: u32) -> Shape
    ensures { result ≡ shape.Plain name (numbers.One number) }
{
    Shape::Plain {
        name,
        numbers: Numbers::One(u64::from(number)),
    }
}

fn two(name: Name, server: u8, number: u32) -> Shape
    ensures { result ≡ shape.Plain name (numbers.Two server number) }
{
    Shape::Plain {
        name,
        numbers: Numbers::Two(u64::from(server), u64::from(number)),
    }
}

impl Line {
    pub(crate) fn shape(self) -> Shape
        ensures { result ≡ shape_of self }
    {
        match self {
            Line::Set { mode, servers } => Shape::Set { mode, servers },
            Line::Items {
                items,
                queue,
                oldest,
            } => Shape::Items {
                items,
                queue,
                oldest,
            },
            Line::Change { change } => Shape::Change { change },
            Line::Feed { server, count } => two(Name::Feed, server, count),
            Line::Take { server, count } => two(Name::Take, server, count),
            Line::Tick { ms } => one(Name::Tick, ms),
            Line::Pass { rounds } => one(Name::Pass, rounds),
            Line::Piece { bytes } => one(Name::Piece, bytes),
            Line::Level { server, level } => two(Name::Level, server, u32::from(level)),
            Line::Stop { server } => one(Name::Stop, u32::from(server)),
            Line::Start { server } => one(Name::Start, u32::from(server)),
            Line::Cut { server } => one(Name::Cut, u32::from(server)),
            Line::Half { server } => one(Name::Half, u32::from(server)),
            Line::Hold { server } => one(Name::Hold, u32::from(server)),
            Line::Free { server } => one(Name::Free, u32::from(server)),
            Line::Listen { item } => one(Name::Listen, u32::from(item)),
            Line::Unlisten { id } => one(Name::Unlisten, u32::from(id)),
            Line::End => Shape::Plain {
                name: Name::End,
                numbers: Numbers::Nothing,
            },
        }
    }
}

/// Which entry a full queue discards, where it isn't the oldest.
#[derive(Clone, Copy)]
struct RuleWords(bool);

impl fmt::Display for RuleWords {
    ghost use Rattle.std.specs.Prelude.{Some};
    ghost use Rattle.scenario.specs.Texts.{rule_text};

    ghost output = { λ rule. Some (rule_text rule.0) };

    fn fmt<W: fmt::Write>(&self, f: &mut fmt::Formatter<W>) -> fmt::Result {
        f.write_str(if self.0 { "" } else { " discard newest" })
    }
}

/// A mode by its word.
#[derive(Clone, Copy)]
struct ModeWord(SetMode);

impl fmt::Display for ModeWord {
    ghost use Rattle.std.specs.Prelude.{Some};
    ghost use Rattle.scenario.specs.Texts.{mode_text};

    ghost output = { λ word. Some (mode_text word.0) };

    fn fmt<W: fmt::Write>(&self, f: &mut fmt::Formatter<W>) -> fmt::Result {
        f.write_str(match self.0 {
            SetMode::Direct => "direct",
            SetMode::Hot => "hot",
            SetMode::Warm => "warm",
            SetMode::Cold => "cold",
        })
    }
}

impl fmt::Display for Shape {
    ghost use Rattle.std.specs.Prelude.{Some};
    ghost use Rattle.scenario.specs.Texts.{shape_text};

    ghost output = { λ shape. Some (shape_text shape) };

    fn fmt<W: fmt::Write>(&self, f: &mut fmt::Formatter<W>) -> fmt::Result {
        match self {
            Shape::Set { mode, servers } => {
                let word = ModeWord(*mode);
                write!(f, "set {word} {servers}")
            }
            Shape::Items {
                items,
                queue,
                oldest,
            } => {
                let rule = RuleWords(*oldest);
                write!(f, "items {items} queue {queue}{rule}")
            }
            Shape::Change { change } => {
                let Change { item, value, .. } = *change;
                let stamp = change.stamp();
                write!(f, "change {item} {stamp} {value}")
            }
            Shape::Plain { name, numbers } => {
                let word = name.word();
                write!(f, "{word}{numbers}")
            }
        }
    }
}

impl fmt::Display for Line {
    ghost use Rattle.std.specs.Prelude.{Some};
    ghost use Rattle.scenario.specs.Texts.{line_text};

    ghost output = { λ line. Some (line_text line) };

    fn fmt<W: fmt::Write>(&self, f: &mut fmt::Formatter<W>) -> fmt::Result {
        let shape = self.shape();
        write!(f, "{shape}")
    }
}
