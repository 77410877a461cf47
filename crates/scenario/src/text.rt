ghost use Rattle.std.specs.Prelude.{◌≡◌, ◌++◌, OnOk, OnErr, codes};
ghost use Rattle.scenario.specs.Rules.{rules_of_replay};
ghost use Rattle.scenario.specs.Texts.{line_text, written};
ghost use Rattle.scenario.specs.Scenario.{Reads, scenario_of};

use crate::fault::ReadError;
use crate::line::Line;
use crate::reader::Reader;
use crate::rules::Rules;
use crate::words::split_line;
use std::alloc::Global;
use ua_base::OutOfMemory;

/// The lines of a scenario of `replay`, or its first faulty line. `pool` is how many listeners the caller has.
pub fn read(alloc: Global, bytes: &[u8], pool: usize) -> Result<Vec<Line>, ReadError>
    ensures { Reads (λ lines. lines.items) result (scenario_of (rules_of_replay pool) bytes.now) }
{
    read_by(alloc, bytes, Rules::replay(pool))
}

/// The lines of a scenario's text, or its first faulty line, by these rules.
pub fn read_by(alloc: Global, bytes: &[u8], rules: Rules) -> Result<Vec<Line>, ReadError>
    ensures { Reads (λ lines. lines.items) result (scenario_of rules bytes.now) }
{
    let mut reader = Reader::new(alloc);
    let mut rest = bytes;
    while !rest.is_empty() {
        let (text, more) = split_line(rest);
        reader.step(rules, text)?;
        rest = more;
    }
    reader.finish()
}

/// Appends the line's text with its line feed, or nothing where memory is refused.
fn write_line(alloc: Global, line: &Line, to: &mut Vec<u8>) -> Result<(), OutOfMemory>
    ensures ok { OnOk result (to.new.items ≡ to.old.items ++ (line_text line.now ++ codes "\n")) }
    ensures err { OnErr result (to.new.items ≡ to.old.items) }
{
    let text = format!(in alloc; "{line}\n")?;
    to.extend_from_slice(text.as_bytes())?;
    Ok(())
}

/// Appends each line's text with a line feed.
fn write_lines(alloc: Global, lines: &[Line], to: &mut Vec<u8>) -> Result<(), OutOfMemory>
    ensures { OnOk result (to.new.items ≡ to.old.items ++ written lines.now) }
{
    for line in lines {
        write_line(alloc, line, to)?;
    }
    Ok(())
}

/// Appends each line's text with a line feed, or nothing where memory is refused.
pub fn write(alloc: Global, lines: &[Line], to: &mut Vec<u8>) -> Result<(), OutOfMemory>
    ensures ok { OnOk result (to.new.items ≡ to.old.items ++ written lines.now) }
    ensures err { OnErr result (to.new.items ≡ to.old.items) }
{
    let mut text = Vec::new(alloc);
    write_lines(alloc, lines, &mut text)?;
    to.extend_from_slice(&text)?;
    Ok(())
}
