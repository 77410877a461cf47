//! The words of a command.

ghost use Rattle.std.specs.Prelude.{◌≡◌, map};
ghost use Rattle.uaset.specs.Words.{Yields, behind, command_of, farther, no_more, read_row};
ghost use Rattle.uaset.specs.Words.{replay_row, stream_row, value_row};

/// What the program may be told to do.
#[derive(Clone, Copy)]
pub enum Command {
    /// Runs a scenario and writes its report.
    Replay,
    /// Reads one DataValue and writes what it holds.
    ShowValue,
    /// Reads one direction of a UA TCP stream and writes a line for each frame.
    ShowStream,
}

/// The words behind this one, which is to stand at a place.
fn behind<'a>(words: &'a [&'a str], place: usize, word: &str) -> Result<&'a [&'a str], usize>
    ensures { Yields (λ left. map (λ w. w.now) left.now) result (behind word.now place (map (λ w. w.now) words.now)) }
{
    match words {
        [first, rest @ ..] => { if *first == word { Ok(rest) } else { Err(place) } }
        [] => Err(place),
    }
}

/// The command, where no word is left.
fn ends(words: &[&str], place: usize, command: Command) -> Result<Command, usize>
    ensures { result ≡ no_more command place (map (λ w. w.now) words.now) }
{
    match words {
        [] => Ok(command),
        [_, ..] => Err(place),
    }
}

fn replay(words: &[&str]) -> Result<Command, usize>
    ensures { result ≡ read_row replay_row 0 (map (λ w. w.now) words.now) }
{
    ends(behind(words, 0, "replay")?, 1, Command::Replay)
}

fn show_value(words: &[&str]) -> Result<Command, usize>
    ensures { result ≡ read_row value_row 0 (map (λ w. w.now) words.now) }
{
    let shown = behind(words, 0, "show")?;
    ends(behind(shown, 1, "value")?, 2, Command::ShowValue)
}

fn show_stream(words: &[&str]) -> Result<Command, usize>
    ensures { result ≡ read_row stream_row 0 (map (λ w. w.now) words.now) }
{
    let shown = behind(words, 0, "show")?;
    ends(behind(shown, 1, "stream")?, 2, Command::ShowStream)
}

/// What the first row says, or else what the other says; or the place to which the words fit one of them.
fn farther(first: Result<Command, usize>, other: Result<Command, usize>) -> Result<Command, usize>
    ensures { result ≡ farther first other }
{
    match (first, other) {
        (Ok(command), _) => Ok(command),
        (Err(_), Ok(command)) => Ok(command),
        (Err(place), Err(other)) => Err(place.max(other)),
    }
}

impl Command {
    /// The command that the words are; or the place of the first word that fits none, from 0, or the count of words
    /// where they end early.
    pub(crate) fn of(words: &[&str]) -> Result<Command, usize>
        ensures { result ≡ command_of (map (λ w. w.now) words.now) }
    {
        farther(
            replay(words),
            farther(show_value(words), show_stream(words)),
        )
    }
}
