//! What is said of each proper front of bytes.

use crate::asking::Types;
use crate::stop::Stop;
use crate::telling::Verb;
use crate::words::put;
use std::alloc::Global;

/// What is said of a front.
#[derive(Clone, Copy, PartialEq, Eq)]
enum Said {
    /// It ends inside a value.
    Short,
    /// It is faulty at its end.
    Ends,
    /// It is faulty elsewhere.
    Refused,
    /// It reads.
    Reads,
}

impl Said {
    fn word(self) -> &'static str {
        match self {
            Said::Short => "short",
            Said::Ends => "end early",
            Said::Refused => "refused",
            Said::Reads => "read",
        }
    }
}

fn judge(alloc: Global, size: usize, text: &str) -> Result<Said, Stop> {
    let ends = format!(in alloc; "byte {size}: 80070000")?;
    Ok(if text == "short" {
        Said::Short
    } else if text == ends.as_str() {
        Said::Ends
    } else if text.starts_with("byte ") || text.starts_with("unknown ") {
        Said::Refused
    } else {
        Said::Reads
    })
}

/// What is said of a front of this type.
fn said_of<T: Types>(alloc: Global, name: &str, front: &[u8]) -> Result<Said, Stop> {
    let mut text = String::new(alloc);
    T::tell(alloc, Verb::Size, name, front, &mut text)?;
    judge(alloc, front.len(), &text)
}

/// Fronts of which the same is said.
#[derive(Clone, Copy)]
struct Run {
    said: Said,
    count: u64,
}

impl Run {
    fn put(self, alloc: Global, to: &mut String) -> Result<(), Stop> {
        if self.count == 0 {
            return Ok(());
        }
        if !to.is_empty() {
            put(to, ", ")?;
        }
        let count = self.count;
        let word = self.said.word();
        put(to, format!(in alloc; "{count} {word}")?.as_str())
    }

    /// The run with one more front, or a new one.
    fn with(self, alloc: Global, said: Said, to: &mut String) -> Result<Run, Stop> {
        if self.said == said {
            return Ok(Run {
                said,
                count: self.count.saturating_add(1),
            });
        }
        self.put(alloc, to)?;
        Ok(Run { said, count: 1 })
    }
}

/// Tells of how many proper fronts, from the shortest on, the same is said.
pub(crate) fn tell_fronts<T: Types>(
    alloc: Global,
    name: &str,
    bytes: &[u8],
    to: &mut String,
) -> Result<(), Stop> {
    let mut run = Run {
        said: Said::Short,
        count: 0,
    };
    for size in 0..bytes.len() {
        let said = said_of::<T>(alloc, name, bytes.split_at(size).0)?;
        run = run.with(alloc, said, to)?;
    }
    run.put(alloc, to)
}
