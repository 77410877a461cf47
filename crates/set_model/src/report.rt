ghost use Rattle.std.specs.Prelude.{◌≡◌, ◌++◌, IfOk, OnOk};
ghost use Rattle.std.specs.List.{flat_map};
ghost use Rattle.set_model.specs.Line.{line_text};
ghost use Rattle.set_model.specs.Report.{data_count, is_data, report_text};

use crate::line::{LogLine, write_line};
use std::alloc::Global;
use ua_base::OutOfMemory;

impl LogLine {
    /// Whether it says that a change was delivered.
    pub fn is_data(&self) -> bool
        ensures { result ≡ is_data self.now }
    {
        matches!(self, LogLine::Delivered { .. })
    }
}

fn data_count(log: &[LogLine]) -> usize
    ensures { result ≡ data_count log.now }
{
    log.iter().filter(|line| line.is_data()).count()
}

fn write_lines(alloc: Global, log: &[LogLine], text: &mut Vec<u8>) -> Result<(), OutOfMemory>
    ensures { OnOk result (text.new.items ≡ text.old.items ++ flat_map line_text log.now) }
{
    for line in log {
        write_line(alloc, line, text)?;
    }
    Ok(())
}

/// The text of a log's report: its lines, and `done` with the number of its data lines.
pub fn report_of(alloc: Global, log: &[LogLine]) -> Result<Vec<u8>, OutOfMemory>
    ensures { IfOk result (λ text. text.items ≡ report_text log.now) }
{
    let mut text = Vec::new(alloc);
    write_lines(alloc, log, &mut text)?;
    let done = LogLine::Done {
        changes: data_count(log) as u64,
    };
    write_line(alloc, &done, &mut text)?;
    Ok(text)
}
