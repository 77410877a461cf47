ghost use Rattle.std.specs.Prelude.{◌≡◌, ℕ, ◌≤◌, None, length};

use crate::{Put, Sink, Source, Took};
use std::io::{Read, Write};

/// A source over a reader, as standard input. It tells what the reader tells.
#[derive(Drop)]
pub struct ReadSource<R: Read + Drop> {
    reader: R,
    faults: u64,
}

impl<R: Read + Drop> ReadSource<R> {
    /// A source over this reader.
    pub fn new(reader: R) -> ReadSource<R>
        ensures reader { result.reader ≡ reader }
        ensures faults { result.faults ≡ 0 }
    {
        ReadSource { reader, faults: 0 }
    }
}

impl<R: Read + Drop> Source for ReadSource<R> {
    ghost left = { λ s. R.remaining s.reader };

    ghost faults = { λ s. s.faults };

    fn take(&mut self, to: &mut [u8]) -> Took {
        match self.reader.read(to) {
            Ok(0) if !to.is_empty() => Took::End,
            Ok(count) => Took::Bytes(count),
            Err(_) => {
                self.faults = self.faults.saturating_add(1);
                Took::Failed
            }
        }
    }
}

/// A sink over a writer, as standard output. It tells what the writer tells.
#[derive(Drop)]
pub struct WriteSink<W: Write + Drop> {
    writer: W,
    faults: u64,
}

impl<W: Write + Drop> WriteSink<W> {
    /// A sink over this writer.
    pub fn new(writer: W) -> WriteSink<W>
        ensures writer { result.writer ≡ writer }
        ensures faults { result.faults ≡ 0 }
    {
        WriteSink { writer, faults: 0 }
    }
}

impl<W: Write + Drop> Sink for WriteSink<W> {
    ghost written = { λ s. W.contents s.writer };

    ghost faults = { λ s. s.faults };

    fn put(&mut self, bytes: &[u8]) -> Put {
        match self.writer.write(bytes) {
            Ok(0) if !bytes.is_empty() => {
                self.faults = self.faults.saturating_add(1);
                Put::Failed
            }
            Ok(count) => Put::Wrote(count),
            Err(_) => {
                self.faults = self.faults.saturating_add(1);
                Put::Failed
            }
        }
    }
}
