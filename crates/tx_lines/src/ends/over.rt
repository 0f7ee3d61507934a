//! The ends over readers and writers of the standard library.
ghost use Rattle.std.specs.Prelude.{◌≡◌};

use crate::ends::flow::{Flow, Sink, Source};
use std::io::{ErrorKind, Read, Write};

/// A source over a reader. The bytes that it has left are the reader's, where those are known.
#[derive(Drop)]
pub struct OverRead<R: Read + Drop> {
    reader: R,
    again: u64,
    failed: u64,
}

impl<R: Read + Drop> OverRead<R> {
    ghost use Rattle.tx_lines.specs.Over.{read_counts, no_counts};

    /// A source over that reader, with no interruption or failure so far.
    pub fn new(reader: R) -> OverRead<R>
        ensures reader { result.reader ≡ reader }
        ensures counts { read_counts result ≡ no_counts }
    {
        let (again, failed) = (0, 0);
        OverRead {
            reader,
            again,
            failed,
        }
    }
}

impl<R: Read + Drop> Source for OverRead<R> {
    ghost use Rattle.tx_lines.specs.Over.{read_counts};

    ghost left = { λ source. R.remaining source.reader };

    ghost counts = { read_counts };

    fn read(&mut self, buffer: &mut [u8]) -> Flow {
        match self.reader.read(buffer) {
            Ok(count) => Flow::Bytes(count),
            Err(error) => {
                if error.kind() == ErrorKind::Interrupted {
                    self.again += 1;
                    return Flow::Again;
                }
                self.failed += 1;
                Flow::Failed
            }
        }
    }
}

/// A sink over a writer. The bytes that it holds are the writer's, where those are known.
#[derive(Drop)]
pub struct OverWrite<W: Write + Drop> {
    writer: W,
    again: u64,
    failed: u64,
    empty: u64,
}

impl<W: Write + Drop> OverWrite<W> {
    ghost use Rattle.tx_lines.specs.Over.{write_counts, no_counts};

    /// A sink over that writer, with no interruption or failure so far.
    pub fn new(writer: W) -> OverWrite<W>
        ensures writer { result.writer ≡ writer }
        ensures counts { write_counts result ≡ no_counts }
    {
        OverWrite {
            writer,
            again: 0,
            failed: 0,
            empty: 0,
        }
    }
}

impl<W: Write + Drop> Sink for OverWrite<W> {
    ghost use Rattle.tx_lines.specs.Over.{write_counts};

    ghost written = { λ sink. W.contents sink.writer };

    ghost counts = { write_counts };

    fn write(&mut self, bytes: &[u8]) -> Flow {
        match self.writer.write(bytes) {
            Ok(0) => {
                self.empty += 1;
                Flow::Bytes(0)
            }
            Ok(count) => Flow::Bytes(count),
            Err(error) => {
                if error.kind() == ErrorKind::Interrupted {
                    self.again += 1;
                    return Flow::Again;
                }
                self.failed += 1;
                Flow::Failed
            }
        }
    }
}
