//! Reads and writes whole texts.
ghost use Rattle.tx_lines.specs.Ends.{IsFresh};
ghost use Rattle.tx_lines.specs.Whole.{ReadsWhole, WritesWhole};

use crate::ends::flow::{Flow, Sink, Source};
use crate::faults::Fault;
use std::alloc::Global;

/// How long a text may be, in bytes.
pub const TEXT_BYTES: usize = 1_048_576;

/// How many interruptions the reads or the writes of one text may meet.
pub const INTERRUPTIONS: u64 = 1_000;

/// Reads a text to its end. A longer one than `TEXT_BYTES` is `TooLong` at line 0; a failure, and
/// the interruption after `INTERRUPTIONS`, is `Reader`; a refused growth is `NoMemory`. Some bytes
/// of the source may be gone after an error.
pub fn read_whole<S: Source>(alloc: Global, source: &mut S) -> Result<Vec<u8>, Fault>
    requires { IsFresh (S.counts source.old) }
    ensures { ReadsWhole (S.left source.old) (S.counts source.old) result (S.left source.new)
        (S.counts source.new) }
{
    let mut text = Vec::new(alloc);
    let mut interruptions = 0;
    let mut buffer = [0u8; 512];
    loop {
        match source.read(&mut buffer) {
            Flow::Bytes(0) => return Ok(text),
            Flow::Bytes(count) => {
                if text.len() + count > TEXT_BYTES {
                    return Err(Fault::TooLong { line: 0 });
                }
                if text.extend_from_slice(&buffer[..count]).is_err() {
                    return Err(Fault::NoMemory);
                }
            }
            Flow::Again => {
                if interruptions == INTERRUPTIONS {
                    return Err(Fault::Reader);
                }
                interruptions += 1;
            }
            Flow::Failed => return Err(Fault::Reader),
        }
    }
}

/// Writes a text to its end. A failure, a write that takes no byte, and the interruption after
/// `INTERRUPTIONS`, is `Writer`; then only a front of the text is written.
pub fn write_whole<S: Sink>(sink: &mut S, text: &[u8]) -> Result<(), Fault>
    requires { IsFresh (S.counts sink.old) }
    ensures { WritesWhole (S.written sink.old) (S.counts sink.old) text.now result
        (S.written sink.new) (S.counts sink.new) }
{
    let mut at = 0;
    let mut interruptions = 0;
    while at < text.len() {
        match sink.write(&text[at..]) {
            Flow::Bytes(0) => return Err(Fault::Writer),
            Flow::Bytes(count) => at += count,
            Flow::Again => {
                if interruptions == INTERRUPTIONS {
                    return Err(Fault::Writer);
                }
                interruptions += 1;
            }
            Flow::Failed => return Err(Fault::Writer),
        }
    }
    Ok(())
}
