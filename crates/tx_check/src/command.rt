//! Reads a text from one end, and writes the report on it to another.
ghost use Rattle.tx_check.specs.Command.{Checks};
ghost use Rattle.tx_check.specs.Readers.{IsSaidFor};
ghost use Rattle.tx_check.specs.declared.readers.Reader.TheVariants as readers;
ghost use Rattle.tx_lines.specs.Ends.{IsFresh};

use crate::checks_for::check_text_for;
use crate::readers::Reader;
use std::alloc::Global;
use tx_lines::{Fault, Sink, Source, read_whole, write_whole};

/// Reads a text to its end, and writes the report for the command of its kind, as `check_for` with
/// no command named.
pub fn check<S: Source, W: Sink>(alloc: Global, source: &mut S, sink: &mut W) -> Result<bool, Fault>
    requires source { IsFresh (S.counts source.old) }
    requires sink { IsFresh (W.counts sink.old) }
    ensures { Checks (IsSaidFor readers.Any) (S.left source.old) (S.counts source.old)
        (W.written sink.old) (W.counts sink.old) result (S.counts source.new)
        (W.written sink.new) (W.counts sink.new) }
{
    check_for(alloc, Reader::Any, source, sink)
}

/// Reads a text to its end, and writes the report of `check_text_for` for that command. Answers
/// whether the command reads the text, and so nothing is reported.
///
/// `TooLong` at line 0 where the text has more than 1,048,576 bytes, and `Reader` and `NoMemory`:
/// nothing is written then. `Writer`: a front of the report is.
pub fn check_for<S: Source, W: Sink>(
    alloc: Global,
    reader: Reader,
    source: &mut S,
    sink: &mut W,
) -> Result<bool, Fault>
    requires source { IsFresh (S.counts source.old) }
    requires sink { IsFresh (W.counts sink.old) }
    ensures { Checks (IsSaidFor reader) (S.left source.old) (S.counts source.old)
        (W.written sink.old) (W.counts sink.old) result (S.counts source.new)
        (W.written sink.new) (W.counts sink.new) }
{
    let text = read_whole(alloc, source)?;
    let report = check_text_for(alloc, reader, text.as_slice())?;
    let bytes = report.as_bytes();
    write_whole(sink, bytes)?;
    Ok(bytes.is_empty())
}
