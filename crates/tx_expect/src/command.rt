//! Reads a text from one end, and writes to another what its expectations come to.
ghost use Rattle.tx_expect.specs.Command.{Expects};
ghost use Rattle.tx_lines.specs.Ends.{IsFresh};

use crate::outcomes::expect_text;
use std::alloc::Global;
use tx_lines::{Fault, Sink, Source, read_whole, write_whole};

/// Reads the text of a schedule to its end, makes its steps, and writes the report of
/// `expect_text`. Answers whether some expectations are met, and none is not.
///
/// Nothing is written where the fault is another one than `Writer`.
pub fn expect<S: Source, W: Sink>(
    alloc: Global,
    source: &mut S,
    sink: &mut W,
) -> Result<bool, Fault>
    requires source { IsFresh (S.counts source.old) }
    requires sink { IsFresh (W.counts sink.old) }
    ensures { Expects (S.left source.old) (S.counts source.old) (W.written sink.old)
        (W.counts sink.old) result (S.counts source.new) (W.written sink.new) (W.counts sink.new) }
{
    let text = read_whole(alloc, source)?;
    let outcome = expect_text(alloc, text.as_slice())?;
    write_whole(sink, outcome.report.as_bytes())?;
    Ok(outcome.is_met)
}
