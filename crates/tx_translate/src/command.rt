//! Reads a text from one end, and writes to another the text that it means.
ghost use Rattle.tx_lines.specs.Ends.{IsFresh};
ghost use Rattle.tx_translate.specs.Command.{TranslatesText};

use crate::meant::Meant;
use std::alloc::Global;
use tx_lines::{Fault, Sink, Source, read_whole, write_whole};

/// Reads a text to its end, and writes the text of the first two versions that it means: itself,
/// where it is none of version 3.
///
/// `TooLong` at line 0 where the text has more than 1,048,576 bytes, and `Reader` and `NoMemory`:
/// nothing is written then. `Writer`: only a front of it is written then.
pub fn write_plain<S: Source, W: Sink>(
    alloc: Global,
    source: &mut S,
    sink: &mut W,
) -> Result<(), Fault>
    requires source { IsFresh (S.counts source.old) }
    requires sink { IsFresh (W.counts sink.old) }
    ensures { TranslatesText (S.left source.old) (S.counts source.old) (W.written sink.old)
        (W.counts sink.old) result (S.counts source.new) (W.written sink.new) (W.counts sink.new) }
{
    let text = read_whole(alloc, source)?;
    let meant = Meant::by(alloc, text.as_slice())?;
    write_whole(sink, meant.as_bytes())
}
