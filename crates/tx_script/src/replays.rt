//! Reads a schedule, runs it, and writes the report.
ghost use Rattle.tx_script.specs.Answered.{Answers};
ghost use Rattle.tx_lines.specs.Ends.{IsFresh};
ghost use Rattle.tx_script.specs.Grammars.{schedules, AnswersText};

use crate::reports::report;
use std::alloc::Global;
use tx_lines::{Fault, Sink, Source, read_whole, write_whole};
use tx_translate::read_schedule;

/// Reads the text of a schedule to its end, runs it, and writes the report. Nothing is written
/// where the fault is another one than `Writer`.
pub fn replay<S: Source, W: Sink>(alloc: Global, source: &mut S, sink: &mut W) -> Result<(), Fault>
    requires source { IsFresh (S.counts source.old) }
    requires sink { IsFresh (W.counts sink.old) }
    ensures { Answers schedules (S.left source.old) (S.counts source.old) (W.written sink.old)
        (W.counts sink.old) result (S.counts source.new) (W.written sink.new) (W.counts sink.new) }
{
    let text = read_whole(alloc, source)?;
    let report = replay_text(alloc, text.as_slice())?;
    write_whole(sink, report.as_bytes())
}

/// The report of the schedule that a text spells, or means, as `replay` writes it. The text may be
/// of any version.
///
/// A fault where the text can't be read, or a growth of memory is refused, as `replay` reports it.
pub fn replay_text(alloc: Global, text: &[u8]) -> Result<String, Fault>
    ensures { AnswersText schedules text.now result }
{
    let schedule = read_schedule(alloc, text)?;
    report(alloc, &schedule)
}
