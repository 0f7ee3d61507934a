//! Reads a schedule and commands, and writes what each command answers.
ghost use Rattle.tx_script.specs.Answered.{Answers};
ghost use Rattle.tx_lines.specs.Ends.{IsFresh};
ghost use Rattle.tx_script.specs.Grammars.{walks, AnswersText};

use crate::commands::answer_walk;
use crate::forms::Form;
use std::alloc::Global;
use tx_lines::{Fault, Sink, Source, read_whole, write_whole};
use tx_translate::read_walk;

/// Reads the text of a schedule, the line `debug` and commands to its end, makes the steps, and
/// writes what the commands answer about the history of the schedule and its position. Nothing is
/// written where the fault is another one than `Writer`.
pub fn debug<S: Source, W: Sink>(alloc: Global, source: &mut S, sink: &mut W) -> Result<(), Fault>
    requires source { IsFresh (S.counts source.old) }
    requires sink { IsFresh (W.counts sink.old) }
    ensures { Answers walks (S.left source.old) (S.counts source.old) (W.written sink.old)
        (W.counts sink.old) result (S.counts source.new) (W.written sink.new) (W.counts sink.new) }
{
    let text = read_whole(alloc, source)?;
    let answers = debug_text(alloc, text.as_slice())?;
    write_whole(sink, answers.as_bytes())
}

/// What the commands of a text answer, as `debug` writes it. The text may be of any version.
///
/// A fault where the text can't be read, or a growth of memory is refused, as `debug` reports it.
pub fn debug_text(alloc: Global, text: &[u8]) -> Result<String, Fault>
    ensures { AnswersText walks text.now result }
{
    let walk = read_walk(alloc, text)?;
    answer_walk(alloc, Form::Text, walk)
}
