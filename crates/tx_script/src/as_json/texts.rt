//! Reads a text of any version, and answers it as lines of JSON.
ghost use Rattle.std.specs.Prelude.{◌≡◌, ◌≢◌};
ghost use Rattle.tx_check.specs.Kinds.{kind_of};
ghost use Rattle.tx_check.specs.declared.kinds.Kind.TheVariants as kinds;
ghost use Rattle.tx_lines.specs.Ends.{IsFresh};
ghost use Rattle.tx_translate.specs.Meant.{meant_of};
ghost use Rattle.tx_script.specs.Answered.{Answers};
ghost use Rattle.tx_script.specs.JsonTexts.{texts};
ghost use Rattle.tx_script.specs.Grammars.{AnswersText};

use crate::as_json::steps::schedule_lines;
use crate::commands::answer_walk;
use crate::forms::Form;
use std::alloc::Global;
use tx_check::{Kind, kind_of};
use tx_lines::{Fault, Sink, Source, read_whole, write_whole};
use tx_translate::{MeantLines, read_schedule, read_walk};

/// Reads a schedule, or one with commands, to its end, and writes what `json_text` answers.
/// Nothing is written where the fault is another one than `Writer`.
pub fn write_json<S: Source, W: Sink>(
    alloc: Global,
    source: &mut S,
    sink: &mut W,
) -> Result<(), Fault>
    requires source { IsFresh (S.counts source.old) }
    requires sink { IsFresh (W.counts sink.old) }
    ensures { Answers texts (S.left source.old) (S.counts source.old) (W.written sink.old)
        (W.counts sink.old) result (S.counts source.new) (W.written sink.new) (W.counts sink.new) }
{
    let text = read_whole(alloc, source)?;
    let lines = json_text(alloc, text.as_slice())?;
    write_whole(sink, lines.as_bytes())
}

/// The answer to a text of any version, a line of JSON each: of a schedule the reply to each step,
/// and then the state; of a schedule with commands what each command answers.
///
/// A fault where the text can't be read, or a growth of memory is refused, as `replay` and `debug`
/// report it. A program is no schedule: its first line is at fault.
pub fn json_text(alloc: Global, text: &[u8]) -> Result<String, Fault>
    ensures { AnswersText texts text.now result }
{
    match kind_of(MeantLines::of(text)) {
        Kind::Walk => walk_text(alloc, text),
        Kind::Schedule | Kind::Program => schedule_text(alloc, text),
    }
}

/// What the commands of a text answer. Such a text has the line before commands.
fn walk_text(alloc: Global, text: &[u8]) -> Result<String, Fault>
    requires { kind_of (meant_of text.now) ≡ kinds.Walk }
    ensures { AnswersText texts text.now result }
{
    let walk = read_walk(alloc, text)?;
    answer_walk(alloc, Form::Json, walk)
}

/// The replies to the steps of a text, and the state that they leave.
fn schedule_text(alloc: Global, text: &[u8]) -> Result<String, Fault>
    requires { kind_of (meant_of text.now) ≢ kinds.Walk }
    ensures { AnswersText texts text.now result }
{
    let schedule = read_schedule(alloc, text)?;
    schedule_lines(alloc, schedule)
}
