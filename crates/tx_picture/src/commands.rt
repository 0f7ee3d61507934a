//! Reads a schedule, and writes its picture.
ghost use Rattle.std.specs.Prelude.{◌≡◌, ◌≤◌, IfErr, IfOk, length, string_bytes};
ghost use Rattle.tx_lines.specs.Ends.{IsFresh};
ghost use Rattle.tx_lines.specs.Lines.{FitsHeader};
ghost use Rattle.tx_lines.specs.declared.faults.Fault.TheVariants.{NoMemory};
ghost use Rattle.tx_picture.specs.Captions.{captioned_in};
ghost use Rattle.tx_picture.specs.Command.{Pictures};
ghost use Rattle.tx_picture.specs.Excerpts.{drawing_in};
ghost use Rattle.tx_picture.specs.Grammars.{pictures};
ghost use Rattle.tx_picture.specs.Pictures.{picture_of};
ghost use Rattle.tx_picture.specs.WellFormed.{IsWellFormed};
ghost use Rattle.tx_translate.specs.Written.{notes_as, notes_of};
ghost use Rattle.tx_script.specs.Grammars.{AnswersText};

use crate::captions::captions_of;
use crate::excerpts::{Excerpt, leave_out};
use crate::walk::draw;
use crate::whole::picture_of;
use std::alloc::Global;
use tx_lines::{Fault, Schedule, Sink, Source, read_whole, write_whole};
use tx_translate::{Written, read_schedule};

/// Reads the text of a schedule to its end, makes its steps, and writes the picture of an excerpt
/// of them in SVG. Where the fault is not `Writer` nothing is written.
pub fn picture<S: Source, W: Sink>(
    alloc: Global,
    excerpt: Excerpt,
    source: &mut S,
    sink: &mut W,
) -> Result<(), Fault>
    requires source { IsFresh (S.counts source.old) }
    requires sink { IsFresh (W.counts sink.old) }
    ensures { Pictures excerpt (S.left source.old) (S.counts source.old) (W.written sink.old)
        (W.counts sink.old) result (S.counts source.new) (W.written sink.new) (W.counts sink.new) }
{
    let text = read_whole(alloc, source)?;
    let picture = picture_text(alloc, excerpt, text.as_slice())?;
    write_whole(sink, picture.as_bytes())
}

/// The picture of an excerpt of the schedule that a text spells, or means, as `picture` writes it.
/// The text may be of any version; of version 3 each step is shown as its author wrote it, and each
/// process has its name. What is open at the end of the excerpt is drawn as open. A stretch that is
/// open at its start, of a process or of a transaction's box, begins at the top edge, and so does
/// what is read in the excerpt and was written before. Signals of the steps before it are left out.
/// An excerpt that begins after the last step has no row. The text of a picture is a well-formed
/// document of XML: one element holds all, each that is opened is closed, none has an attribute
/// twice, and each text is escaped.
///
/// A fault where the text can't be read, or a growth of memory is refused, as `picture` reports it.
#[tactic(auto, unfolding(crate::specs::Grammars::pictures))]
pub fn picture_text(alloc: Global, excerpt: Excerpt, text: &[u8]) -> Result<String, Fault>
    ensures answers { AnswersText (pictures excerpt (notes_of text.now)) text.now result }
    ensures formed { IfOk result (λ picture. IsWellFormed (string_bytes picture)) }
{
    let schedule = read_schedule(alloc, text)?;
    let written = Written::of(alloc, text)?;
    print_picture(alloc, excerpt, &schedule, written)
}

/// The picture of an excerpt of a schedule whose author wrote that. The only fault is `NoMemory`.
fn print_picture(
    alloc: Global,
    excerpt: Excerpt,
    schedule: &Schedule,
    written: Written<'_>,
) -> Result<String, Fault>
    requires fits { FitsHeader schedule.now.header }
    requires few { length schedule.now.steps.items ≤ 4096 }
    ensures text { IfOk result (λ text. string_bytes text ≡ picture_of
        (captioned_in (notes_as written.entry) schedule.now.header schedule.now.steps.items)
        (drawing_in excerpt schedule.now.header schedule.now.steps.items)) }
    ensures formed { IfOk result (λ text. IsWellFormed (string_bytes text)) }
    ensures fault { IfErr result (λ fault. fault ≡ NoMemory) }
{
    let made = excerpt.made(schedule.steps.as_slice());
    let mut drawing = draw(alloc, schedule.header, made)?;
    leave_out(alloc, &mut drawing, excerpt.before(made.len() as u16))?;
    let captions = captions_of(alloc, schedule, written)?;
    let text = picture_of(alloc, &captions, &drawing)?;
    Ok(text)
}
