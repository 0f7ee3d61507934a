//! Reads the program that a text of any version means.
ghost use Rattle.std.specs.Prelude.{◌≡◌, ◌+◌, ◌≤◌, IfOk, IfSome, IsTrue, true};
ghost use Rattle.tx_lines.specs.Ends.{IsFresh};
ghost use Rattle.tx_lines.specs.Programs.{labels_of, line_text, AreLines, IsLineOf};
ghost use Rattle.tx_lines.specs.Schedule.{lines_of, Adds};
ghost use Rattle.tx_translate.specs.MeantLines.{left_of, line_of};
ghost use Rattle.tx_translate.specs.MeantPrograms.{IsMeantProgram, MeansProgramFrom, MeansProgramOf};

use crate::first_lines::header_in;
use crate::meant::Meant;
use crate::meant_lines::{MeantLines, OwnLine};
use crate::plain::is_third;
use crate::room::Room;
use indexmap::IndexMap;
use std::alloc::Global;
use tx_base::NoMemory;
use tx_lines::{
    Fault, INSTRUCTIONS, LABELS, LINE_BYTES, Line, Name, Program, Source, TextKind, Version, link,
    push_line, read_program_text, read_whole,
};

/// Reads the text of a program of any version to its end: the program, or why there is none. A
/// text of more than 1,048,576 bytes is `TooLong` at line 0. A failure of the source, and its
/// 1,001st interruption, is `Reader`.
pub fn read_program<S: Source>(alloc: Global, source: &mut S) -> Result<Program, Fault>
    requires { IsFresh (S.counts source.old) }
    ensures { MeansProgramFrom (S.left source.old) (S.counts source.old) result
        (S.counts source.new) }
{
    let text = read_whole(alloc, source)?;
    meant_program(alloc, text.as_slice())
}

/// The program that a text means, or the fault of the text. A text of version 3 is read line by
/// line; where it is at fault, what it means is made as a text, in which the fault is found.
fn meant_program(alloc: Global, text: &[u8]) -> Result<Program, Fault>
    ensures { MeansProgramOf text.now result }
{
    if is_third(text)
        && let Some(program) = program_in(alloc, text)?
    {
        return Ok(program);
    }
    let meant = Meant::by(alloc, text)?;
    match read_program_text(alloc, meant.as_bytes()) {
        Ok(program) => Ok(program),
        Err(fault) => Err(meant.own_fault(fault)),
    }
}

/// The program that a text means. Nothing where it means none.
pub fn program_in(alloc: Global, text: &[u8]) -> Result<Option<Program>, NoMemory>
    ensures { IfOk result (λ found. IfSome found (IsMeantProgram text.now)) }
{
    let Some((header, left)) = header_in(alloc, TextKind::Program, text)? else {
        return Ok(None);
    };
    let Some((lines, labels)) = lines_in(alloc, header.version, left)? else {
        return Ok(None);
    };
    match link(alloc, lines.as_slice(), &labels) {
        Ok(instructions) => Ok(Some(Program {
            header,
            instructions,
            labels,
        })),
        Err(Fault::NoMemory) => Err(NoMemory),
        Err(_fault) => Ok(None),
    }
}

/// The lines of a program of that version that lines mean, and their labels. Nothing where one
/// means none, or there are too many.
fn lines_in(
    alloc: Global,
    version: Version,
    left: MeantLines<'_>,
) -> Result<Option<(Vec<Line>, IndexMap<Name, u32>)>, NoMemory>
    ensures { IfOk result (λ found. IfSome found (λ r. AreLines version r.0.items
        × (left_of left.entry ≡ lines_of line_text r.0.items)
        × (r.1.entries ≡ labels_of r.0.items))) }
{
    let mut lines = Vec::new(alloc);
    let mut labels = IndexMap::new(alloc);
    let mut room = Room::new();
    let mut left = left;
    while let Some((line, rest)) = left.split() {
        if !add_line(version, line, &mut room, &mut lines, &mut labels)? {
            return Ok(None);
        }
        left = rest;
    }
    Ok(Some((lines, labels)))
}

/// Appends the line of a program of that version that a line means; a label also to the labels.
/// Returns whether the line means one, and a program has room for it.
fn add_line(
    version: Version,
    line: OwnLine<'_>,
    room: &mut Room,
    lines: &mut Vec<Line>,
    labels: &mut IndexMap<Name, u32>,
) -> Result<bool, NoMemory>
    requires good { AreLines version lines.old.items }
    requires labels { labels.old.entries ≡ labels_of lines.old.items }
    ensures ended { IfOk result (λ added. IsTrue added → line.entry.is_ended ≡ true) }
    ensures added { IfOk result (λ added. IsTrue added →
        Adds line_text (IsLineOf version) (line_of line.entry) lines.old.items lines.new.items) }
    ensures good { IfOk result (λ added. IsTrue added → AreLines version lines.new.items) }
    ensures labels { IfOk result (λ added. IsTrue added →
        labels.new.entries ≡ labels_of lines.new.items) }
{
    let meaning = line.meaning(room);
    if !line.is_ended || meaning.len() > LINE_BYTES {
        return Ok(false);
    }
    match push_line(version, meaning, lines, labels) {
        Ok(()) => Ok(are_few(lines.len(), labels.len())),
        Err(Fault::NoMemory) => Err(NoMemory),
        Err(_fault) => Ok(false),
    }
}

/// Whether a program may have so many lines, of which so many are labels.
fn are_few(lines: usize, labels: usize) -> bool
    ensures { IsTrue result → (labels ≤ 256) × (lines ≤ 1024 + labels) }
{
    labels <= LABELS && lines.saturating_sub(labels) <= INSTRUCTIONS
}
