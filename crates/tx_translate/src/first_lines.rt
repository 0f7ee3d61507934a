//! Reads the header that a text of any version means, and steps after it, line by line.
ghost use Rattle.std.specs.Prelude.{◌≡◌, ◌<◌, ◌∷◌, ◌++◌, [], IfOk, IfSome, IsFalse, IsTrue, length, true};
ghost use Rattle.tx_lines.specs.Lines.{header_text, step_text, FitsHeader};
ghost use Rattle.tx_lines.specs.Schedule.{Adds, AreSteps, FitsStepOf, SpellsHeader};
ghost use Rattle.tx_translate.specs.FirstLines.{BeginsWith, IsBefore};
ghost use Rattle.tx_translate.specs.Meant.{meant_of};
ghost use Rattle.tx_translate.specs.MeantLines.{left_of, line_of};

use crate::meant_lines::{MeantLines, OwnLine};
use crate::room::Room;
use std::alloc::{AllocError, Global};
use tx_base::{NoMemory, Step};
use tx_lines::{Header, LINES, Schedule, TextKind, Version, first_header};

/// How many bytes the line of a step has at least, with its end, as `1 map 0`.
const STEP_BYTES: usize = 8;

/// The schedule that the first lines of a text mean, and the lines after them: the header, and the
/// steps up to the first line that means none, or that a schedule has no room for. Nothing where
/// the text has no header of a schedule.
pub fn begun_schedule(
    alloc: Global,
    text: &[u8],
) -> Result<Option<(Schedule, MeantLines<'_>)>, NoMemory>
    ensures { IfOk result (λ found. IfSome found (λ r.
        BeginsWith r.0.header r.0.steps.items (left_of r.1) (meant_of text.now))) }
{
    let Some((header, lines)) = header_in(alloc, TextKind::Schedule, text)? else {
        return Ok(None);
    };
    let (steps, left) = first_steps(alloc, header.version, lines)?;
    Ok(Some((Schedule { header, steps }, left)))
}

/// The header of that kind that a text means, and the lines after it. Nothing where it means none.
pub fn header_in(
    alloc: Global,
    kind: TextKind,
    text: &[u8],
) -> Result<Option<(Header, MeantLines<'_>)>, NoMemory>
    ensures { IfOk result (λ found. IfSome found (λ r.
        SpellsHeader kind (meant_of text.now) r.0 (left_of r.1))) }
{
    let (line, rest) = MeantLines::of(text).cut();
    match header_of(alloc, kind, line)? {
        Some(header) => Ok(Some((header, rest))),
        None => Ok(None),
    }
}

/// The header of that kind that a line means. Nothing where it means none, or has no end.
fn header_of(alloc: Global, kind: TextKind, line: OwnLine<'_>) -> Result<Option<Header>, AllocError>
    ensures { IfOk result (λ found. IfSome found (λ header.
        FitsHeader header × (line.entry.is_ended ≡ true)
        × (header_text kind header ++ 10 ∷ [] ≡ line_of line.entry ++ 10 ∷ []))) }
{
    if !line.is_ended {
        return Ok(None);
    }
    let mut room = Room::new();
    let mut head = Vec::new(alloc);
    head.extend_from_slice(line.meaning(&mut room))?;
    head.push(b'\n')?;
    match first_header(kind, head.as_slice()) {
        Ok((header, [])) => Ok(Some(header)),
        _ => Ok(None),
    }
}

/// The steps of that version that the first lines mean, up to the first line that means none, or
/// that a schedule has no room for; and the lines from that one on.
fn first_steps<'a>(
    alloc: Global,
    version: Version,
    lines: MeantLines<'a>,
) -> Result<(Vec<Step>, MeantLines<'a>), AllocError>
    ensures { IfOk result (λ r.
        IsBefore step_text (AreSteps version) r.0.items (left_of r.1) (left_of lines.entry)) }
{
    let mut steps = Vec::with_capacity(alloc, LINES.min(lines.bytes_left() / STEP_BYTES))?;
    let mut room = Room::new();
    let mut left = lines;
    while let Some((line, rest)) = left.split() {
        if !add_step(version, line, &mut room, &mut steps)? {
            break;
        }
        left = rest;
    }
    Ok((steps, left))
}

/// Appends the step of that version that a line means. Returns whether the line means one, and a
/// schedule has room for it; if not, the steps stay as they were.
#[inline(always)] // a call of its own costs each line of a schedule 30 instructions
fn add_step(
    version: Version,
    line: OwnLine<'_>,
    room: &mut Room,
    steps: &mut Vec<Step>,
) -> Result<bool, AllocError>
    ensures added { IfOk result (λ added. IsTrue added → (line.entry.is_ended ≡ true)
        × (length steps.old.items < 4096)
        × Adds step_text (FitsStepOf version) (line_of line.entry) steps.old.items steps.new.items) }
    ensures none { IfOk result (λ added. IsFalse added → steps.new.items ≡ steps.old.items) }
{
    let count = steps.len();
    if count >= LINES || !line.is_ended {
        return Ok(false);
    }
    steps.push(Step::blank())?;
    if line.read_step_into(version, room, &mut steps[count]) {
        return Ok(true);
    }
    steps.truncate(count);
    Ok(false)
}
