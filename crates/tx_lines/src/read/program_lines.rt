//! Reads the lines of a program after the first.
ghost use Rattle.std.specs.Prelude.{◌≡◌, ◌+◌, ◌-◌, ◌≤◌, ◌++◌, ◌∷◌, ◌⊎◌, ◌↔◌, ℕ, [], IfErr, IfOk, IfSome, IsTrue, MatchResult, OnOk, Some, length};
ghost use Rattle.std.specs.List.{IsDistinct};
ghost use Rattle.std.specs.Map.{keys_of, lookup};
ghost use Rattle.tx_lines.specs.Programs.{labels_of, line_text, same_name, AreLines, FaultsAfterLines, FaultsUnreadLine, IsLineOf, IsNoLineOf, IsPastCounts, IsSecondLabel};
ghost use Rattle.tx_lines.specs.Schedule.{first_line, lines_of, Adds, FaultsBy, IsLine};
ghost use Rattle.tx_lines.specs.declared.faults.Fault.TheVariants.{NoMemory, NotALine};
ghost use Rattle.tx_lines.specs.declared.instructions.Line.{Line};

use crate::faults::Fault;
use crate::instructions::{Line, Name};
use crate::read::header::Version;
use crate::read::instructions::read_instruction;
use crate::read::lines::{line_of, take_line};
use crate::read::spellings::read_name;
use crate::read::split::after_front;
use indexmap::IndexMap;
use std::alloc::Global;

/// How many instructions a program may have.
pub const INSTRUCTIONS: usize = 1_024;

/// How many labels a program may have.
pub const LABELS: usize = 256;

/// The number of the first line after the header.
pub const FIRST_LINE: u64 = 2;

/// The lines of a program of that version after its header, and their labels in the order met,
/// each with the number of the instruction after it. The first line at fault decides: `TooLong`
/// where it has more than 512 bytes, or is an instruction after 1,024 or a label after 256; and
/// else `NotALine` where it has no end, or is none of a program's, or a label of a name that was
/// met before. A refused growth is `NoMemory`.
pub fn read_lines(
    alloc: Global,
    version: Version,
    text: &[u8],
) -> Result<(Vec<Line>, IndexMap<Name, u32>), Fault>
    ensures { MatchResult result
        (λ r. AreLines version r.0.items × (text.now ≡ lines_of line_text r.0.items)
        × (r.1.entries ≡ labels_of r.0.items)) (FaultsBy (FaultsAfterLines version text.now)) }
{
    let mut lines = Vec::new(alloc);
    let mut labels = IndexMap::new(alloc);
    let mut left = text;
    while !left.is_empty() {
        let (line, rest) = next_line(lines.len(), labels.len(), left)?;
        push_line(version, line, &mut lines, &mut labels)?;
        left = rest;
    }
    Ok((lines, labels))
}

/// The first line of what is left of a program after so many lines, and so many labels among them,
/// and the text after that line.
fn next_line(count: usize, labels: usize, left: &[u8]) -> Result<(&[u8], &[u8]), Fault>
    requires labels { labels ≤ count }
    requires few { count ≤ 1280 }
    ensures line { IfOk result (λ r. IsLine left.now r.0.now r.1.now) }
    ensures few { OnOk result (IsPastCounts (count - labels) labels (first_line left.now) → ⊥) }
    ensures fault { IfErr result (FaultsUnreadLine count (count - labels) labels left.now) }
{
    let number = count as u64 + FIRST_LINE;
    if is_past(count - labels, labels, left) {
        return Err(Fault::TooLong { line: number });
    }
    line_of(number, left)
}

/// Whether the first line of a text is one too many after so many instructions and labels.
fn is_past(instructions: usize, labels: usize, text: &[u8]) -> bool
    ensures { IsTrue result ↔ IsPastCounts instructions labels (first_line text.now) }
{
    let (line, _rest) = take_line(text);
    match after_front(b"label ", line) {
        Some(_name) => labels == LABELS,
        None => instructions == INSTRUCTIONS,
    }
}

/// Reads a line of a program of that version, and appends it; a label also to the labels.
///
/// `NotALine` where it is none of a program's, or a label of a name that was met before; and
/// `NoMemory` where a growth is refused.
pub fn push_line(
    version: Version,
    line: &[u8],
    lines: &mut Vec<Line>,
    labels: &mut IndexMap<Name, u32>,
) -> Result<(), Fault>
    requires short { length line.now ≤ 512 }
    requires few { length lines.old.items ≤ 1280 }
    requires labels { labels.old.entries ≡ labels_of lines.old.items }
    requires distinct { IsDistinct same_name (keys_of labels.old.entries) }
    ensures added { OnOk result
        (Adds line_text (IsLineOf version) line.now lines.old.items lines.new.items) }
    ensures labels { OnOk result (labels.new.entries ≡ labels_of lines.new.items) }
    ensures distinct { OnOk result (IsDistinct same_name (keys_of labels.new.entries)) }
    ensures fault { IfErr result (λ fault.
        (fault ≡ NoMemory) ⊎ ((fault ≡ NotALine (length lines.old.items + 2))
        × (IsNoLineOf version line.now ⊎ IsSecondLabel lines.old.items line.now))) }
{
    match read_line(version, line) {
        Some(Line::Label(name)) => {
            push_label(&name, lines.len(), labels)?;
            push(Line::Label(name), lines)
        }
        Some(Line::Instruction(instruction)) => push(Line::Instruction(instruction), lines),
        None => Err(Fault::NotALine {
            line: lines.len() as u64 + FIRST_LINE,
        }),
    }
}

/// Appends a line.
fn push(line: Line, lines: &mut Vec<Line>) -> Result<(), Fault>
    ensures more { OnOk result (lines.new.items ≡ lines.old.items ++ line ∷ []) }
    ensures fault { IfErr result (λ fault. fault ≡ NoMemory) }
{
    if lines.push(line).is_err() {
        return Err(Fault::NoMemory);
    }
    Ok(())
}

/// Appends a label that comes after so many lines.
///
/// `NotALine` where its name was met before, and `NoMemory` where a growth is refused.
fn push_label(name: &Name, count: usize, labels: &mut IndexMap<Name, u32>) -> Result<(), Fault>
    requires among { length labels.old.entries ≤ count }
    requires few { count ≤ 1280 }
    ensures labels { OnOk result
        (labels.new.entries ≡ labels.old.entries ++ (name.now, count - length labels.old.entries)
        ∷ []) }
    ensures distinct { OnOk result (IsDistinct same_name (keys_of labels.new.entries)) }
    ensures fault { IfErr result (λ fault.
        (fault ≡ NoMemory) ⊎ ((fault ≡ NotALine (count + 2))
        × ((number : ℕ) × (lookup (same_name name.now) labels.old.entries ≡ Some number)))) }
{
    if labels.contains_key(name) {
        return Err(Fault::NotALine {
            line: count as u64 + FIRST_LINE,
        });
    }
    let instruction = (count - labels.len()) as u32;
    if labels.insert(name.copy(), instruction).is_err() {
        return Err(Fault::NoMemory);
    }
    Ok(())
}

/// What a line of a program of that version is. Nothing where it is another line.
pub fn read_line(version: Version, line: &[u8]) -> Option<Line>
    requires { length line.now ≤ 512 }
    ensures found { IfSome result (λ l. line.now ≡ line_text l) }
    ensures good { IfSome result (IsLineOf version) }
    ensures only { (l : Line) → IsLineOf version l → line.now ≡ line_text l → result ≡ Some l }
{
    if let Some(word) = after_front(b"label ", line) {
        let name = read_name(word)?;
        return Some(Line::Label(name));
    }
    let instruction = read_instruction(version, line)?;
    Some(Line::Instruction(instruction))
}
