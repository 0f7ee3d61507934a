//! Finds the line at which the command of a text's kind finds it at fault. It takes no memory.
ghost use Rattle.std.specs.Prelude.{◌≡◌, ◌↔◌, ◌≤◌, ℕ, IfNone, IfSome, IsTrue, MatchOption, length};
ghost use Rattle.std.specs.Option.{option_copied};
ghost use Rattle.tx_check.specs.AfterHeader.{AreProgramLines, IsAllowedAt, IsFaultAt, IsReadBut};
ghost use Rattle.tx_check.specs.Kinds.{head_of};
ghost use Rattle.tx_check.specs.Kinds as spec;
ghost use Rattle.tx_check.specs.Labels.{AreKnown};
ghost use Rattle.tx_check.specs.Reads.{Finds, IsAtFault};
ghost use Rattle.tx_check.specs.Wrong.{IsFaultIn, IsNamedNowhere, IsNowhere, IsTwice};
ghost use Rattle.tx_check.specs.declared.kinds.Kind.TheVariants as kinds;
ghost use Rattle.tx_check.specs.declared.places.Part.TheVariants as parts;
ghost use Rattle.tx_lines.specs.Programs.{line_text, IsLineOf};
ghost use Rattle.tx_lines.specs.Schedule.{SpellsHeader};
ghost use Rattle.tx_lines.specs.declared.faults.Fault.TheVariants as faults;
ghost use Rattle.tx_lines.specs.declared.instructions.Line.{Line};
ghost use Rattle.tx_translate.specs.MeantLines.{left_of};
ghost use Rattle.tx_lines.specs.declared.read.header.TextKind.TheVariants as texts;

use crate::diagnose::is_right;
use crate::diagnose::labels::second_label;
use crate::heads::header_of;
use crate::kinds::Kind;
use crate::labels::Labels;
use crate::places::{Part, Place, TextLine, kind_of_head};
use tx_lines::{Fault, Header, LINE_BYTES, Line, Name, Version, read_line};
use tx_translate::{MeantLines, Room};

/// The line after a header.
const FIRST_LINE: u64 = 2;

/// The fault at which the command of that kind finds a text: that of the first line which is at
/// fault in its place, and where there is none, of the first one that names a label that is
/// nowhere. Nothing where the command reads the text.
///
/// No line is kept, but where labels are is known. Each label of a program, and each one that is
/// named, is compared with the labels before it: at most 256 comparisons for each of 256 labels and
/// of 1,024 instructions.
pub fn first_fault(kind: Kind, text: &Labels<'_>) -> Option<Fault>
    requires known { AreKnown text.now }
    requires kind { kind ≡ spec.kind_of (left_of text.now.text) }
    ensures finds { Finds kind (left_of text.now.text) result }
    ensures there { IfSome result (IsFaultIn (left_of text.now.text)) }
{
    let (header, left) = match header_of(kind_of_head(kind), text.text) {
        Ok(found) => found,
        Err(fault) => return Some(fault),
    };
    if let Some(fault) = fault_after_header(kind, text, header, left) {
        return Some(fault);
    }
    match kind {
        Kind::Program => unlinked(text, header, left),
        Kind::Schedule | Kind::Walk => None,
    }
}

/// The fault of the first line after a text's header that is at fault in its place.
fn fault_after_header(
    kind: Kind,
    text: &Labels<'_>,
    header: Header,
    rest: MeantLines<'_>,
) -> Option<Fault>
    requires known { AreKnown text.now }
    requires kind { kind ≡ spec.kind_of (left_of text.now.text) }
    requires header { SpellsHeader (head_of kind) (left_of text.now.text) header (left_of rest) }
    ensures finds { MatchOption result
        (IsReadBut kind (left_of text.now.text) header.version (left_of rest.entry))
        (IsAtFault kind (left_of text.now.text)) }
    ensures there { IfSome result (IsFaultIn (left_of text.now.text)) }
{
    let mut place = Place::after_header(kind_of_head(kind), header.version);
    let mut number = FIRST_LINE;
    let mut room = Room::new();
    let mut left = rest;
    while let Some((own, behind)) = left.split() {
        let line = TextLine {
            number,
            bytes: own.meaning(&mut room),
            is_ended: own.is_ended,
        };
        if let Some(fault) = fault_at(text, &place, line) {
            return Some(fault);
        }
        place = place.after(line.bytes);
        number += 1;
        left = behind;
    }
    None
}

/// The fault of a line of a text at that place. Nothing where it may be there.
fn fault_at(text: &Labels<'_>, place: &Place, line: TextLine<'_>) -> Option<Fault>
    requires { AreKnown text.now }
    ensures may { IfNone result (IsAllowedAt (left_of text.now.text) place.now line.entry) }
    ensures fault { IfSome result (IsFaultAt (left_of text.now.text) place.now line.entry) }
{
    let number = line.number;
    if line.bytes.len() > LINE_BYTES || place.one_too_many(line.bytes).is_some() {
        return Some(Fault::TooLong { line: number });
    }
    if !line.is_ended || !is_right(place, line.bytes) || is_second_label(text, place, line) {
        return Some(Fault::NotALine { line: number });
    }
    None
}

/// Whether a line of a program is a label whose name is in a line before it.
fn is_second_label(text: &Labels<'_>, place: &Place, line: TextLine<'_>) -> bool
    requires { AreKnown text.now }
    ensures { IsTrue result ↔ ((place.now.part ≡ parts.ProgramLine)
        × IsTwice (left_of text.now.text) line.entry.number line.entry.bytes.now) }
{
    matches!(place.part, Part::ProgramLine) && second_label(text, line.number, line.bytes).is_some()
}

/// The fault of the first line of a program that names a label that is nowhere.
fn unlinked(text: &Labels<'_>, header: Header, rest: MeantLines<'_>) -> Option<Fault>
    requires known { AreKnown text.now }
    requires header { SpellsHeader texts.Program (left_of text.now.text) header (left_of rest) }
    requires lines { AreProgramLines header.version (left_of rest) }
    ensures finds { Finds kinds.Program (left_of text.now.text) result }
    ensures label { IfSome result (λ fault. (line : ℕ) × (fault ≡ faults.NoLabel line)) }
{
    let mut number = FIRST_LINE;
    let mut room = Room::new();
    let mut left = rest;
    while let Some((line, behind)) = left.split() {
        if is_unlinked(text, header.version, line.meaning(&mut room)) {
            return Some(Fault::NoLabel { line: number });
        }
        number += 1;
        left = behind;
    }
    None
}

/// Whether a line of a program of that version names a label that is nowhere in the text.
pub fn is_unlinked(text: &Labels<'_>, version: Version, line: &[u8]) -> bool
    requires known { AreKnown text.now }
    requires short { length line.now ≤ 512 }
    ensures { (one : Line) → IsLineOf version one → line.now ≡ line_text one →
        (IsTrue result ↔ IsNamedNowhere (left_of text.now.text) one) }
{
    match read_line(version, line) {
        Some(one) => names_nowhere(text, &one),
        None => false,
    }
}

/// Whether a line of a program names a label that is nowhere in the text.
fn names_nowhere(text: &Labels<'_>, line: &Line) -> bool
    requires { AreKnown text.now }
    ensures { IsTrue result ↔ IsNamedNowhere (left_of text.now.text) line.now }
{
    match line {
        Line::Label(_name) => false,
        Line::Instruction(instruction) => is_nowhere(text, instruction.label()),
    }
}

/// Whether a label is named that is nowhere in the text.
fn is_nowhere(text: &Labels<'_>, label: Option<&Name>) -> bool
    requires { AreKnown text.now }
    ensures { IsTrue result ↔ IsNowhere (left_of text.now.text) (option_copied label.entry) }
{
    match label {
        Some(name) => text.place_of(name.bytes.as_slice()).is_none(),
        None => false,
    }
}
