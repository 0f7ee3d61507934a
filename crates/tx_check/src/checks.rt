//! Reports what is wrong with a text.
ghost use Rattle.std.specs.Prelude.{◌≡◌, ◌≢◌, ◌⊎◌, ◌+◌, ◌-◌, ◌<◌, ◌≤◌, ℕ, List, IfOk, OnOk, length, string_bytes};
ghost use Rattle.tx_check.specs.AfterHeader.{IsQuietAt};
ghost use Rattle.tx_check.specs.Kinds.{kind_of};
ghost use Rattle.tx_check.specs.Labels.{AreKnown};
ghost use Rattle.tx_check.specs.Numbered.{after_lines};
ghost use Rattle.tx_check.specs.OwnLines.{GoesOn, IsFrom, IsLineAt, IsWrongAfter, ReportsAfter};
ghost use Rattle.tx_check.specs.Reads as spec;
ghost use Rattle.tx_check.specs.Reads.{IsAtFault};
ghost use Rattle.tx_check.specs.Contexts.{IsPlaceAt};
ghost use Rattle.tx_check.specs.Speaking.{kind_of_what, IsKindAt};
ghost use Rattle.tx_check.specs.Diagnostics.{kind_of_fault, BeginsOfKind, Grows, IsMeantFault, IsReportOf, ReportsFrom};
ghost use Rattle.tx_check.specs.Wrong.{IsFaultIn, IsWrongAfterFault};
ghost use Rattle.tx_check.specs.declared.kinds.Kind.TheVariants as kinds;
ghost use Rattle.tx_check.specs.declared.places.Part.TheVariants as parts;
ghost use Rattle.tx_check.specs.declared.trouble.LineTrouble.TheVariants as troubles;
ghost use Rattle.tx_check.specs.declared.trouble.What.TheVariants as whats;
ghost use Rattle.tx_lines.specs.declared.faults.Fault.{Fault};
ghost use Rattle.tx_lines.specs.declared.faults.Fault.TheVariants as faults;
ghost use Rattle.tx_translate.specs.Meant.{fault_by, meant_of, own_line};
ghost use Rattle.tx_translate.specs.MeantLines.{left_of, OwnsFrom};

use crate::diagnose::{trouble_of, unknown};
use crate::diagnostics::put_diagnostic;
use crate::faults::first_fault;
use crate::kinds::{Kind, kind_of};
use crate::labels::Labels;
use crate::own::{TextFrom, own_trouble};
use crate::places::{Part, Place, TextLine};
use crate::right::right_kind;
use crate::trouble::Trouble;
use std::alloc::Global;
use tx_base::NoMemory;
use tx_lines::Fault;
use tx_translate::{MeantLines, Room};

/// A report, and the line of the text itself up to which it goes.
#[derive(Drop)]
struct Report<'a> {
    text: String,
    own: TextFrom<'a>,
}

/// The report on a text of any version: nothing exactly where what it means is a text of its kind
/// (`kind_of`), and so is read by the command of that kind. Else a diagnostic for each line at
/// fault: `line L, column C: ` and a sentence that says what was expected there. The first is of
/// the line at which the command finds the text at fault, and each later one of a line that is at
/// fault in its place, whatever is before it. None of those is left out, up to the first line that
/// is one too many; where only labels are nowhere, no line that names one is left out.
///
/// The first sentence is of the kind of the fault (`kind_of_fault`): that a line is too long, or
/// one too many; that there is no such label; or that the grammar has no such line.
///
/// Lines count from 1 and columns in bytes from 1, both in the text as it is given; the column
/// after a line's last byte is its end.
///
/// A text that is right is read once. Where memory for that is refused, the check goes on without
/// it: the only error is that a growth of the report was refused.
pub fn check_text(alloc: Global, text: &[u8]) -> Result<String, NoMemory>
    ensures report { IfOk result (λ report. IsReportOf text.now (string_bytes report)) }
    ensures kind { IfOk result (λ report. (fault : Fault) → IsMeantFault text.now fault →
        BeginsOfKind (kind_of_fault fault) (string_bytes report)) }
{
    match right_kind(alloc, text) {
        Some(_kind) => Ok(String::new(alloc)),
        None => report_text(alloc, text),
    }
}

/// As `check_text`. Memory is taken only for the report.
pub fn report_text(alloc: Global, text: &[u8]) -> Result<String, NoMemory>
    ensures report { IfOk result (λ report. IsReportOf text.now (string_bytes report)) }
    ensures kind { IfOk result (λ report. (fault : Fault) → IsMeantFault text.now fault →
        BeginsOfKind (kind_of_fault fault) (string_bytes report)) }
{
    let meant = Labels::of(MeantLines::of(text));
    let kind = kind_of(meant.text);
    match first_fault(kind, &meant) {
        Some(fault) => report_from(alloc, kind, text, &meant, fault),
        None => Ok(String::new(alloc)),
    }
}

/// The report on a text that means those lines, which are at fault: the line of the fault, and the
/// lines after it.
pub fn report_from(
    alloc: Global,
    kind: Kind,
    text: &[u8],
    meant: &Labels<'_>,
    fault: Fault,
) -> Result<String, NoMemory>
    requires known { AreKnown meant.now }
    requires meant { left_of meant.now.text ≡ meant_of text.now }
    requires numbered { OwnsFrom text.now 1 meant.now.text }
    requires kind { kind ≡ kind_of (left_of meant.now.text) }
    requires fault { IsAtFault kind (left_of meant.now.text) fault }
    requires there { IsFaultIn (left_of meant.now.text) fault }
    requires own { 1 ≤ own_line text.now (spec.line_of fault) }
    ensures reports { IfOk result (λ report.
        ReportsFrom (IsWrongAfterFault fault (meant_of text.now)) text.now
        (own_line text.now (spec.line_of fault)) (string_bytes report)) }
    ensures kind { IfOk result (λ report. BeginsOfKind
        (kind_of_fault (fault_by (own_line text.now) fault)) (string_bytes report)) }
{
    let (place, lines) = place_of(kind, meant.text, fault);
    let (line, behind) = lines.cut();
    let mut room = Room::new();
    let number = line_of(fault);
    let faulty = TextLine {
        number,
        bytes: line.meaning(&mut room),
        is_ended: line.is_ended,
    };
    let own = TextFrom::first(text).moved_to(line.number);
    let own_line = own.line();
    let trouble = trouble_at_fault(meant.text, meant, &place, faulty);
    let is_third = meant.text.are_third();
    let trouble = own_trouble(is_third, place.part, faulty.bytes, own_line.bytes, trouble);
    let mut text = String::new(alloc);
    put_diagnostic(alloc, &mut text, own_line, trouble)?;
    let mut report = Report { text, own };
    let place = place.after(faulty.bytes);
    report_after(alloc, meant, place, number, behind, &mut report)?;
    Ok(report.text)
}

/// The trouble with the line at fault.
fn trouble_at_fault<'a>(
    lines: MeantLines<'a>,
    text: &Labels<'_>,
    place: &Place,
    line: TextLine<'a>,
) -> Trouble<'a>
    requires { AreKnown text.now }
    ensures kind { IsKindAt place.now (left_of text.now.text) line.entry.number line.entry.bytes.now
        line.entry.is_ended (kind_of_what result.what)
        ⊎ IsQuietAt (left_of text.now.text) place.now line.entry }
    ensures long { result.what ≡ whats.Line troubles.TooLong → 512 < length line.entry.bytes.now }
{
    match trouble_of(lines, text, place, line) {
        Some(trouble) => trouble,
        None => unknown(),
    }
}

/// The line of a fault of a text.
pub fn line_of(fault: Fault) -> u64
    ensures { result ≡ spec.line_of fault }
{
    match fault {
        Fault::NotALine { line } | Fault::NoLabel { line } | Fault::TooLong { line } => line,
        _ => 0,
    }
}

/// The place of the line at fault, and the lines from that one on.
fn place_of(kind: Kind, text: MeantLines<'_>, fault: Fault) -> (Place, MeantLines<'_>)
    requires kind { kind ≡ kind_of (left_of text) }
    requires fault { IsAtFault kind (left_of text) fault }
    ensures place { IsPlaceAt (left_of text.entry) (spec.line_of fault) result.0 }
    ensures left { left_of result.1 ≡ after_lines (spec.line_of fault - 1) (left_of text.entry) }
    ensures numbered { (own : List ℕ) → OwnsFrom own 1 text.entry →
        OwnsFrom own (spec.line_of fault) result.1 }
    ensures label { (line : ℕ) → fault ≡ faults.NoLabel line → result.0.part ≡ parts.Link }
    ensures other { ((line : ℕ) → fault ≢ faults.NoLabel line) → result.0.part ≢ parts.Link }
{
    let mut place = Place::first(kind, text);
    let mut room = Room::new();
    let mut left = text;
    for _before in 0..line_of(fault) - 1 {
        let (line, behind) = left.cut();
        place = place.after(line.meaning(&mut room));
        left = behind;
    }
    (place_by(fault, place), left)
}

/// The place of a line at fault. A line whose label is nowhere has a place of its own.
fn place_by(fault: Fault, place: Place) -> Place
    ensures version { result.version ≡ place.version }
    ensures label { (line : ℕ) → fault ≡ faults.NoLabel line → result.part ≡ parts.Link }
    ensures other { ((line : ℕ) → fault ≢ faults.NoLabel line) → result ≡ place }
{
    match fault {
        Fault::NoLabel { .. } => Place {
            part: Part::Link,
            ..place
        },
        _ => place,
    }
}

/// Reports the lines at fault after so many that are meant, up to the first one that is one too
/// many. The first line after them has that place.
fn report_after(
    alloc: Global,
    meant: &Labels<'_>,
    place: Place,
    passed: u64,
    lines: MeantLines<'_>,
    report: &mut Report<'_>,
) -> Result<(), NoMemory>
    requires known { AreKnown meant.now }
    requires place { IsPlaceAt (left_of meant.now.text) (passed + 1) place }
    requires lines { left_of lines ≡ after_lines passed (left_of meant.now.text) }
    requires some { 1 ≤ passed }
    ensures reports { OnOk result
        ((text : List ℕ) (first : ℕ) → left_of meant.now.text ≡ meant_of text →
        OwnsFrom text (passed + 1) lines.entry → IsFrom text report.old.own →
        report.old.own.number ≤ own_line text passed →
        ReportsAfter place.part passed passed text first report.old.own.number
        (string_bytes report.old.text) →
        ReportsFrom (IsWrongAfter place.part passed (meant_of text)) text first
        (string_bytes report.new.text)) }
    ensures grows { OnOk result
        (Grows (string_bytes report.old.text) (string_bytes report.new.text)) }
{
    let mut place = place;
    let mut room = Room::new();
    let mut left = lines;
    for before in passed..u64::MAX {
        let Some((line, behind)) = left.split() else {
            return Ok(());
        };
        if place.is_past_all() {
            return Ok(());
        }
        let next = TextLine {
            number: before + 1,
            bytes: line.meaning(&mut room),
            is_ended: line.is_ended,
        };
        report_line(alloc, meant, &place, next, line.number, report)?;
        place = place.after(next.bytes);
        left = behind;
    }
    Ok(())
}

/// Reports a line at fault at that place, which the text's own line of that number means.
fn report_line(
    alloc: Global,
    meant: &Labels<'_>,
    place: &Place,
    line: TextLine<'_>,
    number: u64,
    report: &mut Report<'_>,
) -> Result<(), NoMemory>
    requires known { AreKnown meant.now }
    requires place { IsPlaceAt (left_of meant.now.text) line.number place.now }
    requires line { IsLineAt (left_of meant.now.text) line }
    ensures goes { OnOk result
        (GoesOn place.now.part meant.now.text line.entry.number number report.old.own report.new.own
        (string_bytes report.old.text) (string_bytes report.new.text)) }
    ensures grows { OnOk result
        (Grows (string_bytes report.old.text) (string_bytes report.new.text)) }
{
    let Some(trouble) = trouble_of(meant.text, meant, place, line) else {
        return Ok(());
    };
    if number <= report.own.number {
        return Ok(());
    }
    let next = report.own.moved_to(number);
    let own_line = next.line();
    let is_third = meant.text.are_third();
    let trouble = own_trouble(is_third, place.part, line.bytes, own_line.bytes, trouble);
    put_diagnostic(alloc, &mut report.text, own_line, trouble)?;
    report.own = next;
    Ok(())
}
