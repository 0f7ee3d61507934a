//! Reports what is wrong with a text for one of the commands.
ghost use Rattle.std.specs.Prelude.{◌≡◌, ◌≢◌, ◌≤◌, Some, IfNone, IfOk, IfSome, string_bytes};
ghost use Rattle.tx_check.specs.Kinds as kinds_spec;
ghost use Rattle.tx_check.specs.Readers.{IsReportAs, IsReportFor, IsSaidFor};
ghost use Rattle.tx_lines.specs.declared.faults.Fault.{Fault};
ghost use Rattle.tx_check.specs.Readers as spec;
ghost use Rattle.tx_check.specs.Reads as reads;
ghost use Rattle.tx_check.specs.Reads.{IsAtFault};
ghost use Rattle.tx_check.specs.Diagnostics.{ReportsFrom};
ghost use Rattle.tx_translate.specs.Meant.{meant_of, own_line};

use crate::checks::{line_of, report_from, report_text};
use crate::diagnostics::put_diagnostic;
use crate::faults::first_fault;
use crate::kinds::{Kind, kind_of};
use crate::labels::Labels;
use crate::own::{TextFrom, own_word};
use crate::reader_faults::fault_in;
use crate::readers::{Reader, heading, kind_trouble};
use crate::right::right_kind;
use crate::trouble::{LineTrouble, Trouble};
use std::alloc::{AllocError, Global};
use tx_base::NoMemory;
use tx_lines::{Fault, put};
use tx_translate::{Meant, MeantLines};

/// The report on a text of any version for that command: nothing exactly where the command reads
/// the text. Else first the line at which it finds the text at fault, as `check_text` reports it,
/// and each line at fault after it where the command of the text's own kind finds it at fault there
/// too. Where no command is named, the report begins with what the text was read as.
///
/// Memory is taken for the report and for what the command would read. The only error is that such
/// a growth was refused; without memory for what the command of the text's own kind reads it goes
/// on.
pub fn check_text_for(alloc: Global, reader: Reader, text: &[u8]) -> Result<String, NoMemory>
    ensures { IfOk result (λ said. IsSaidFor reader text.now (string_bytes said)) }
{
    let report = report_for(alloc, reader, text)?;
    match reader {
        Reader::Any => Ok(headed(alloc, text, report)?),
        _ => Ok(report),
    }
}

/// Puts what a text was read as before the report on it.
fn headed(alloc: Global, text: &[u8], report: String) -> Result<String, AllocError>
    ensures { IfOk result (λ said. string_bytes said
        ≡ spec.headed (kinds_spec.kind_of (meant_of text.now)) (string_bytes report)) }
{
    if report.is_empty() {
        return Ok(report);
    }
    let mut said = String::new(alloc);
    put(&mut said, heading(kind_of(MeantLines::of(text))))?;
    put(&mut said, report.as_str())?;
    Ok(said)
}

/// The report on a text for that command.
fn report_for(alloc: Global, reader: Reader, text: &[u8]) -> Result<String, NoMemory>
    ensures { IfOk result (λ report. IsReportFor reader text.now (string_bytes report)) }
{
    if let Some(kind) = right_kind(alloc, text)
        && reader.kind(kind) == kind
    {
        return Ok(String::new(alloc));
    }
    let meant = kind_of(MeantLines::of(text));
    report_as(alloc, reader.kind(meant), meant, text)
}

/// The report on a text that must be of a kind, and is meant to be of that other one.
fn report_as(alloc: Global, kind: Kind, meant: Kind, text: &[u8]) -> Result<String, NoMemory>
    requires { meant ≡ kinds_spec.kind_of (meant_of text.now) }
    ensures { IfOk result (λ report. IsReportAs kind text.now (string_bytes report)) }
{
    if kind == meant {
        report_text(alloc, text)
    } else {
        report_as_other(alloc, kind, text)
    }
}

/// The report on a text that must be of a kind, by the reader of that kind.
fn report_as_other(alloc: Global, kind: Kind, text: &[u8]) -> Result<String, NoMemory>
    ensures { IfOk result (λ report. IsReportAs kind text.now (string_bytes report)) }
{
    let meant = Meant::by(alloc, text)?;
    match fault_in(alloc, kind, meant.as_bytes())? {
        Some(fault) => {
            let number = meant.own_line(line_of(fault));
            report_fault(alloc, kind, text, fault, number)
        }
        None => Ok(String::new(alloc)),
    }
}

/// The report on a text that is at fault for the reader of that kind. The line of the fault has
/// that number in the text itself.
fn report_fault(
    alloc: Global,
    kind: Kind,
    text: &[u8],
    fault: Fault,
    number: u64,
) -> Result<String, NoMemory>
    requires fault { IsAtFault kind (meant_of text.now) fault }
    requires number { number ≡ own_line text.now (reads.line_of fault) }
    ensures { IfOk result (λ report. IsReportAs kind text.now (string_bytes report)) }
{
    let meant = Labels::of(MeantLines::of(text));
    let own = kind_of(meant.text);
    match same_line(first_fault(own, &meant), fault) {
        Some(other) => report_from(alloc, own, text, &meant, other),
        None => {
            let (trouble, place) = kind_trouble(kind, own);
            report_alone(alloc, text, number, trouble, place)
        }
    }
}

/// A fault, where it is at the line of that other one.
fn same_line(found: Option<Fault>, other: Fault) -> Option<Fault>
    ensures same { IfSome result (λ fault. (found ≡ Some fault)
        × (reads.line_of fault ≡ reads.line_of other)) }
    ensures another { IfNone result ((fault : Fault) → found ≡ Some fault →
        reads.line_of fault ≢ reads.line_of other) }
{
    let fault = found?;
    (line_of(fault) == line_of(other)).then_some(fault)
}

/// Reports only that line: what is wrong with the text there, at the word in that place.
fn report_alone(
    alloc: Global,
    text: &[u8],
    number: u64,
    trouble: LineTrouble,
    place: usize,
) -> Result<String, NoMemory>
    requires { 1 ≤ number }
    ensures { IfOk result (λ report.
        ReportsFrom (λ line. ⊥) text.now number (string_bytes report)) }
{
    let line = TextFrom::first(text).moved_to(number).line();
    let column = own_word(line.bytes, place).map_or(1, |word| word.column);
    let mut report = String::new(alloc);
    put_diagnostic(alloc, &mut report, line, Trouble::of_line(column, trouble))?;
    Ok(report)
}
