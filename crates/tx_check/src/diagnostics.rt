//! Appends diagnostics to a report.
ghost use Rattle.std.specs.Prelude.{◌≡◌, ◌<◌, ◌++◌, ◌∷◌, [], OnOk, codes, length, string_bytes};
ghost use Rattle.std.specs.Fmt.{decimal};
ghost use Rattle.tx_check.specs.Speaking.{kind_of_what, line_sentence, FaultKind, IsFitting, IsOfKind, SpeaksAt};
ghost use Rattle.tx_check.specs.Diagnostics.{IsColumn, IsInLine, Reports, ReportsOfKind};
ghost use Rattle.tx_check.specs.declared.trouble.LineTrouble.TheVariants as troubles;
ghost use Rattle.tx_translate.specs.OwnLines.{without_return};

use crate::placed::placed;
use crate::places::TextLine;
use crate::sentences::sentence;
use crate::trouble::Trouble;
use std::alloc::{AllocError, Global};
use std::fmt::Write;
use tx_base::NoMemory;

/// Appends the diagnostic of a line. The only error is that a growth of memory was
/// refused: the report may then have a front of it after what it had.
pub fn put_diagnostic(
    alloc: Global,
    report: &mut String,
    line: TextLine<'_>,
    trouble: Trouble<'_>,
) -> Result<(), NoMemory>
    ensures reports { OnOk result (Reports line.entry.number line.entry.bytes.now
        (string_bytes report.old) (string_bytes report.new)) }
    ensures kind { OnOk result (IsFitting line.entry.bytes.now trouble.entry.what →
        ReportsOfKind (kind_of_what trouble.entry.what) line.entry.number line.entry.bytes.now
        (string_bytes report.old) (string_bytes report.new)) }
{
    let trouble = placed(line.bytes, trouble);
    let words = sentence(alloc, &trouble.what)?;
    put_sentence(report, line, trouble.column as u64, words.as_str())?;
    Ok(())
}

/// Appends the diagnostic of that line at that column, with a sentence.
fn put_sentence(
    report: &mut String,
    line: TextLine<'_>,
    column: u64,
    sentence: &str,
) -> Result<(), AllocError>
    requires column { IsColumn line.bytes.now column }
    requires sentence { IsInLine sentence.now }
    requires speaks { SpeaksAt line.bytes.now column sentence.now }
    requires long { 512 < length (without_return line.bytes.now) →
        sentence.now ≡ line_sentence troubles.TooLong }
    ensures reports { OnOk result (Reports line.entry.number line.entry.bytes.now
        (string_bytes report.old) (string_bytes report.new)) }
    ensures kind { OnOk result ((kind : FaultKind) → IsOfKind kind sentence.now →
        ReportsOfKind kind line.entry.number line.entry.bytes.now (string_bytes report.old)
        (string_bytes report.new)) }
{
    put_line(report, line.number, column, sentence)
}

/// Appends the diagnostic with that sentence of the line of that number.
fn put_line(report: &mut String, number: u64, column: u64, sentence: &str) -> Result<(), AllocError>
    ensures { OnOk result (string_bytes report.new ≡ string_bytes report.old ++ (codes "line "
        ++ (decimal number ++ (codes ", column " ++ (decimal column
        ++ (codes ": " ++ (sentence.now ++ 10 ∷ []))))))) }
{
    write!(report, "line {number}, column {column}: {sentence}\n")
}
