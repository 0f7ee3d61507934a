//! Writes the lines of a report.
ghost use Rattle.std.specs.Prelude.{◌≡◌, ◌++◌, OnOk, string_bytes};
ghost use Rattle.tx_expect.specs.Lines.{difference_text, expected_text, place_text, step_place_text};
ghost use Rattle.tx_expect.specs.Lines.{stray_text, too_soon_text};
ghost use Rattle.tx_expect.specs.Outcomes.{counts_text};
ghost use Rattle.tx_expect.specs.States.{more_text, no_line_text, no_more_text, other_line_text, state_place_text};

use crate::comments::comment_text;
use crate::tallies::Tally;
use std::alloc::AllocError;
use std::fmt::Write;
use tx_base::{Reply, Step};
use tx_check::put_shown;
use tx_lines::{put, put_step};
use tx_state_text::put_named_reply;

/// Reports that the reply to the step of a line is not the expected one.
pub fn put_difference(
    report: &mut String,
    number: u64,
    step: &Step,
    expected: &[u8],
    reply: &Reply,
) -> Result<(), AllocError>
    ensures { OnOk result (string_bytes report.new ≡ string_bytes report.old
        ++ difference_text number step.now expected.now reply.now) }
{
    put_step_place(report, number, step)?;
    put_expected(report, expected)?;
    put_named_reply(report, reply)?;
    put(report, "\n")
}

/// Reports that a line without a step expects a reply.
pub fn put_stray(report: &mut String, number: u64, expected: &[u8]) -> Result<(), AllocError>
    ensures { OnOk result (string_bytes report.new ≡ string_bytes report.old
        ++ stray_text number expected.now) }
{
    put_place(report, number)?;
    put_expected(report, expected)?;
    put(report, "no step in this line\n")
}

/// Reports that a line begins the state before the last step.
pub fn put_too_soon(report: &mut String, number: u64) -> Result<(), AllocError>
    ensures { OnOk result
        (string_bytes report.new ≡ string_bytes report.old ++ too_soon_text number) }
{
    put_place(report, number)?;
    put(report, "# state must come after the last step\n")
}

/// Reports that a line of the state is another one than is expected.
pub fn put_other_line(
    report: &mut String,
    number: u64,
    expected: &[u8],
    next: &[u8],
) -> Result<(), AllocError>
    ensures { OnOk result (string_bytes report.new ≡ string_bytes report.old
        ++ other_line_text number expected.now next.now) }
{
    put_state_place(report, number)?;
    put_expected(report, expected)?;
    put_shown(report, next)?;
    put(report, "\n")
}

/// Reports that a line is expected after the last one of the state.
pub fn put_no_line(report: &mut String, number: u64, expected: &[u8]) -> Result<(), AllocError>
    ensures { OnOk result (string_bytes report.new ≡ string_bytes report.old
        ++ no_line_text number expected.now) }
{
    put_state_place(report, number)?;
    put_expected(report, expected)?;
    put(report, "nothing\n")
}

/// Reports that the state has more lines than are expected.
pub fn put_more(report: &mut String, number: u64, next: &[u8]) -> Result<(), AllocError>
    ensures { OnOk result
        (string_bytes report.new ≡ string_bytes report.old ++ more_text number next.now) }
{
    put_state_place(report, number)?;
    put_no_more(report, next)
}

/// Appends that nothing is expected, before what is there.
fn put_no_more(report: &mut String, next: &[u8]) -> Result<(), AllocError>
    ensures { OnOk result
        (string_bytes report.new ≡ string_bytes report.old ++ no_more_text next.now) }
{
    put(report, "expected nothing more, got ")?;
    put_shown(report, next)?;
    put(report, "\n")
}

/// Reports how many expectations are met, how many are not, and how many steps expect nothing.
pub fn put_counts(report: &mut String, tally: Tally) -> Result<(), AllocError>
    ensures { OnOk result
        (string_bytes report.new ≡ string_bytes report.old ++ counts_text tally) }
{
    let Tally { met, unmet, silent } = tally;
    write!(
        report,
        "{met} as expected, {unmet} not, {silent} expect nothing\n"
    )
}

/// Begins the report of a line.
fn put_place(report: &mut String, number: u64) -> Result<(), AllocError>
    ensures { OnOk result
        (string_bytes report.new ≡ string_bytes report.old ++ place_text number) }
{
    write!(report, "line {number}: ")
}

/// Begins the report of the step of a line.
fn put_step_place(report: &mut String, number: u64, step: &Step) -> Result<(), AllocError>
    ensures { OnOk result
        (string_bytes report.new ≡ string_bytes report.old ++ step_place_text number step.now) }
{
    put_place(report, number)?;
    put_step(report, step)?;
    put(report, ": ")
}

/// Begins the report of a state, at a line.
fn put_state_place(report: &mut String, number: u64) -> Result<(), AllocError>
    ensures { OnOk result
        (string_bytes report.new ≡ string_bytes report.old ++ state_place_text number) }
{
    write!(report, "line {number}: state: ")
}

/// Appends what is expected, before what is there instead.
fn put_expected(report: &mut String, expected: &[u8]) -> Result<(), AllocError>
    ensures { OnOk result
        (string_bytes report.new ≡ string_bytes report.old ++ expected_text expected.now) }
{
    put(report, "expected ")?;
    put_shown(report, comment_text(expected))?;
    put(report, ", got ")
}
