//! Compares the lines of a state with those that are expected.
ghost use Rattle.std.specs.Prelude.{◌≡◌, ◌+◌, ◌-◌, ◌<◌, ◌^◌, ◌++◌, IfOk, length, string_bytes};
ghost use Rattle.tx_expect.specs.States.{after_last, state_difference, state_report, state_verdict};
ghost use Rattle.tx_expect.specs.Outcomes.{state_lines};
ghost use Rattle.tx_translate.specs.OwnLines.{own_lines};

use crate::comments::{expected_in, says};
use crate::sentences::{put_more, put_no_line, put_other_line};
use crate::tallies::Verdict;
use std::alloc::AllocError;
use tx_translate::split_line;

/// Compares the lines of a state's text, after its first, with those that the lines of a text
/// expect, after the line of that number. Reports the first difference.
///
/// The only error is that a growth of memory was refused.
pub fn put_state_difference(
    report: &mut String,
    at: u64,
    lines: &[u8],
    state: &[u8],
) -> Result<Verdict, AllocError>
    requires { at + length lines.now < 2 ^ 64 - 1 }
    ensures verdict { IfOk result (λ verdict. verdict ≡ state_verdict
        (state_difference at (own_lines lines.now) (at + 1) (state_lines state.now))) }
    ensures reports { IfOk result (λ verdict. string_bytes report.new ≡ string_bytes report.old
        ++ state_report
        (state_difference at (own_lines lines.now) (at + 1) (state_lines state.now))) }
{
    let mut to_come = after_first(state);
    let mut number = at + 1;
    let mut left = lines;
    while let Some((line, rest)) = split_line(left) {
        if let Some(expected) = expected_in(line) {
            match split_line(to_come) {
                Some((next, later)) if says(expected, next) => to_come = later,
                Some((next, _later)) => {
                    put_other_line(report, number, expected, next)?;
                    return Ok(Verdict::Unmet);
                }
                None => {
                    put_no_line(report, number, expected)?;
                    return Ok(Verdict::Unmet);
                }
            }
        }
        number += 1;
        left = rest;
    }
    put_rest(report, at, to_come)
}

/// Reports the first line of a state that is not expected.
fn put_rest(report: &mut String, at: u64, to_come: &[u8]) -> Result<Verdict, AllocError>
    ensures verdict { IfOk result (λ verdict. verdict
        ≡ state_verdict (after_last at (own_lines to_come.now))) }
    ensures reports { IfOk result (λ verdict. string_bytes report.new ≡ string_bytes report.old
        ++ state_report (after_last at (own_lines to_come.now))) }
{
    match split_line(to_come) {
        Some((next, _later)) => {
            put_more(report, at, next)?;
            Ok(Verdict::Unmet)
        }
        None => Ok(Verdict::Met),
    }
}

/// What follows the first line of a text.
fn after_first(text: &[u8]) -> &[u8]
    ensures { own_lines result.now ≡ state_lines text.now }
{
    match split_line(text) {
        Some((_first, later)) => later,
        None => text,
    }
}
