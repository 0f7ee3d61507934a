//! The lines of a text.
ghost use Rattle.std.specs.Prelude.{◌≡◌, ◌<◌, ◌≤◌, IfErr, IfOk, MatchResult, OnOk, option_map};
ghost use Rattle.tx_lines.specs.Schedule.{after_line, first_line, FaultsAtLine, FaultsUnread, IsLine};

use crate::faults::Fault;
use crate::read::split::split_at;

/// How long a line may be, in bytes, without its end.
pub const LINE_BYTES: usize = 512;

/// How many lines of a kind a text may have: steps, and commands.
pub const LINES: usize = 4_096;

/// The first line of what is left of a text after so many lines of a kind, of which the first has
/// that number, and the text after that line.
#[inline(always)]
pub fn next_line(number: u64, count: usize, left: &[u8]) -> Result<(&[u8], &[u8]), Fault>
    requires first { number ≤ 4099 }
    requires most { count ≤ 4096 }
    ensures line { IfOk result (λ r. IsLine left.now r.0.now r.1.now) }
    ensures few { OnOk result (count < 4096) }
    ensures fault { IfErr result (FaultsUnread number count left.now) }
{
    let number = count as u64 + number;
    if count == LINES {
        return Err(Fault::TooLong { line: number });
    }
    line_of(number, left)
}

/// The first line of a text, which has that number, and the text after its end.
#[inline(always)]
pub fn line_of(number: u64, text: &[u8]) -> Result<(&[u8], &[u8]), Fault>
    ensures { MatchResult result (λ r. IsLine text.now r.0.now r.1.now)
        (FaultsAtLine number text.now) }
{
    let (line, rest) = take_line(text);
    if line.len() > LINE_BYTES {
        return Err(Fault::TooLong { line: number });
    }
    match rest {
        Some(rest) => Ok((line, rest)),
        None => Err(Fault::NotALine { line: number }),
    }
}

/// The first line of a text without its end, and the text after that end. All of the text and
/// nothing, where no line has an end.
#[inline(always)]
pub fn take_line(text: &[u8]) -> (&[u8], Option<&[u8]>)
    ensures line { result.0.now ≡ first_line text.now }
    ensures rest { option_map (λ r. r.now) result.1 ≡ after_line text.now }
{
    match split_at(b'\n', text) {
        Some((line, rest)) => (line, Some(rest)),
        None => (text, None),
    }
}
