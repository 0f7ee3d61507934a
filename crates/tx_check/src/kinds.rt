//! Which kind a text is meant to be.
ghost use Rattle.std.specs.Prelude.{◌≡◌, ◌≤◌, length};
ghost use Rattle.tx_check.specs.Kinds as spec;
ghost use Rattle.tx_translate.specs.MeantLines.{left_of};

use tx_lines::split_word;
use tx_translate::{MeantLines, Room};

/// A kind of text, each with the command that reads it.
#[derive(Clone, Copy, PartialEq, Eq)]
pub enum Kind {
    /// A schedule, for `replay`.
    Schedule,
    /// A schedule with commands, for `debug`.
    Walk,
    /// A program, for `run`.
    Program,
}

/// The kind of what a text means: a program where the first line begins with `txos`, a word and
/// `program`, else a schedule with commands where a line after the first is `debug`, else a
/// schedule.
pub fn kind_of(text: MeantLines<'_>) -> Kind
    ensures { result ≡ spec.kind_of (left_of text.entry) }
{
    let (head, behind) = text.cut();
    let mut room = Room::new();
    if is_program_head(head.meaning(&mut room)) {
        return Kind::Program;
    }
    if has_debug(behind) {
        return Kind::Walk;
    }
    Kind::Schedule
}

/// Whether a line begins as the first line of a program.
fn is_program_head(line: &[u8]) -> bool
    ensures { result ≡ spec.is_program_head line.now }
{
    let version = rest_of(line);
    front_word(line) == b"txos".as_slice() && front_word(rest_of(version)) == b"program".as_slice()
}

/// The first word of a line.
pub fn front_word(line: &[u8]) -> &[u8]
    ensures word { result.now ≡ spec.front_word line.now }
    ensures within { length result.now ≤ length line.now }
{
    match split_word(line) {
        Some((word, _rest)) => word,
        None => line,
    }
}

/// What follows the first space of a line. Nothing where there is none.
fn rest_of(line: &[u8]) -> &[u8]
    ensures { result.now ≡ spec.rest_of line.now }
{
    split_word(line).map_or(b"".as_slice(), |parts| parts.1)
}

/// Whether one of some lines is the one before commands.
fn has_debug(lines: MeantLines<'_>) -> bool
    ensures { result ≡ spec.debug_ahead (left_of lines.entry) }
{
    let mut room = Room::new();
    let mut left = lines;
    while let Some((line, rest)) = left.split() {
        if line.is_debug(&mut room) {
            return true;
        }
        left = rest;
    }
    false
}
