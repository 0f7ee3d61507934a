//! Says what is wrong with a line of a session.
ghost use Rattle.std.specs.Prelude.{◌≡◌, ◌≤◌, ◌++◌, IfOk, IfSome, OnOk, codes, length, string_bytes};
ghost use Rattle.std.specs.Fmt.{decimal};
ghost use Rattle.tx_check.specs.Sessions.{IsSessionDiagnostic};

mod asks;
mod heads;
mod pieces;

use crate::diagnose::alone::call_alone;
use crate::diagnose::shapes::shape_trouble;
use crate::diagnose::steps::step_trouble;
use crate::kinds::front_word;
use crate::own::{own_trouble, own_word};
use crate::placed::placed;
use crate::places::Part;
use crate::sentences::sentence;
use crate::session::asks::ask_trouble;
use crate::session::heads::head_trouble;
use crate::trouble::{LineTrouble, Trouble, WordTrouble};
use crate::words::{Word, word_at};
use std::alloc::{AllocError, Global};
use std::fmt::Write;
use tx_base::NoMemory;
use tx_lines::{LINE_BYTES, Version};
use tx_translate::{Room, plain_line};

/// What is wrong with a line of a session that is neither a step nor a command: `column C: ` and a
/// sentence, without a line's end. At that column is the word of which the sentence speaks. Columns
/// count bytes from 1; the column after the last byte is the line's end.
///
/// `is_third` says that the line is of version 3; else it is of `version`. Any line is answered,
/// also one that is a step or a command.
///
/// Memory is taken only for the answer. The only error is that such a growth was refused.
pub fn session_line(
    alloc: Global,
    is_third: bool,
    version: Version,
    line: &[u8],
) -> Result<String, NoMemory>
    ensures { IfOk result (λ report. IsSessionDiagnostic line.now (string_bytes report)) }
{
    let mut room = Room::new();
    let trouble = session_trouble(is_third, version, line, &mut room);
    let trouble = placed(line, trouble);
    let words = sentence(alloc, &trouble.what)?;
    let mut report = String::new(alloc);
    put_column(&mut report, trouble.column as u64, words.as_str())?;
    Ok(report)
}

/// Appends that column and that sentence.
fn put_column(report: &mut String, column: u64, sentence: &str) -> Result<(), AllocError>
    ensures { OnOk result (string_bytes report.new ≡ string_bytes report.old
        ++ (codes "column " ++ (decimal column ++ (codes ": " ++ sentence.now)))) }
{
    write!(report, "column {column}: {sentence}")
}

/// What is wrong with a line of a session.
fn session_trouble<'a>(
    is_third: bool,
    version: Version,
    line: &'a [u8],
    room: &'a mut Room,
) -> Trouble<'a> {
    if line.len() > LINE_BYTES {
        return Trouble::of_line(LINE_BYTES + 1, LineTrouble::TooLong);
    }
    let step = asked_step(is_third, line);
    let asked = step.unwrap_or(line);
    let trouble = match meant_line(is_third, asked, room) {
        Some(meant) => {
            let is_step = step.is_some();
            let part = part_of(meant, is_step);
            let trouble = line_trouble(version, meant, is_step);
            own_trouble(is_third, part, meant, asked, trouble)
        }
        None => no_meaning(asked),
    };
    Trouble {
        column: trouble.column.saturating_add(line.len() - asked.len()),
        what: trouble.what,
    }
}

/// What a line must be: only a step, or else a step or a command.
fn part_of(line: &[u8], is_step: bool) -> Part {
    if is_step || word_at(line, 0).is_some_and(begins_step) {
        Part::Step
    } else {
        Part::Command
    }
}

/// What is wrong with a line of version 3 that means none: it has no word, or gives a name to a
/// process.
fn no_meaning(line: &[u8]) -> Trouble<'_> {
    match own_word(line, 0) {
        Some(first) => Trouble::of_word(first, WordTrouble::NoProcess),
        None => Trouble::of_line(1, LineTrouble::Empty),
    }
}

/// What a line means. Nothing where it is of version 3 and means none.
fn meant_line<'a>(is_third: bool, line: &'a [u8], room: &'a mut Room) -> Option<&'a [u8]> {
    if is_third {
        return plain_line(room, line);
    }
    Some(line)
}

/// What follows the first word of a line.
fn after_word(is_third: bool, line: &[u8]) -> Option<(&[u8], &[u8])>
    ensures { IfSome result (λ r. length r.1.now ≤ length line.now) }
{
    if is_third {
        return tx_translate::split_word(line);
    }
    let word = front_word(line);
    if word.len() == line.len() {
        return None;
    }
    Some((word, &line[word.len() + 1..]))
}

/// The step about which a line asks by `try` or `why`. Nothing where no word follows.
fn asked_step(is_third: bool, line: &[u8]) -> Option<&[u8]>
    ensures { IfSome result (λ step. length step.now ≤ length line.now) }
{
    let (word, step) = after_word(is_third, line)?;
    if word != b"try".as_slice() && word != b"why".as_slice() {
        return None;
    }
    if step.is_empty() || (is_third && tx_translate::split_word(step).is_none()) {
        return None;
    }
    Some(step)
}

/// Whether a step may begin with that word.
fn begins_step(first: Word<'_>) -> bool {
    match first.bytes {
        [b'0'..=b'9', ..] | [b'-', b'0'..=b'9', ..] => true,
        word => word == b"kernel".as_slice(),
    }
}

/// What is wrong with what a line means, which must be only a step, or else a step or a command.
fn line_trouble<'a>(version: Version, line: &'a [u8], is_step: bool) -> Trouble<'a> {
    let trouble = shape_trouble(line).or_else(|| match word_at(line, 0) {
        Some(first) if begins_step(first) => step_trouble(version, line),
        Some(first) if is_step => Some(no_step(first, version, line)),
        Some(first) if first.bytes == b"txos".as_slice() => Some(head_trouble(line)),
        Some(first) if first.bytes == b"name".as_slice() => {
            Some(Trouble::of_word(first, WordTrouble::NoNames))
        }
        _ => ask_trouble(version, line),
    });
    match trouble {
        Some(trouble) => trouble,
        None if is_step => Trouble::of_line(1, LineTrouble::NoStep),
        None => Trouble::of_line(1, LineTrouble::NeitherStepNorCommand),
    }
}

/// What is wrong with a first word that begins no step.
fn no_step<'a>(first: Word<'a>, version: Version, line: &'a [u8]) -> Trouble<'a> {
    let none = Trouble::of_word(first, WordTrouble::NoProcess);
    call_alone(first, version, line).unwrap_or(none)
}
