//! What is wrong with a step of a schedule.
use crate::diagnose::alone::call_alone;
use crate::diagnose::calls::{call_trouble, form_trouble};
use crate::diagnose::numbers::no_number;
use crate::forms::{Form, form_of_ask, form_of_command};
use crate::trouble::{LineTrouble, Trouble, WordTrouble};
use crate::words::{Word, count_words, word_at};
use tx_lines::{TextKind, Version, read_pid};

/// The form of a step of the kernel.
const KERNEL: Form = Form {
    name: "kernel",
    words: "P",
    meaning: "the process that began the transaction to be aborted",
};

/// What is wrong with the words of a line that must be a step.
pub fn step_trouble<'a>(version: Version, line: &'a [u8]) -> Option<Trouble<'a>> {
    let first = word_at(line, 0)?;
    if first.bytes == b"kernel".as_slice() {
        return form_trouble(TextKind::Schedule, version, KERNEL, line, 0);
    }
    if read_pid(first.bytes).is_none() {
        return Some(no_process(first, version, line));
    }
    if count_words(line) == 1 {
        return Some(Trouble::of_line(line.len() + 1, LineTrouble::NoCall));
    }
    call_trouble(TextKind::Schedule, version, line, 1)
}

/// What is wrong with a first word that is no process: what it would be elsewhere, or the number.
fn no_process<'a>(first: Word<'a>, version: Version, line: &'a [u8]) -> Trouble<'a> {
    if first.bytes == b"label".as_slice() {
        return Trouble::of_line(first.column, LineTrouble::LabelInSchedule);
    }
    if form_of_command(first.bytes).is_some() {
        return Trouble::of_line(first.column, LineTrouble::CommandTooSoon);
    }
    if first.bytes == b"name".as_slice() {
        return Trouble::of_word(first, WordTrouble::NoNames);
    }
    if let Some(trouble) = call_alone(first, version, line) {
        return trouble;
    }
    if form_of_ask(first.bytes).is_some() {
        return Trouble::of_word(first, WordTrouble::SessionCommand);
    }
    match first.bytes {
        [b'-' | b'0'..=b'9', ..] => no_number(first, "0 to 65535"),
        _ => Trouble::of_word(first, WordTrouble::NoProcess),
    }
}
