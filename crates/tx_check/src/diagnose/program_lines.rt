//! What is wrong with an instruction or a label of a program.
use crate::diagnose::calls::{call_trouble, form_trouble};
use crate::forms::Form;
use crate::trouble::{LineTrouble, Trouble, WordTrouble};
use crate::words::{count_words, word_at};
use tx_lines::{TextKind, Version, read_pid};

/// The form of a label.
const LABEL: Form = Form {
    name: "label",
    words: "NAME",
    meaning: "the label's name",
};

/// What is wrong with the words of a line of a program after the first.
pub fn program_line_trouble<'a>(version: Version, line: &'a [u8]) -> Option<Trouble<'a>> {
    let first = word_at(line, 0)?;
    if first.bytes == b"label".as_slice() {
        return form_trouble(TextKind::Program, version, LABEL, line, 0);
    }
    if first.bytes == b"debug".as_slice() {
        return Some(Trouble::of_line(first.column, LineTrouble::DebugInProgram));
    }
    if first.bytes == b"kernel".as_slice() || read_pid(first.bytes).is_some() {
        return Some(Trouble::of_line(first.column, LineTrouble::StepInProgram));
    }
    if first.bytes == b"name".as_slice() {
        return Some(Trouble::of_word(first, WordTrouble::NoNames));
    }
    if count_words(line) == 1 && first.bytes.ends_with(b":") {
        return Some(Trouble::of_word(first, WordTrouble::LabelColon));
    }
    call_trouble(TextKind::Program, version, line, 0)
}
