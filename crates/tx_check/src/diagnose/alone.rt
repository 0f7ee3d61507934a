//! What is wrong with a call that has no process before it.
use crate::diagnose::calls::{call_trouble, sends_signal};
use crate::forms::{Form, form_of_call};
use crate::trouble::{Trouble, WordTrouble};
use crate::words::Word;
use tx_lines::{TextKind, Version};

/// What is wrong with a line whose first word is the name of a call, or begins with one. Nothing
/// where it is another word.
pub fn call_alone<'a>(first: Word<'a>, version: Version, line: &'a [u8]) -> Option<Trouble<'a>> {
    let form = form_of_call(name_in(first.bytes))?;
    let trouble = if is_whole(form, version, line) {
        WordTrouble::LineAlone(line)
    } else {
        WordTrouble::CallAlone(form)
    };
    Some(Trouble::of_word(first, trouble))
}

/// Whether a line is a whole call. The words after a `kill` may be the signal and the process, as a
/// shell has them.
fn is_whole(form: Form, version: Version, line: &[u8]) -> bool {
    !sends_signal(form) && call_trouble(TextKind::Schedule, version, line, 0).is_none()
}

/// The letters, digits and `_` with which a word begins.
fn name_in(word: &[u8]) -> &[u8] {
    let mut parts = word.split(|byte| !byte.is_ascii_alphanumeric() && *byte != b'_');
    parts.next().unwrap_or(word)
}
