//! What is wrong with a call, in a step or an instruction.
use crate::diagnose::fields::field_trouble;
use crate::diagnose::numbers::is_signal_name;
use crate::forms::{Form, field_of, form_of_call};
use crate::trouble::{LineTrouble, Names, Trouble, WordTrouble};
use crate::words::{count_words, word_at};
use tx_lines::{TextKind, Version};

/// What is wrong with the call whose name is at that place of a line.
pub fn call_trouble<'a>(
    kind: TextKind,
    version: Version,
    line: &'a [u8],
    place: usize,
) -> Option<Trouble<'a>> {
    let name = word_at(line, place)?;
    if let Some(form) = call_form(kind, name.bytes) {
        return form_trouble(kind, version, form, line, place);
    }
    let names = match kind {
        TextKind::Schedule => Names::Calls,
        TextKind::Program => Names::Instructions,
    };
    Some(Trouble::of_word(name, WordTrouble::NoSuch(names)))
}

/// The form of the call of that name in a text of that kind. A program has no deliveries, and
/// chooses no numbers.
fn call_form(kind: TextKind, name: &[u8]) -> Option<Form> {
    let form = form_of_call(name)?;
    match (kind, form.name) {
        (TextKind::Program, "deliver") => None,
        (TextKind::Program, "fork" | "pipe") => Some(Form {
            words: "",
            meaning: "",
            ..form
        }),
        _ => Some(form),
    }
}

/// What is wrong with a line that has a name of that form at that place.
pub fn form_trouble<'a>(
    kind: TextKind,
    version: Version,
    form: Form,
    line: &'a [u8],
    place: usize,
) -> Option<Trouble<'a>> {
    let name = word_at(line, place)?;
    let count = count_words(line).saturating_sub(place).saturating_sub(1);
    let words = words_of(form, line, place);
    if count != count_of(words) {
        return Some(Trouble::of_word(name, WordTrouble::Takes(form, count)));
    }
    let trouble = signal_first(form, line, place).or_else(|| arguments_trouble(
        kind, words, line, place,
    ));
    let later = match (version, form.name, words) {
        (Version::One, "sys_xbegin", "defer") => LineTrouble::DeferIsLater,
        (Version::One, "moved", _) => LineTrouble::MovedIsLater,
        _ => return trouble,
    };
    trouble.or(Some(Trouble::of_line(name.column, later)))
}

/// What is wrong with a call that sends a signal, where the signal is first, as a shell has it.
fn signal_first<'a>(form: Form, line: &'a [u8], place: usize) -> Option<Trouble<'a>> {
    let first = word_at(line, place.saturating_add(1))?;
    let name = first.bytes.strip_prefix(b"-").unwrap_or(first.bytes);
    let is_first = sends_signal(form) && is_signal_name(name);
    is_first.then_some(Trouble::of_word(first, WordTrouble::SignalFirst))
}

/// Whether the call of that form sends a signal.
pub fn sends_signal(form: Form) -> bool {
    form.name == "kill" || form.name == "sigqueue"
}

/// How many words a form has.
pub fn count_of(words: &str) -> usize {
    if words.is_empty() {
        return 0;
    }
    count_words(words.as_bytes())
}

/// The words of a form, where it has several ways: the one that the call takes whose name is at
/// that place.
fn words_of(form: Form, line: &[u8], place: usize) -> &'static str {
    let first = word_at(line, place.saturating_add(1));
    let second = word_at(line, place.saturating_add(2));
    match (form.name, second.map_or(b"".as_slice(), |word| word.bytes)) {
        ("sys_xbegin", _) if first.is_none() => "",
        ("sys_xbegin", _) => "defer",
        ("sigaction", b"catch") => "V catch POINT SET",
        ("sigaction", _) => "V default|ignore|catch",
        ("jump", b"if") => "POINT if V",
        ("jump", b"always") => "POINT always",
        ("jump", _) => "POINT always|if",
        _ => form.words,
    }
}

/// What is wrong with the words after the name at that place, by the words of a form.
fn arguments_trouble<'a>(
    kind: TextKind,
    words: &'static str,
    line: &'a [u8],
    place: usize,
) -> Option<Trouble<'a>> {
    for at in 0..count_of(words) {
        let field = word_at(words.as_bytes(), at)?;
        let word = word_at(line, place.saturating_add(at).saturating_add(1))?;
        let trouble = field_trouble(kind, field_of(field.bytes), word);
        if trouble.is_some() {
            return trouble;
        }
    }
    None
}
