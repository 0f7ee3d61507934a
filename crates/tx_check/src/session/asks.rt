//! What is wrong with a line of a session that must be a command.
use crate::diagnose::alone::call_alone;
use crate::diagnose::calls::count_of;
use crate::forms::form_of_ask;
use crate::session::pieces::{numbers_trouble, piece_trouble};
use crate::trouble::{LineTrouble, Names, Trouble, WordTrouble};
use crate::words::{Word, count_words, word_at};
use tx_lines::Version;

/// What is wrong with the words of a line that begins as no step does.
pub fn ask_trouble<'a>(version: Version, line: &'a [u8]) -> Option<Trouble<'a>> {
    let name = word_at(line, 0)?;
    let Some(form) = form_of_ask(name.bytes) else {
        return Some(no_ask(name, version, line));
    };
    let count = count_words(line).saturating_sub(1);
    let (least, most) = words_taken(form.words);
    if count < least || count > most {
        return Some(Trouble::of_word(name, WordTrouble::Takes(form, count)));
    }
    match version {
        Version::One if form.name == "moved" => {
            Some(Trouble::of_line(name.column, LineTrouble::MovedIsLater))
        }
        _ => words_trouble(form.words, line),
    }
}

/// How many words a command with those takes, at least and at most: those in brackets may be left
/// out, and some are all the rest of a line.
fn words_taken(words: &str) -> (usize, usize) {
    let count = count_of(words);
    let brackets = words.as_bytes().iter().filter(|byte| **byte == b'[');
    let least = count.saturating_sub(brackets.count());
    match words {
        "STEP" | "[STEP]" | "PIECE" | "[WORD]" => (least, usize::MAX),
        _ => (least, count),
    }
}

/// What is wrong with the words after the name of a command with those.
fn words_trouble<'a>(words: &'static str, line: &'a [u8]) -> Option<Trouble<'a>> {
    match words {
        "PIECE" => piece_trouble(line),
        "STEP" | "[STEP]" | "[WORD]" => None,
        _ => numbers_trouble(words, line, 1),
    }
}

/// What is wrong with a first word that is the name of no command.
fn no_ask<'a>(name: Word<'a>, version: Version, line: &'a [u8]) -> Trouble<'a> {
    if name.bytes == b"debug".as_slice() {
        return Trouble::of_line(name.column, LineTrouble::DebugInSession);
    }
    if name.bytes == b"label".as_slice() {
        return Trouble::of_line(name.column, LineTrouble::LabelInSchedule);
    }
    let none = Trouble::of_word(name, WordTrouble::NoSuch(Names::Session));
    call_alone(name, version, line).unwrap_or(none)
}
