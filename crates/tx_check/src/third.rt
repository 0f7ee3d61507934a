//! What is wrong with a line of version 2, said of the line of version 3 that means it.
mod names;
mod sets;
mod strings;

use crate::diagnose::bytes::digits_trouble;
use crate::places::Part;
use crate::third::names::naming_trouble;
use crate::third::sets::set_trouble;
use crate::third::strings::string_trouble;
use crate::trouble::{Trouble, What, WordTrouble};
use crate::words::word_at;
use tx_translate::{Role, role_of};

/// What is wrong with a line, at a column of its own line: in the line that is meant it was found
/// at the word of that place.
pub fn third_trouble<'a>(
    part: Part,
    line: &'a [u8],
    place: usize,
    own: &'a [u8],
    found: Trouble<'a>,
) -> Trouble<'a> {
    if let Some(trouble) = string_trouble(line, own, found.column, &found.what) {
        return trouble;
    }
    let found = naming_trouble(part, own, found);
    let What::Word(word, wrong) = found.what else {
        return found;
    };
    let wrong = match role_at(part, line, place) {
        Role::Signal => signal_trouble(wrong),
        Role::Set => set_trouble(word),
        Role::Other | Role::Bytes => other_trouble(word, wrong),
    };
    Trouble {
        column: found.column,
        what: What::Word(word, wrong),
    }
}

/// What the word at that place of a line must be.
fn role_at(part: Part, line: &[u8], place: usize) -> Role {
    let name_place = match part {
        Part::Step => 1,
        Part::ProgramLine | Part::Link => 0,
        _ => return Role::Other,
    };
    match word_at(line, name_place) {
        Some(name) if place > name_place => role_of(name.bytes, place - name_place - 1),
        _ => Role::Other,
    }
}

/// What is wrong with a word that must be a signal.
fn signal_trouble<'a>(wrong: WordTrouble<'a>) -> WordTrouble<'a> {
    match wrong {
        WordTrouble::SignalName | WordTrouble::NoNumber => WordTrouble::NoSignal,
        _ => wrong,
    }
}

/// What is wrong with a word that must be neither a signal nor a set. Digits may be of either case,
/// and after `0x`.
fn other_trouble<'a>(word: &[u8], wrong: WordTrouble<'a>) -> WordTrouble<'a> {
    match wrong {
        WordTrouble::SignalName => WordTrouble::NoNumber,
        WordTrouble::UpperCase | WordTrouble::NoHexDigits => {
            let digits = word.strip_prefix(b"0x".as_slice()).unwrap_or(word);
            digits_trouble(digits, true)
        }
        _ => wrong,
    }
}
