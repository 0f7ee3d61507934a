//! What is wrong with a word, by what it stands for.
use crate::diagnose::bytes::bytes_trouble;
use crate::diagnose::numbers::number_trouble;
use crate::diagnose::signals::signals_trouble;
use crate::forms::{Field, is_among};
use crate::trouble::{Trouble, WordTrouble};
use crate::words::Word;
use tx_lines::{TextKind, read_name};

/// What is wrong with a word that stands for that in a text of that kind. A program may take a
/// number from a slot, and names a point by a label.
pub fn field_trouble<'a>(kind: TextKind, field: Field, word: Word<'a>) -> Option<Trouble<'a>> {
    match (kind, field) {
        (TextKind::Program, Field::Number) => match word.bytes {
            [b'$', b'0'..=b'7'] => None,
            [b'$', ..] => Some(Trouble::of_word(word, WordTrouble::NoSlot)),
            _ => number_trouble(field, word),
        },
        (TextKind::Program, Field::Point) => match word.bytes {
            [b'@', name @ ..] => name_trouble(name, word),
            _ => Some(Trouble::of_word(word, WordTrouble::NoLabel)),
        },
        (_, Field::Name) => name_trouble(word.bytes, word),
        (_, Field::Bytes) => bytes_trouble(word),
        (_, Field::Signals) => signals_trouble(word),
        (_, Field::Choice(choices)) if is_among(choices, word.bytes) => None,
        (_, Field::Choice(choices)) => Some(Trouble::of_word(word, WordTrouble::NoneOf(choices))),
        _ => number_trouble(field, word),
    }
}

/// What is wrong where that name is expected in a word.
fn name_trouble<'a>(name: &[u8], word: Word<'a>) -> Option<Trouble<'a>> {
    read_name(name)
        .is_none()
        .then_some(Trouble::of_word(word, WordTrouble::NoName))
}
