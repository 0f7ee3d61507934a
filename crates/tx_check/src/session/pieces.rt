//! What is wrong with the piece of a state that a line of a session names.
use crate::diagnose::calls::count_of;
use crate::diagnose::fields::field_trouble;
use crate::forms::{Field, PIECES, form_of};
use crate::trouble::{Names, Trouble, WordTrouble};
use crate::words::{count_words, word_at};
use tx_lines::TextKind;

/// What is wrong with the piece whose name is the second word of a line.
pub fn piece_trouble<'a>(line: &'a [u8]) -> Option<Trouble<'a>> {
    let name = word_at(line, 1)?;
    let Some(form) = form_of(PIECES.as_slice(), name.bytes) else {
        return Some(Trouble::of_word(name, WordTrouble::NoSuch(Names::Pieces)));
    };
    let count = count_words(line).saturating_sub(2);
    if count != count_of(form.words) {
        return Some(Trouble::of_word(name, WordTrouble::Takes(form, count)));
    }
    numbers_trouble(form.words, line, 2)
}

/// What is wrong with the numbers that are for those words from that place of a line on; words that
/// are separated by `|` are for themselves.
pub fn numbers_trouble<'a>(
    words: &'static str,
    line: &'a [u8],
    place: usize,
) -> Option<Trouble<'a>> {
    for at in 0..count_of(words) {
        let wanted = word_at(words.as_bytes(), at)?.bytes;
        let field = match wanted {
            [b'P' | b'S', ..] | [b'[', b'P' | b'S', ..] => Field::Process,
            [b'K' | b'L', ..] | [b'[', b'K' | b'L', ..] => Field::Position,
            [b'a'..=b'z', ..] => Field::Choice(wanted),
            _ => Field::Small,
        };
        let word = word_at(line, place.saturating_add(at))?;
        let trouble = field_trouble(TextKind::Schedule, field, word);
        if trouble.is_some() {
            return trouble;
        }
    }
    None
}
