//! What is wrong with the first line of a text.
use crate::diagnose::numbers::no_number;
use crate::trouble::{LineTrouble, Trouble, WordTrouble};
use crate::words::{Word, count_words, word_at};
use tx_base::{PROCESSES, WIDE_PROCESSES};
use tx_lines::{TextKind, read_pid};

/// What is wrong with the words of the first line of such a text.
pub fn header_trouble<'a>(kind: TextKind, line: &'a [u8]) -> Option<Trouble<'a>> {
    let first = word_at(line, 0)?;
    if first.bytes != b"txos".as_slice() || count_words(line) != 4 {
        return Some(Trouble::of_line(1, LineTrouble::NoHeader));
    }
    let version = word_at(line, 1)?;
    let text_kind = word_at(line, 2)?;
    let count = word_at(line, 3)?;
    match version.bytes {
        b"1" => count_trouble(kind, PROCESSES, text_kind, count),
        b"2" => count_trouble(kind, WIDE_PROCESSES, text_kind, count),
        _ => Some(Trouble::of_word(version, WordTrouble::NoVersion)),
    }
}

/// What is wrong with the kind of the text, or with how many processes there are, up to so many.
pub fn count_trouble<'a>(
    kind: TextKind,
    most: u16,
    text_kind: Word<'a>,
    count: Word<'a>,
) -> Option<Trouble<'a>> {
    let name = match kind {
        TextKind::Schedule => b"schedule".as_slice(),
        TextKind::Program => b"program".as_slice(),
    };
    if text_kind.bytes != name {
        return Some(Trouble::of_word(text_kind, WordTrouble::NoTextKind));
    }
    if read_pid(count.bytes).is_some_and(|pid| pid.0 > 0 && pid.0 <= most) {
        return None;
    }
    let range = if most == PROCESSES {
        "1 to 64"
    } else {
        "1 to 256"
    };
    Some(no_number(count, range))
}
