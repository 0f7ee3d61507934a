//! What is wrong with a line of a session that begins as a header does.
use crate::diagnose::headers::count_trouble;
use crate::trouble::{LineTrouble, Trouble, WordTrouble};
use crate::words::{count_words, word_at};
use tx_base::{PROCESSES, WIDE_PROCESSES};
use tx_lines::TextKind;

/// What is wrong with a line that begins with `txos`. It is too late for a header that is right.
pub fn head_trouble<'a>(line: &'a [u8]) -> Trouble<'a> {
    words_trouble(line).unwrap_or(Trouble::of_line(1, LineTrouble::HeaderLate))
}

/// What is wrong with the words of such a line. Nothing where they are a header's.
fn words_trouble<'a>(line: &'a [u8]) -> Option<Trouble<'a>> {
    if count_words(line) != 4 {
        return Some(Trouble::of_line(1, LineTrouble::NoSessionHeader));
    }
    let version = word_at(line, 1)?;
    let kind = word_at(line, 2)?;
    let count = word_at(line, 3)?;
    if kind.bytes == b"program".as_slice() {
        return Some(Trouble::of_line(kind.column, LineTrouble::ProgramInSession));
    }
    match version.bytes {
        b"1" => count_trouble(TextKind::Schedule, PROCESSES, kind, count),
        b"2" | b"3" => count_trouble(TextKind::Schedule, WIDE_PROCESSES, kind, count),
        _ => Some(Trouble::of_word(version, WordTrouble::NoVersion)),
    }
}
