//! What is wrong with a string that means no bytes, and so is in the line of version 2 as it is.
use crate::own::own_word;
use crate::trouble::{Trouble, What, WordTrouble};
use crate::words::{Word, count_words, word_at};
use tx_lines::LINE_BYTES;

/// How many bytes a string may have.
const BYTES: usize = 64;

/// What is wrong with the first string of an own line that is in the line of version 2 as it is,
/// where it may be the cause of what was found there, at that own column.
pub fn string_trouble<'a>(
    line: &[u8],
    own: &'a [u8],
    column: usize,
    what: &What<'_>,
) -> Option<Trouble<'a>> {
    if line.len() > LINE_BYTES {
        return None;
    }
    let string = string_left(line, own)?;
    let may_come_of_it = column >= string.column
        || matches!(what, What::Word(_, WordTrouble::Takes(..)));
    may_come_of_it.then(|| Trouble::of_word(string, wrong_in(string.bytes)))
}

/// The first string of an own line that is in the line of version 2 as it is. No word before it has
/// a space, so its place in both lines is the same.
fn string_left<'a>(line: &[u8], own: &'a [u8]) -> Option<Word<'a>> {
    for place in 0..count_words(line) {
        let string = own_word(own, place)?;
        let word = word_at(line, place)?;
        if string.bytes.starts_with(b"\"") && word.bytes.starts_with(b"\"") {
            return Some(string);
        }
    }
    None
}

/// What is wrong with a string. `NoStore` where it means bytes, and is in a wrong place.
fn wrong_in(string: &[u8]) -> WordTrouble<'static> {
    let mut is_escaped = false;
    let mut count: usize = 0;
    for at in 1..string.len() {
        let byte = string[at];
        if is_escaped && !b"nt0\"\\".contains(&byte) {
            return WordTrouble::NoEscape;
        }
        if !is_escaped && byte == b'"' {
            return wrong_at_end(count, &string[at + 1..]);
        }
        is_escaped = !is_escaped && byte == b'\\';
        if !is_escaped {
            count = count.saturating_add(1);
        }
    }
    WordTrouble::OpenString
}

/// What is wrong with a string of so many bytes, and with what follows it.
fn wrong_at_end(count: usize, rest: &[u8]) -> WordTrouble<'static> {
    if !rest.is_empty() {
        return WordTrouble::AfterString;
    }
    if count == 0 || count > BYTES {
        return WordTrouble::StringSize;
    }
    WordTrouble::NoStore
}
