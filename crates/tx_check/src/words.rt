//! Cuts a line into words. Nothing else here knows what separates them.
ghost use Rattle.std.specs.Prelude.{◌<◌, ◌≤◌, length};

use crate::kinds::front_word;
use tx_lines::split_word;

/// A word of a line, and the column of its first byte. Columns count bytes from 1.
#[derive(Clone, Copy)]
pub struct Word<'a> {
    pub column: usize,
    pub bytes: &'a [u8],
}

/// The word at that place of a line. Places count from 0.
pub fn word_at(line: &[u8], place: usize) -> Option<Word<'_>> {
    let mut left = line;
    for _earlier in 0..place {
        let (_word, rest) = split_word(left)?;
        left = rest;
    }
    Some(Word {
        column: line.len().saturating_sub(left.len()) + 1,
        bytes: front_word(left),
    })
}

/// How many words a line has.
pub fn count_words(line: &[u8]) -> usize
    ensures { 1 ≤ result }
{
    line.iter().filter(|byte| **byte == b' ').count() + 1
}

/// The column of the first space that separates no two words: one before the first word, after
/// another space, or after the last word.
pub fn odd_space(line: &[u8]) -> Option<usize> {
    for at in 0..line.len() {
        if line[at] == b' ' && !parts_words(line, at) {
            return Some(at + 1);
        }
    }
    None
}

/// Whether a space at that place is between two words, and no space follows it.
fn parts_words(line: &[u8], at: usize) -> bool
    requires { at < length line.now }
{
    at > 0 && at + 1 < line.len() && line[at + 1] != b' '
}
