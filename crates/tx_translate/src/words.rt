//! The words of a line that a person wrote.
ghost use Rattle.std.specs.Prelude.{◌≡◌, ◌∷◌, ◌++◌, ◌+◌, ◌-◌, ◌<◌, ◌≤◌, [], ℕ, List, length, map, All, IfOk, IfSome, MatchOption};
ghost use Rattle.tx_translate.specs.Words.{bytes_at, columns_from, columns_in, next_from, rest_from, words_in};
ghost use Rattle.tx_translate.specs.declared.reading.Reading.TheVariants.{AfterBackslash, Between, InString, InWord};

use crate::reading::is_blank;
use std::alloc::Global;
use tx_base::NoMemory;

/// A word of a line, by its place.
#[derive(Clone, Copy)]
pub struct Word {
    /// The column of its first byte, from 1.
    pub column: usize,
    /// How many bytes it has.
    pub length: usize,
}

/// The words of a line, which has no end. The only error is a refused growth of memory.
pub fn words_in(alloc: Global, line: &[u8]) -> Result<Vec<Word>, NoMemory>
    ensures columns { IfOk result (λ words.
        map (λ word. word.column) words.items ≡ columns_in line.now) }
    ensures bytes { IfOk result (λ words. map (bytes_at line.now) words.items ≡ words_in line.now) }
    ensures inside { IfOk result (λ words.
        All (λ word. word.column + word.length ≤ length line.now + 1) words.items) }
{
    let mut words = Vec::new(alloc);
    let mut left = line;
    while let Some((word, rest)) = split_word(left) {
        words.push(Word {
            column: line.len() - rest.len() - word.len() + 1,
            length: word.len(),
        })?;
        left = rest;
    }
    Ok(words)
}

/// The first word of a line, or of what is left of one after a word, and what follows that word.
/// Nothing where there is no word.
pub fn split_word(line: &[u8]) -> Option<(&[u8], &[u8])>
    ensures words { MatchOption result (words_in line.now ≡ [])
        (λ r. words_in line.now ≡ r.0.now ∷ words_in r.1.now) }
    ensures columns { (first : ℕ) → MatchOption result (columns_from first Between line.now ≡ [])
        (λ r. columns_from first Between line.now
        ≡ (first + (length line.now - length r.1.now - length r.0.now))
        ∷ columns_from (first + (length line.now - length r.1.now)) Between r.1.now) }
    ensures place { IfSome result (λ r.
        (gap : List ℕ) × (line.now ≡ gap ++ (r.0.now ++ r.1.now))) }
    ensures inside { IfSome result (λ r. length r.0.now + length r.1.now ≤ length line.now) }
    ensures some { IfSome result (λ r. 0 < length r.0.now) }
{
    let left = from_word(line);
    if left.is_empty() {
        return None;
    }
    let rest = after_word(left);
    Some((&left[..left.len() - rest.len()], rest))
}

/// What is left of a line from its next word on. Nothing where there is none.
pub fn from_word(line: &[u8]) -> &[u8]
    ensures { result.now ≡ next_from line.now }
{
    let mut left = line;
    while let Some((byte, rest)) = left.split_first() {
        if *byte == b'#' {
            return &[];
        }
        if !is_blank(*byte) {
            return left;
        }
        left = rest;
    }
    left
}

/// What follows the word that a line begins with.
fn after_word(line: &[u8]) -> &[u8]
    ensures { result.now ≡ rest_from Between line.now }
{
    match line.split_first() {
        Some((b'"', string)) => after_string(string),
        _ => after_bare_word(line),
    }
}

/// What follows what is left of a word, outside of a string.
fn after_bare_word(line: &[u8]) -> &[u8]
    ensures { result.now ≡ rest_from InWord line.now }
{
    let mut left = line;
    while let Some((byte, rest)) = left.split_first() {
        if is_blank(*byte) || *byte == b'#' {
            return left;
        }
        left = rest;
    }
    left
}

/// What follows what is left of a word, in a string.
fn after_string(line: &[u8]) -> &[u8]
    ensures { result.now ≡ rest_from InString line.now }
{
    let mut left = line;
    while let Some((byte, rest)) = left.split_first() {
        if *byte == b'"' {
            return after_bare_word(rest);
        }
        left = if *byte == b'\\' {
            after_escaped(rest)
        } else {
            rest
        };
    }
    left
}

/// What follows the first byte, which another one escapes. Nothing where there is none.
fn after_escaped(bytes: &[u8]) -> &[u8]
    ensures same { rest_from AfterBackslash bytes.now ≡ rest_from InString result.now }
    ensures shorter { length result.now ≤ length bytes.now }
{
    match bytes.split_first() {
        Some((_first, rest)) => rest,
        None => bytes,
    }
}
