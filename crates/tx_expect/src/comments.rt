//! The comment of a line, and which reply it expects of the line's step.
ghost use Rattle.std.specs.Prelude.{◌≡◌, ◌≤◌, length, option_map};
ghost use Rattle.tx_expect.specs.Comments.{after_equals, before_mark, begins_state, comment_from, comment_in, comment_text, expected_in, is_header_or_step, says};
ghost use Rattle.tx_translate.specs.Words as words;
ghost use Rattle.tx_translate.specs.Words.{words_in};
ghost use Rattle.tx_translate.specs.declared.reading.Reading.TheVariants.{InString, InWord};

use tx_lines::split_at;
use tx_translate::{naming_in, split_word};

/// Whether a line is the header or a step: it has a word, and gives no name to a process.
#[inline(always)] // most lines are seen to be one by their first byte
pub fn is_header_or_step(line: &[u8]) -> bool
    ensures { result ≡ is_header_or_step (words_in line.now) }
{
    match line {
        [first, ..] if !is_blank(*first) && *first != b'#' && *first != b'n' => true,
        _ => split_word(line).is_some() && naming_in(line).is_none(),
    }
}

/// What a line expects: what its comment has after `=`. Nothing where it has no such comment.
pub fn expected_in(line: &[u8]) -> Option<&[u8]>
    ensures { option_map (λ expected. expected.now) result ≡ expected_in line.now }
{
    after_equals(comment_in(line)?)
}

/// Whether what a line expects is a text: right after one space, or by the text of the comment.
pub fn says(expected: &[u8], text: &[u8]) -> bool
    ensures { result ≡ says expected.now text.now }
{
    match expected {
        [b' ', rest @ ..] if rest == text => true,
        _ => comment_text(expected) == text,
    }
}

/// Whether the comment of a line says `state`: the lines of a state are expected after it.
pub fn begins_state(line: &[u8]) -> bool
    ensures { result ≡ begins_state line.now }
{
    match comment_in(line) {
        Some(comment) => says(comment, b"state"),
        None => false,
    }
}

/// A comment up to the next `#`, without the white space around it.
pub fn comment_text(comment: &[u8]) -> &[u8]
    ensures { result.now ≡ comment_text comment.now }
{
    before_mark(comment).trim_ascii()
}

/// A comment up to the next `#`.
fn before_mark(comment: &[u8]) -> &[u8]
    ensures { result.now ≡ before_mark comment.now }
{
    match split_at(b'#', comment) {
        Some((front, _rest)) => front,
        None => comment,
    }
}

/// What follows the `#` that begins the comment of a line. Nothing where it has none.
fn comment_in(line: &[u8]) -> Option<&[u8]>
    ensures { option_map (λ comment. comment.now) result ≡ comment_in line.now }
{
    let mut left = line;
    while let Some((byte, rest)) = left.split_first() {
        if *byte == b'#' {
            return Some(rest);
        }
        if *byte == b'"' {
            return comment_after_strings(line);
        }
        left = rest;
    }
    None
}

/// The same where the line may have strings.
fn comment_after_strings(line: &[u8]) -> Option<&[u8]>
    ensures { option_map (λ comment. comment.now) result ≡ comment_in line.now }
{
    let mut is_in_word = false;
    let mut left = line;
    while let Some((byte, rest)) = left.split_first() {
        if *byte == b'#' {
            return Some(rest);
        }
        if *byte == b'"' && !is_in_word {
            is_in_word = true;
            left = after_string(rest);
        } else {
            is_in_word = !is_blank(*byte);
            left = rest;
        }
    }
    None
}

/// What follows a string in a line, of which that is left.
fn after_string(line: &[u8]) -> &[u8]
    ensures same { comment_from InString line.now ≡ comment_from InWord result.now }
    ensures shorter { length result.now ≤ length line.now }
{
    let mut is_escaped = false;
    let mut left = line;
    while let Some((byte, rest)) = left.split_first() {
        if *byte == b'"' && !is_escaped {
            return rest;
        }
        is_escaped = *byte == b'\\' && !is_escaped;
        left = rest;
    }
    left
}

/// What follows the `=` with which a comment begins, which may be after blanks. Nothing where it
/// begins otherwise.
fn after_equals(comment: &[u8]) -> Option<&[u8]>
    ensures { option_map (λ expected. expected.now) result ≡ after_equals comment.now }
{
    let mut left = comment;
    while let Some((byte, rest)) = left.split_first() {
        if *byte == b'=' {
            return Some(rest);
        }
        if !is_blank(*byte) {
            return None;
        }
        left = rest;
    }
    None
}

/// Whether a byte separates words.
fn is_blank(byte: u8) -> bool
    ensures { result ≡ words.is_blank byte }
{
    byte == b' ' || byte == b'\t'
}
