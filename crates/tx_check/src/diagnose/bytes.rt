//! What is wrong with a word that must be bytes in hex digits.
use crate::trouble::{Trouble, WordTrouble};
use crate::words::Word;
use arrayvec::ArrayVec;
use tx_lines::read_bytes;

/// How many digits a word may have.
const DIGITS: usize = 128;

/// What is wrong where bytes are expected.
pub fn bytes_trouble<'a>(word: Word<'a>) -> Option<Trouble<'a>> {
    if read_bytes(word.bytes, &mut ArrayVec::new()) {
        return None;
    }
    let trouble = match word.bytes {
        [b'"', ..] => WordTrouble::InHex,
        [b'\'', ..] => WordTrouble::SingleQuotes,
        digits => digits_trouble(digits, false),
    };
    Some(Trouble::of_word(word, trouble))
}

/// What is wrong with the digits of a word that is no bytes, where they may be of either case or
/// not.
pub fn digits_trouble(digits: &[u8], is_either_case: bool) -> WordTrouble<'static> {
    if !digits.iter().all(|byte| byte.is_ascii_hexdigit()) {
        return WordTrouble::NoHexDigits;
    }
    if !is_either_case && digits.iter().any(|byte| byte.is_ascii_uppercase()) {
        return WordTrouble::UpperCase;
    }
    if digits.len() > DIGITS {
        return WordTrouble::TooManyBytes;
    }
    WordTrouble::OddDigits
}
