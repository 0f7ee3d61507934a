//! Compares words.
ghost use Rattle.std.specs.Prelude.{◌≡◌};
ghost use Rattle.std.specs.Str.{bytes_eq};
ghost use Rattle.tx_translate.specs.Plain.{begins_with};
ghost use Rattle.tx_translate.specs.Words.{words_in};

use crate::words::split_word;

/// Whether a word is spelled so.
pub fn is(word: &[u8], spelling: &[u8]) -> bool
    ensures { result ≡ bytes_eq word.now spelling.now }
{
    word == spelling
}

/// Whether the first word of what is left of a line is spelled so.
pub fn begins_with(spelling: &[u8], left: &[u8]) -> bool
    ensures { result ≡ begins_with spelling.now (words_in left.now) }
{
    match split_word(left) {
        Some((first, _)) => is(first, spelling),
        None => false,
    }
}
