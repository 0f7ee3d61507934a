//! What is wrong with a word that must be a set of signals.
use crate::trouble::{Trouble, WordTrouble};
use crate::words::Word;
use tx_base::Signo;
use tx_lines::{read_byte, read_set};
use tx_signal::is_known;

/// What is wrong where a set of signals is expected.
pub fn signals_trouble<'a>(word: Word<'a>) -> Option<Trouble<'a>> {
    read_set(word.bytes)
        .is_none()
        .then(|| Trouble::of_word(word, in_members(word.bytes)))
}

/// What is wrong with a word that is no set: the first of its members that is no signal's number,
/// or not above the one before.
fn in_members(word: &[u8]) -> WordTrouble<'_> {
    let mut above = 0;
    for part in word.split(|byte| *byte == b',') {
        match member(part) {
            Ok(signo) if signo > above => above = signo,
            Ok(_signo) => return WordTrouble::NotRising,
            Err(trouble) => return trouble,
        }
    }
    WordTrouble::NotRising
}

/// The signal that a word in a set names, or what is wrong with it.
fn member(word: &[u8]) -> Result<u8, WordTrouble<'_>> {
    if word.starts_with(b"SIG") {
        return Err(WordTrouble::SignalName);
    }
    match read_byte(word) {
        Some(signo) if is_known(Signo(signo)) => Ok(signo),
        Some(_signo) => Err(WordTrouble::NoSignalIn(word)),
        None => Err(WordTrouble::NoSet),
    }
}
