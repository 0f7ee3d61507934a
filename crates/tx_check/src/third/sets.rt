//! What is wrong with a word that must be a set of signals, by names or numbers.
use crate::trouble::WordTrouble;
use tx_translate::signal;

/// What is wrong with a word that is no set: the first of its members that is no signal, or that
/// one is in it twice.
pub fn set_trouble(word: &[u8]) -> WordTrouble<'_> {
    let mut members = word.split(|byte| *byte == b',');
    members
        .find_map(member_trouble)
        .unwrap_or(WordTrouble::Twice)
}

/// What is wrong with a member of a set. Nothing where it is a signal.
fn member_trouble(member: &[u8]) -> Option<WordTrouble<'_>> {
    if member.is_empty() {
        return Some(WordTrouble::NoSignals);
    }
    signal(member)
        .is_none()
        .then_some(WordTrouble::NoSignalIn(member))
}
