//! What is wrong with a word that must be a number.
use crate::forms::Field;
use crate::trouble::{Trouble, WordTrouble};
use crate::words::Word;
use tx_lines::{number, read_byte, read_pid, read_position};
use tx_translate::signal;

/// What is wrong where a number is expected, by what it stands for.
pub fn number_trouble<'a>(field: Field, word: Word<'a>) -> Option<Trouble<'a>> {
    let (is_one, range) = match field {
        Field::Process => (read_pid(word.bytes).is_some(), "0 to 65535"),
        Field::Small => (read_byte(word.bytes).is_some(), "0 to 255"),
        Field::Position => (
            read_position(word.bytes).is_some(),
            "0 to 9223372036854775807",
        ),
        Field::Point => (is_point(word.bytes), "0 to 4294967295"),
        _ => (
            number(word.bytes).is_some(),
            "-9223372036854775808 to 9223372036854775807",
        ),
    };
    (!is_one).then(|| no_number(word, range))
}

/// Whether a word is a point of a schedule.
fn is_point(word: &[u8]) -> bool {
    number(word).is_some_and(|point| u32::try_from(point).is_ok())
}

/// What is wrong with a word that is no number of that range.
pub fn no_number<'a>(word: Word<'a>, range: &'static str) -> Trouble<'a> {
    let digits = word.bytes.strip_prefix(b"-").unwrap_or(word.bytes);
    let trouble = if word.bytes.starts_with(b"SIG") || is_signal_name(word.bytes) {
        WordTrouble::SignalName
    } else if digits.is_empty() || !digits.iter().all(|byte| byte.is_ascii_digit()) {
        WordTrouble::NoNumber
    } else if digits[0] == b'0' && word.bytes.len() > 1 {
        WordTrouble::ZeroBefore
    } else {
        WordTrouble::OutOfRange(range)
    };
    Trouble::of_word(word, trouble)
}

/// Whether a word is the name of a signal.
pub fn is_signal_name(word: &[u8]) -> bool {
    read_byte(word).is_none() && signal(word).is_some()
}
