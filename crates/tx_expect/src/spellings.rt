//! Which texts are spellings of replies.
use arrayvec::ArrayVec;
use tx_base::UNDELIVERED;
use tx_lines::{number, read_byte, read_bytes, read_pid, split_at, split_word};
use tx_state_text::error_name;

/// The number above which there is no error.
const ERRORS_ABOVE: i64 = -100;

/// The refusals are numbered from 1 to this.
const REFUSALS: u8 = 14;

/// The refusal that is followed by the starter in the way.
const BUSY: u8 = 8;

/// Whether some reply may be spelled so. Of numbers it only checks whether they fit.
pub fn is_reply(reply: &[u8]) -> bool {
    match split_word(reply) {
        None => reply == b"ended".as_slice() || reply == b"committed".as_slice(),
        Some((word, rest)) => is_reply_with(word, rest),
    }
}

/// The same of one with a word, and what follows it.
fn is_reply_with(word: &[u8], rest: &[u8]) -> bool {
    if word == b"ok".as_slice() {
        return is_return(rest);
    }
    if word == b"no".as_slice() {
        return is_refusal(rest);
    }
    if word == b"aborted".as_slice() {
        return read_pid(rest).is_some();
    }
    if word == b"out".as_slice() {
        return rest == b"-".as_slice() || read_bytes(rest, &mut ArrayVec::new());
    }
    word == b"committed".as_slice() && are_undelivered(rest)
}

/// Whether that is what a call returns: a number, the name of an error, or both.
fn is_return(rest: &[u8]) -> bool {
    match split_word(rest) {
        None => number(rest).is_some() || is_error(rest),
        Some((ret, name)) => match number(ret) {
            Some(ret) => error_name(ret).map(|it| it.as_bytes()) == Some(name),
            None => false,
        },
    }
}

/// Whether a word is the name of an error.
fn is_error(word: &[u8]) -> bool {
    (ERRORS_ABOVE..0).any(|ret| error_name(ret).map(|it| it.as_bytes()) == Some(word))
}

/// Whether that is a refusal, and the starter in the way where there is one.
fn is_refusal(rest: &[u8]) -> bool {
    let (word, starter) = match split_word(rest) {
        Some((word, starter)) => (word, Some(starter)),
        None => (rest, None),
    };
    match (refusal_number(word), starter) {
        (Some(number), Some(starter)) => number == BUSY && read_pid(starter).is_some(),
        (Some(number), None) => number != BUSY && number >= 1 && number <= REFUSALS,
        (None, _) => false,
    }
}

/// The number of a refusal, after its letter.
fn refusal_number(word: &[u8]) -> Option<u8> {
    read_byte(word.strip_prefix(b"N".as_slice())?)
}

/// Whether these are sends that could not be delivered, no more than one commit has.
fn are_undelivered(sends: &[u8]) -> bool {
    let mut left = sends;
    for _send in 0..UNDELIVERED {
        match split_word(left) {
            Some((send, rest)) if is_undelivered(send) => left = rest,
            Some(_other) => return false,
            None => return is_undelivered(left),
        }
    }
    false
}

/// Whether that is one: its target, its signal and the number of its error.
fn is_undelivered(send: &[u8]) -> bool {
    let Some((target, rest)) = split_at(b':', send) else {
        return false;
    };
    let Some((signal, error)) = split_at(b':', rest) else {
        return false;
    };
    read_pid(target).is_some() && read_byte(signal).is_some() && read_byte(error).is_some()
}
