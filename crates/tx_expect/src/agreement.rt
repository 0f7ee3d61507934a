//! Whether a reply is the expected one.
ghost use Rattle.std.specs.Prelude.{◌≡◌, ◌++◌, ◌<◌, IfOk, codes, option_map, true};
ghost use Rattle.std.specs.Fmt.{decimal};
ghost use Rattle.std.specs.Str.{bytes_eq};
ghost use Rattle.tx_expect.specs.Agreement as spec;
ghost use Rattle.tx_state_text.specs.Replies.{reply_text};

use crate::comments::comment_text;
use std::alloc::AllocError;
use tx_base::Reply;
use tx_state_text::{error_name, put_named_reply, put_reply};

/// Whether a reply is the expected one: as a report spells it, or an error with its name in place
/// of its number or after it. `spelled` is room for the spelling of a reply, whatever it has.
///
/// The only error is that a growth of memory was refused.
pub fn agrees(spelled: &mut String, expected: &[u8], reply: &Reply) -> Result<bool, AllocError>
    ensures { IfOk result (λ agrees. agrees ≡ spec.agrees expected.now reply.now) }
{
    if spells_at_once(spelled, expected, reply)? {
        return Ok(true);
    }
    spells(spelled, comment_text(expected), reply)
}

/// Whether what follows one space spells a reply. Most expectations do, and need no other check.
fn spells_at_once(spelled: &mut String, expected: &[u8], reply: &Reply) -> Result<bool, AllocError>
    ensures { IfOk result (λ spells. spells ≡ spec.spells_at_once expected.now reply.now) }
{
    match expected {
        [b' ', text @ ..] => spells(spelled, text, reply),
        _ => Ok(false),
    }
}

/// Whether a text spells a reply: an error by its name, or any as a report or a session spells it.
fn spells(spelled: &mut String, text: &[u8], reply: &Reply) -> Result<bool, AllocError>
    ensures { IfOk result (λ spells. spells ≡ spec.spells text.now reply.now) }
{
    if is_digit_of(text, reply) || names(text, error_in(reply)) {
        return Ok(true);
    }
    spelled.clear();
    put_reply(spelled, reply)?;
    if text == spelled.as_bytes() {
        return Ok(true);
    }
    spelled.clear();
    put_named_reply(spelled, reply)?;
    Ok(text == spelled.as_bytes())
}

/// Whether a text is that of an answer which is a digit: most are, and are worth no spelling.
fn is_digit_of(text: &[u8], reply: &Reply) -> bool
    ensures { result ≡ true → bytes_eq text.now (reply_text reply.now) ≡ true }
{
    let Reply::Done(ret) = reply else {
        return false;
    };
    match u8::try_from(*ret) {
        Ok(digit) if digit < 10 => is_digit(text, digit),
        _ => false,
    }
}

/// Whether a text is that of the answer which is this digit.
fn is_digit(text: &[u8], digit: u8) -> bool
    requires { digit < 10 }
    ensures { result ≡ bytes_eq text.now (codes "ok " ++ decimal digit) }
{
    text == [b'o', b'k', b' ', b'0' + digit].as_slice()
}

/// Whether a text is that of an error with its name in place of its number.
fn names(text: &[u8], error: Option<&'static str>) -> bool
    ensures { result ≡ spec.names text.now (option_map (λ name. name.now) error.entry) }
{
    match (text, error) {
        ([b'o', b'k', b' ', rest @ ..], Some(name)) => rest == name.as_bytes(),
        _ => false,
    }
}

/// The name of the error that a reply is. Nothing where it is none.
fn error_in(reply: &Reply) -> Option<&'static str>
    ensures { option_map (λ name. name.now) result ≡ spec.error_in reply.now }
{
    match reply {
        Reply::Done(ret) => error_name(*ret),
        _ => None,
    }
}
