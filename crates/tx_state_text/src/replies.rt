//! Prints replies.
ghost use Rattle.std.specs.Prelude.{◌≡◌, ◌++◌, ◌<◌, OnOk, option_map, string_bytes};
ghost use Rattle.tx_state_text.specs.Replies.{error_name, missed_text, name_beside, named_reply_text, refusal_text, reply_text, undelivered_text};

use std::alloc::AllocError;
use std::fmt::Write;
use tx_base::{Missed, Refusal, Reply};
use tx_lines::{put, put_bytes, put_count, put_number, refusal_word};

/// Appends a reply, without its step's number and without a line end. The only error is that a
/// growth of memory was refused: the text may then end in some of the reply.
#[inline(always)] // each step's line has one; a call of its own costs 14
pub fn put_reply(text: &mut String, reply: &Reply) -> Result<(), AllocError>
    ensures { OnOk result (string_bytes text.new ≡ string_bytes text.old ++ reply_text reply.now) }
{
    match reply {
        Reply::Done(ret) => {
            put(text, "ok ")?;
            put_number(text, *ret)
        }
        Reply::Ended => put(text, "ended"),
        Reply::Committed { undelivered } => {
            put(text, "committed")?;
            put_undelivered(text, undelivered.as_slice())
        }
        Reply::Aborted(status) => {
            put(text, "aborted ")?;
            put_count(text, u64::from(*status))
        }
        Reply::Out(bytes) => {
            put(text, "out ")?;
            put_bytes(text, bytes.as_slice())
        }
        Reply::No(refusal) => {
            put(text, "no ")?;
            put_refusal(text, *refusal)
        }
    }
}

/// Appends the held sends that could not be delivered, in order.
fn put_undelivered(text: &mut String, undelivered: &[Missed]) -> Result<(), AllocError>
    ensures { OnOk result
        (string_bytes text.new ≡ string_bytes text.old ++ undelivered_text undelivered.now) }
{
    for i in 0..undelivered.len() {
        put_missed(text, &undelivered[i])?;
    }
    Ok(())
}

/// Appends a held send that could not be delivered: its target, its signal and its error's number.
fn put_missed(text: &mut String, missed: &Missed) -> Result<(), AllocError>
    ensures { OnOk result
        (string_bytes text.new ≡ string_bytes text.old ++ missed_text missed.now) }
{
    let (target, signo) = (missed.target.0, missed.signo.0);
    write!(text, " {target}:{signo}:{}", missed.errno.number())
}

/// Appends what a refusal is called, and the starter if one is in the way.
fn put_refusal(text: &mut String, refusal: Refusal) -> Result<(), AllocError>
    ensures { OnOk result (string_bytes text.new ≡ string_bytes text.old ++ refusal_text refusal) }
{
    put(text, refusal_word(refusal))?;
    match refusal {
        Refusal::Busy { starter } => {
            put(text, " ")?;
            put_count(text, u64::from(starter.0))
        }
        _ => Ok(()),
    }
}

/// Appends a reply as `put_reply` does, and beside the number of an error its name, as `ok -9 EBADF`.
pub fn put_named_reply(text: &mut String, reply: &Reply) -> Result<(), AllocError>
    ensures { OnOk result
        (string_bytes text.new ≡ string_bytes text.old ++ named_reply_text reply.now) }
{
    put_reply(text, reply)?;
    put_name_beside(text, reply)
}

/// Appends the name of a reply's error, after a space.
fn put_name_beside(text: &mut String, reply: &Reply) -> Result<(), AllocError>
    ensures { OnOk result
        (string_bytes text.new ≡ string_bytes text.old ++ name_beside reply.now) }
{
    let Reply::Done(ret) = reply else {
        return Ok(());
    };
    match error_name(*ret) {
        Some(name) => write!(text, " {name}"),
        None => Ok(()),
    }
}

/// The name of the error that a call returns as this number: `EBADF` for -9. None if the number is
/// no error's.
pub fn error_name(ret: i64) -> Option<&'static str>
    ensures { option_map (λ name. name.now) result ≡ error_name ret }
{
    match ret {
        -1 => Some("EPERM"),
        -3 => Some("ESRCH"),
        -9 => Some("EBADF"),
        -10 => Some("ECHILD"),
        -11 => Some("EAGAIN"),
        -14 => Some("EFAULT"),
        -22 => Some("EINVAL"),
        -24 => Some("EMFILE"),
        -32 => Some("EPIPE"),
        _ => None,
    }
}
