//! Prints what a session is answered, in its form.
ghost use Rattle.std.specs.Prelude.{IfOk, OnOk, string_bytes};
ghost use Rattle.tx_journal.specs.Entries.{history_of};
ghost use Rattle.tx_journal.specs.Sessions.{made_of, position_of};
ghost use Rattle.tx_shell.specs.Forms.{IsPlaced, SaysAhead, SaysAnswer, SaysNothing, SaysPosition, SaysReply};
ghost use Rattle.tx_shell.specs.Names.{named};
ghost use Rattle.tx_shell.specs.Places.{origin_of, place_of};

use crate::answers::answer::Answer;
use crate::answers::as_json::answer_line;
use crate::answers::as_text::answer_text;
use crate::answers::helps::text_as;
use crate::answers::journals::position_line;
use crate::answers::steps::put_reply_line;
use crate::lines::versions::TextVersion;
use crate::names::Names;
use std::alloc::Global;
use tx_base::{NoMemory, Reply};
use tx_journal::Session;
use tx_script::Form;

/// The answer to a step where steps are ahead.
const AHEAD: &str = "steps are ahead; cut drops them, forward makes them again";

/// The answer to a line without a word.
///
/// NoMemory where a growth is refused.
pub fn say_nothing(alloc: Global, form: Form) -> Result<String, NoMemory>
    ensures { IfOk result (λ text. SaysNothing form (string_bytes text)) }
{
    match form {
        Form::Text => Ok(String::new(alloc)),
        Form::Json => tx_json::empty_answer(alloc),
    }
}

/// A position.
///
/// NoMemory where a growth is refused.
pub fn say_position(alloc: Global, form: Form, position: usize) -> Result<String, NoMemory>
    ensures { IfOk result (λ text. SaysPosition form position (string_bytes text)) }
{
    match form {
        Form::Text => position_line(alloc, position),
        Form::Json => tx_json::position_answer(alloc, position),
    }
}

/// An answer, printed with the session at the position to which it led.
///
/// NoMemory where a growth is refused.
pub fn say_answer(
    alloc: Global,
    form: Form,
    version: TextVersion,
    session: &Session,
    names: Names<'_>,
    answer: &Answer,
) -> Result<String, NoMemory>
    requires { IsPlaced (position_of session.now) answer.now }
    ensures { IfOk result (λ text. SaysAnswer form (origin_of version session.now)
        (named names.entry) (history_of (made_of session.now)) (place_of session.now) answer.now
        (string_bytes text)) }
{
    match form {
        Form::Text => answer_text(alloc, version, session, names, answer),
        Form::Json => answer_line(alloc, version, session, names, answer),
    }
}

/// Puts the reply of a step, which has that number where it was accepted, in place of what the text
/// had.
///
/// NoMemory where a growth is refused; the text has nothing to be shown then.
pub fn put_reply(
    alloc: Global,
    form: Form,
    number: usize,
    reply: &Reply,
    text: &mut String,
) -> Result<(), NoMemory>
    ensures { OnOk result (SaysReply form number reply.now (string_bytes text.new)) }
{
    match form {
        Form::Text => Ok(put_reply_line(text, reply)?),
        Form::Json => put_json(alloc, number, reply, text),
    }
}

/// Puts in place of what the text had that steps are ahead, and both ways out.
///
/// NoMemory where a growth is refused.
#[inline(never)] // inlined, each step would fill the place of its answer
pub fn put_ahead(alloc: Global, form: Form, text: &mut String) -> Result<(), NoMemory>
    ensures { OnOk result (SaysAhead form (string_bytes text.new)) }
{
    *text = match form {
        Form::Text => text_as(
            alloc,
            "no: steps are ahead; cut drops them, forward makes them again\n",
        )?,
        Form::Json => tx_json::error_answer(alloc, AHEAD)?,
    };
    Ok(())
}

/// Puts the reply of a step as a line of JSON in place of what the text had.
///
/// NoMemory where a growth is refused.
#[inline(never)] // as `put_ahead`
fn put_json(alloc: Global, number: usize, reply: &Reply, text: &mut String) -> Result<(), NoMemory>
    ensures { OnOk result (SaysReply Form.Json number reply.now (string_bytes text.new)) }
{
    tx_json::put_step_answer(alloc, text, number, reply)
}
