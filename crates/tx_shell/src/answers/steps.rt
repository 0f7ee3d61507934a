//! Makes a step.
ghost use Rattle.std.specs.Prelude.{◌≡◌, ◌+◌, ◌≤◌, ◌++◌, ◌∷◌, [], OnErr, OnOk, length, string_bytes, take};
ghost use Rattle.tx_journal.specs.Sessions.{start_of, IsAtEnd, SameBoot};
ghost use Rattle.tx_shell.specs.Answers.{AnswersStep, MakesStep};
ghost use Rattle.tx_shell.specs.Places.{place_of};
ghost use Rattle.tx_state_text.specs.Replies.{named_reply_text};

use crate::answers::forms::{put_ahead, put_reply};
use std::alloc::{AllocError, Global};
use tx_base::{ABORTED_BY_CALL, NoMemory, Reply, Step};
use tx_journal::Session;
use tx_lines::put;
use tx_script::{Form, WORKER};
use tx_state_text::put_named_reply;

/// Makes a step at the end of the journal, puts its reply in its place, and the line of that in
/// place of what the text had. Elsewhere it is not made, and both ways out are named. A step that
/// is accepted is moved into its entry, any other stays.
///
/// NoMemory where a growth is refused; no step came or went then. The text has nothing to be shown.
pub fn answer_step(
    alloc: Global,
    form: Form,
    session: &mut Session,
    step: &mut Step,
    reply: &mut Reply,
    text: &mut String,
) -> Result<(), NoMemory>
    ensures answer { OnOk result
        (AnswersStep form (start_of session.old) (place_of session.old) step.old
        (string_bytes text.new) (place_of session.new)) }
    ensures stays { OnOk result (
        length session.new.entries ≡ length session.old.entries → step.new ≡ step.old) }
    ensures refused { OnErr result (place_of session.new ≡ place_of session.old) }
    ensures boot { SameBoot session.new session.old }
{
    if session.position() == session.len() {
        return make_step(alloc, form, session, step, reply, text);
    }
    put_ahead(alloc, form, text)
}

/// Makes a step at the end of the journal, puts its reply in its place, and the line of that in
/// place of what the text had.
///
/// NoMemory where a growth is refused; no step came or went then.
fn make_step(
    alloc: Global,
    form: Form,
    session: &mut Session,
    step: &mut Step,
    reply: &mut Reply,
    text: &mut String,
) -> Result<(), NoMemory>
    requires { IsAtEnd session.old }
    ensures answer { OnOk result
        (MakesStep form (start_of session.old) (place_of session.old) step.old
        (string_bytes text.new) (place_of session.new)) }
    ensures stays { OnOk result (
        length session.new.entries ≡ length session.old.entries → step.new ≡ step.old) }
    ensures refused { OnErr result (place_of session.new ≡ place_of session.old) }
    ensures boot { SameBoot session.new session.old }
{
    let _machine = session.machine();
    let count = session.len();
    session.enter(alloc, WORKER, step, reply);
    if reply.wants_memory() {
        return Err(NoMemory);
    }
    match put_reply(alloc, form, session.len(), reply, text) {
        Ok(()) => Ok(()),
        Err(NoMemory) => {
            take_back(session, count);
            Err(NoMemory)
        }
    }
}

/// Puts the line of a reply in place of what the text had. The only error is that a growth of
/// memory was refused: the text may then have some of it.
pub fn put_reply_line(text: &mut String, reply: &Reply) -> Result<(), AllocError>
    ensures { OnOk result (string_bytes text.new ≡ named_reply_text reply.now ++ 10 ∷ []) }
{
    text.clear();
    if let Reply::Done(ret) = reply {
        if *ret == 0 {
            return put(text, "ok 0\n"); // what most steps are answered
        }
    }
    if let Reply::Aborted(status) = reply {
        if *status == ABORTED_BY_CALL {
            return put(text, "aborted 201\n"); // and most aborts
        }
    }
    put_named_reply(text, reply)?;
    put(text, "\n")
}

/// Takes the step after so many back, if it was made, and drops it. It takes no memory.
fn take_back(session: &mut Session, count: usize)
    requires at_end { IsAtEnd session.old }
    requires one { length session.old.entries ≤ count + 1 }
    ensures entries { session.new.entries ≡ take count session.old.entries }
    ensures at_end { IsAtEnd session.new }
    ensures boot { SameBoot session.new session.old }
{
    if session.len() > count {
        let _taken = session.back();
        session.cut();
    }
}
