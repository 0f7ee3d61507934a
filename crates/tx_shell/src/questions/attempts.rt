//! Reports the last refused step of the child that a process waits for.
ghost use Rattle.std.specs.Prelude.{◌≡◌, ◌++◌, IfOk, OnOk, option_map, string_bytes};
ghost use Rattle.tx_journal.specs.Entries.{history_of};
ghost use Rattle.tx_journal.specs.Sessions.{made_of, start_of};
ghost use Rattle.tx_journal.specs.Trials.{shown_at};
ghost use Rattle.tx_shell.specs.Attempts.{answered_text, attempt_of, attempt_text, awaited_child, outcome_text};
ghost use Rattle.tx_shell.specs.Names.{named};

use crate::answers::refused::Refused;
use crate::names::{Names, process_of, put_step_made};
use crate::questions::reasons::{put_facts, reason_of};
use std::alloc::{AllocError, Global};
use tx_base::{Call, NoMemory, Pid, Refusal, Reply, Step};
use tx_journal::Session;
use tx_lines::put;
use tx_state_text::put_named_reply;

/// The last step of a process, which was refused, and the reply that it would get at the position.
#[derive(Drop)]
pub struct Attempt {
    pub step: Step,
    pub reply: Reply,
}

/// Of a step that would get this reply, and waits for a child's end: the last step of that child,
/// where it was refused.
///
/// NoMemory where a growth is refused.
pub fn child_attempt(
    alloc: Global,
    session: &mut Session,
    refused: &Refused,
    step: &Step,
    reply: &Reply,
) -> Result<Option<Attempt>, NoMemory>
    ensures attempt { IfOk result (λ attempt. attempt ≡ attempt_of (shown_at session.old)
        refused.now.own (awaited_child step.now reply.now)) }
    ensures same { session.new ≡ session.old }
{
    let Some(child) = awaited_child(step, reply) else {
        return Ok(None);
    };
    let Some(step) = refused.own(child) else {
        return Ok(None);
    };
    let reply = session.reply_to(alloc, step)?;
    Ok(Some(Attempt {
        step: step.copy(),
        reply,
    }))
}

/// The child whose end a step waits for that would get this reply.
fn awaited_child(step: &Step, reply: &Reply) -> Option<Pid>
    ensures { option_map (λ child. child.0) result ≡ awaited_child step.now reply.now }
{
    match (step, reply) {
        (Step::Call(_, Call::Waitpid(child, _)), Reply::No(Refusal::Wait)) => process_of(*child),
        _ => None,
    }
}

/// Appends the last step of the child that a process waits for, where it was refused, and why it
/// would be refused at the position, or what else it would be answered.
pub fn put_attempt(
    text: &mut String,
    session: &Session,
    names: Names<'_>,
    attempt: &Option<Attempt>,
) -> Result<(), AllocError>
    ensures { OnOk result (string_bytes text.new ≡ string_bytes text.old
        ++ attempt_text (named names.entry) (start_of session.now)
        (history_of (made_of session.now))
        attempt.now) }
{
    let Some(attempt) = attempt else {
        return Ok(());
    };
    put(text, "its last step was refused: ")?;
    put_step_made(text, names, &attempt.step)?;
    put_outcome(text, session, names, attempt)
}

/// Appends the facts of the refusal of a step, or what else it would be answered.
fn put_outcome(
    text: &mut String,
    session: &Session,
    names: Names<'_>,
    attempt: &Attempt,
) -> Result<(), AllocError>
    ensures { OnOk result (string_bytes text.new ≡ string_bytes text.old
        ++ outcome_text (named names.entry) (start_of session.now)
        (history_of (made_of session.now))
        attempt.now.step attempt.now.reply) }
{
    match &attempt.reply {
        Reply::No(why) => {
            let alloc = *text.allocator();
            let reason = reason_of(alloc, session, &attempt.step, &attempt.reply)?;
            put(text, "\n")?;
            put_facts(text, session, names, &attempt.step, *why, &reason)
        }
        Reply::Done(_)
        | Reply::Ended
        | Reply::Committed { .. }
        | Reply::Aborted(_)
        | Reply::Out(_) => put_answered(text, &attempt.reply),
    }
}

/// Appends the answer to a step that would not be refused.
fn put_answered(text: &mut String, reply: &Reply) -> Result<(), AllocError>
    ensures { OnOk result
        (string_bytes text.new ≡ string_bytes text.old ++ answered_text reply.now) }
{
    put(text, ", and would be answered ")?;
    put_named_reply(text, reply)?;
    put(text, " now\n")
}
