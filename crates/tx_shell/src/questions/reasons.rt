//! Reports why a step would be refused.
ghost use Rattle.std.specs.Prelude.{◌≡◌, ◌++◌, ℕ, IfOk, List, OnOk, map, string_bytes};
ghost use Rattle.tx_base.specs.declared.steps.Reply.TheVariants.{No};
ghost use Rattle.tx_journal.specs.Entries.{history_of};
ghost use Rattle.tx_journal.specs.Sessions.{made_of, start_of};
ghost use Rattle.tx_shell.specs.Blockers.{blocked_by, blocked_of};
ghost use Rattle.tx_shell.specs.Names.{named};
ghost use Rattle.tx_shell.specs.Reasons.{fact_lines, IsReason};
ghost use Rattle.tx_shell.specs.Whys.{ReportsReason, ReportsWhy};

use crate::answers::helps::meaning;
use crate::names::{Names, put_step_made};
use crate::questions::attempts::{Attempt, put_attempt};
use crate::questions::blockers::{Blocker, blockers, put_objects};
use crate::questions::signals::put_signals;
use crate::questions::waits::put_waited;
use std::alloc::{AllocError, Global};
use tx_base::{NoMemory, Refusal, Reply, Step};
use tx_journal::Session;
use tx_json::Holder;
use tx_lines::{put, refusal_word};
use tx_state_text::put_named_reply;
use tx_waits::awaited_holders;

/// What is reported of the reply that a step would get.
#[derive(Drop)]
pub struct Reason<'a> {
    /// The objects in its way, where a transaction has some.
    pub blockers: Vec<Blocker<'a>>,
    /// Who has the other side open, where it waits for a pipe.
    pub holders: Option<Vec<Holder>>,
}

/// What is reported of a step that would get this reply at the position. The only error is that a
/// growth of memory was refused.
pub fn reason_of<'a>(
    alloc: Global,
    session: &'a Session,
    step: &Step,
    reply: &Reply,
) -> Result<Reason<'a>, AllocError>
    ensures { IfOk result (IsReason (start_of session.now) (history_of (made_of session.now))
        step.now reply.now) }
{
    Ok(Reason {
        blockers: blockers_by(alloc, session, step, reply)?,
        holders: awaited_holders(alloc, session.machine(), step, reply)?,
    })
}

/// The objects in the way of a step that would get this reply.
fn blockers_by<'a>(
    alloc: Global,
    session: &'a Session,
    step: &Step,
    reply: &Reply,
) -> Result<Vec<Blocker<'a>>, AllocError>
    ensures { IfOk result (λ found. map blocked_of found.items
        ≡ blocked_by (start_of session.now) (history_of (made_of session.now)) step.now
        reply.now) }
{
    match reply {
        Reply::No(Refusal::Busy { .. }) => blockers(alloc, session, step),
        _ => Ok(Vec::new(alloc)),
    }
}

/// Why a step would get this reply at the position, and the last refused step of the child that it
/// waits for.
///
/// NoMemory where a growth is refused.
pub fn report_why(
    alloc: Global,
    session: &Session,
    names: Names<'_>,
    step: &Step,
    reply: &Reply,
    attempt: &Option<Attempt>,
) -> Result<String, NoMemory>
    ensures { IfOk result (λ text. ReportsWhy (named names.entry) (start_of session.now)
        (history_of (made_of session.now)) step.now attempt.now reply.now (string_bytes text)) }
{
    let mut text = String::new(alloc);
    put_step_made(&mut text, names, step)?;
    put(&mut text, ": it would be answered ")?;
    put_named_reply(&mut text, reply)?;
    put(&mut text, "\n")?;
    put_reason(&mut text, session, names, step, reply, attempt)?;
    Ok(text)
}

/// Appends why a step would get this reply, where it is refused.
fn put_reason(
    text: &mut String,
    session: &Session,
    names: Names<'_>,
    step: &Step,
    reply: &Reply,
    attempt: &Option<Attempt>,
) -> Result<(), AllocError>
    ensures { OnOk result ((report : List ℕ)
        × (string_bytes text.new ≡ string_bytes text.old ++ report)
        × ReportsReason (named names.entry) (start_of session.now)
        (history_of (made_of session.now))
        step.now attempt.now reply.now report) }
{
    match reply {
        Reply::No(why) => {
            let alloc = *text.allocator();
            let reason = reason_of(alloc, session, step, reply)?;
            put_facts(text, session, names, step, *why, &reason)?;
            put_attempt(text, session, names, attempt)?;
            put(text, meaning(refusal_word(*why).as_bytes()))
        }
        Reply::Done(_)
        | Reply::Ended
        | Reply::Committed { .. }
        | Reply::Aborted(_)
        | Reply::Out(_) => Ok(()),
    }
}

/// Appends the facts of a refusal: of a step in whose way a transaction is, the objects and the
/// signals that have two answers; of one that waits, what for.
pub fn put_facts(
    text: &mut String,
    session: &Session,
    names: Names<'_>,
    step: &Step,
    why: Refusal,
    reason: &Reason<'_>,
) -> Result<(), AllocError>
    requires { IsReason (start_of session.now) (history_of (made_of session.now)) step.now
        (No why) reason.now }
    ensures { OnOk result (string_bytes text.new ≡ string_bytes text.old
        ++ fact_lines (named names.entry) (start_of session.now) (history_of (made_of session.now))
        step.now why) }
{
    match why {
        Refusal::Busy { .. } => {
            put_objects(text, names, reason.blockers.as_slice())?;
            put_signals(text, session, names, step)
        }
        Refusal::Wait => put_waited(text, session, names, step, &reason.holders),
        _ => Ok(()),
    }
}
