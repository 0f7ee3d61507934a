//! Prints an answer as a line of JSON.
ghost use Rattle.std.specs.Prelude.{◌≡◌, ◌++◌, [], IfOk, OnOk, if◌then◌else◌, option_map, string_bytes};
ghost use Rattle.tx_journal.specs.Entries.{history_of};
ghost use Rattle.tx_journal.specs.Sessions.{made_of, position_of, start_of};
ghost use Rattle.tx_json.specs.Holders.{holders_members};
ghost use Rattle.tx_shell.specs.Attempts.{child_member};
ghost use Rattle.tx_shell.specs.Members.{why_members};
ghost use Rattle.tx_shell.specs.Names.{named, names_member};
ghost use Rattle.tx_shell.specs.Places.{origin_of, place_of};
ghost use Rattle.tx_shell.specs.Forms.{answer_members, shows_names, IsPlaced, SaysJson, SaysLines};

mod blockers;
mod changes;
mod compared;
mod held;
mod names;
mod owners;
mod steps;

use crate::answers::answer::Answer;
use crate::answers::as_json::blockers::put_blockers;
use crate::answers::as_json::changes::put_change;
use crate::answers::as_json::compared::{put_compared, put_not_compared};
use crate::answers::as_json::held::{put_desc, put_pipe};
use crate::answers::as_json::names::put_names;
use crate::answers::as_json::owners::{put_owner_alone, put_owners};
use crate::answers::as_json::steps::put_steps;
use crate::answers::as_text::answer_text;
use crate::lines::versions::TextVersion;
use crate::names::Names;
use crate::questions::attempts::Attempt;
use crate::questions::reasons::reason_of;
use std::alloc::{AllocError, Global};
use tx_base::{NoMemory, Pid, Reply, Step};
use tx_journal::Session;
use tx_json::{
    Holder, LineWriter, begin_lines, begin_object, end_answer, end_object, position_answer,
    put_count, put_holders, put_key, put_null, put_reply, put_word, trial_answer,
};
use tx_lines::put_step;
use tx_script::response_line;

/// The line of an answer.
///
/// NoMemory where a growth is refused.
pub fn answer_line(
    alloc: Global,
    version: TextVersion,
    session: &Session,
    names: Names<'_>,
    answer: &Answer,
) -> Result<String, NoMemory>
    requires { IsPlaced (position_of session.now) answer.now }
    ensures { IfOk result (λ text. SaysJson (origin_of version session.now)
        (named names.entry) (history_of (made_of session.now)) (place_of session.now) answer.now
        (string_bytes text)) }
{
    let position = session.position();
    match answer {
        Answer::Walked(response) => response_line(alloc, session, response),
        Answer::Position => position_answer(alloc, position),
        Answer::Trial(reply, lines) => trial_answer(alloc, position, reply, lines.as_str()),
        Answer::Steps(..)
        | Answer::Schedule
        | Answer::Diff(..)
        | Answer::Without(..)
        | Answer::Change(_)
        | Answer::Why(..)
        | Answer::NothingRefused
        | Answer::Owners
        | Answer::OwnersOf(_)
        | Answer::PipeHolders(_)
        | Answer::DescHolders(_)
        | Answer::Page(_) => with_lines(alloc, version, session, names, answer),
    }
}

/// The position, the lines of an answer's text, and what else JSON has of it.
fn with_lines(
    alloc: Global,
    version: TextVersion,
    session: &Session,
    names: Names<'_>,
    answer: &Answer,
) -> Result<String, NoMemory>
    requires { IsPlaced (position_of session.now) answer.now }
    ensures { IfOk result (λ text. SaysLines (origin_of version session.now)
        (named names.entry) (history_of (made_of session.now)) (place_of session.now) answer.now
        (string_bytes text)) }
{
    let report = answer_text(alloc, version, session, names, answer)?;
    let mut writer = begin_lines(alloc, session.position(), report.as_str())?;
    put_members(alloc, &mut writer, session, answer)?;
    put_names_of(&mut writer, names, answer)?;
    end_answer(writer)
}

/// Appends the names of processes, where an answer shows them.
fn put_names_of(
    writer: &mut LineWriter,
    names: Names<'_>,
    answer: &Answer,
) -> Result<(), AllocError>
    ensures { OnOk result (writer.new ≡ writer.old
        ++ (if shows_names answer.now then names_member (named names.entry) else [])) }
{
    if answer.shows_names() {
        return put_names(writer, names);
    }
    Ok(())
}

/// Appends what JSON has of an answer after the lines of its text, and before the names of
/// processes.
fn put_members(
    alloc: Global,
    writer: &mut LineWriter,
    session: &Session,
    answer: &Answer,
) -> Result<(), AllocError>
    requires { IsPlaced (position_of session.now) answer.now }
    ensures { OnOk result (writer.new ≡ writer.old ++ answer_members (start_of session.now)
        (history_of (made_of session.now)) (place_of session.now) answer.now) }
{
    match answer {
        Answer::Steps(first, last) => put_steps(alloc, writer, session, *first, *last),
        Answer::Diff(from, to, Some(_lines)) => put_compared(writer, *from, *to),
        Answer::Diff(_, _, None) => put_not_compared(writer),
        Answer::Without(starter, Some(_lines)) => {
            put_count(writer, "transaction", u64::from(*starter))
        }
        Answer::Without(_, None) => put_null(writer, "transaction"),
        Answer::Change(found) => put_change(alloc, writer, session, found),
        Answer::Why(step, reply, attempt) => {
            put_why(alloc, writer, session, step, reply)?;
            put_child(alloc, writer, session, attempt)
        }
        Answer::Owners => put_owners(writer, session.machine()),
        Answer::OwnersOf(starter) => put_owner_alone(writer, session.machine(), Pid(*starter)),
        Answer::PipeHolders(found) => put_pipe(writer, found),
        Answer::DescHolders(found) => put_desc(writer, found),
        Answer::Walked(_)
        | Answer::Position
        | Answer::Schedule
        | Answer::Trial(..)
        | Answer::NothingRefused
        | Answer::Page(_) => Ok(()),
    }
}

/// Appends the reply that a step would get, what is in its way, and who could end its wait.
fn put_why(
    alloc: Global,
    writer: &mut LineWriter,
    session: &Session,
    step: &Step,
    reply: &Reply,
) -> Result<(), AllocError>
    ensures { OnOk result (writer.new ≡ writer.old ++ why_members (start_of session.now)
        (history_of (made_of session.now)) step.now reply.now) }
{
    let reason = reason_of(alloc, session, step, reply)?;
    put_reply(alloc, writer, reply)?;
    put_blockers(alloc, writer, reason.blockers.as_slice())?;
    put_awaited(writer, &reason.holders)
}

/// Appends the last step of the child that a process waits for, where it was refused, and what it
/// would get, as of the step that is asked about.
fn put_child(
    alloc: Global,
    writer: &mut LineWriter,
    session: &Session,
    attempt: &Option<Attempt>,
) -> Result<(), AllocError>
    ensures { OnOk result (writer.new ≡ writer.old ++ child_member (start_of session.now)
        (history_of (made_of session.now)) attempt.now) }
{
    let Some(attempt) = attempt else {
        return Ok(());
    };
    let mut step = String::new(alloc);
    put_step(&mut step, &attempt.step)?;
    put_key(writer, "child")?;
    begin_object(writer)?;
    put_word(writer, "step", step.as_str())?;
    put_why(alloc, writer, session, &attempt.step, &attempt.reply)?;
    end_object(writer)
}

/// Appends who could end a wait, where it is one for a pipe.
fn put_awaited(writer: &mut LineWriter, holders: &Option<Vec<Holder>>) -> Result<(), AllocError>
    ensures { OnOk result (writer.new ≡ writer.old
        ++ holders_members (option_map (λ held. held.items) holders.now)) }
{
    match holders {
        Some(holders) => put_holders(writer, Some(holders.as_slice())),
        None => Ok(()),
    }
}
