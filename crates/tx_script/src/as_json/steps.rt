//! Makes the steps of a schedule, and answers a line of JSON for each.
ghost use Rattle.std.specs.Prelude.{◌≡◌, ◌++◌, IfErr, IfOk, OnOk, string_bytes};
ghost use Rattle.tx_journal.specs.Entries.{history_of};
ghost use Rattle.tx_journal.specs.Sessions.{start_of, IsAtEnd, SameBoot};
ghost use Rattle.tx_json.specs.Answers.{step_answer};
ghost use Rattle.tx_lines.specs.Lines.{FitsHeader};
ghost use Rattle.tx_lines.specs.declared.faults.Fault.TheVariants.{NoMemory};
ghost use Rattle.tx_model.specs.Schedules.{history_of as history_after};
ghost use Rattle.tx_script.specs.JsonLines.{line_of, schedule_lines, step_lines, text_of};

use crate::as_json::responses::put_line;
use crate::made::make_step;
use crate::responses::Response;
use std::alloc::Global;
use tx_base::{Reply, Step};
use tx_journal::Session;
use tx_json::put_step_answer;
use tx_lines::{Fault, Schedule, put};

/// A line for the reply to each step of a schedule, and one for the state after the last. The only
/// fault is `NoMemory`.
pub fn schedule_lines(alloc: Global, schedule: Schedule) -> Result<String, Fault>
    requires { FitsHeader schedule.header }
    ensures text { IfOk result (λ text. string_bytes text
        ≡ text_of (schedule_lines schedule.header schedule.steps.items)) }
    ensures fault { IfErr result (λ fault. fault ≡ NoMemory) }
{
    let Schedule { header, mut steps } = schedule;
    let mut session = Session::boot_by(alloc, header)?;
    session.reserve(steps.len())?;
    let mut text = String::new(alloc);
    put_replies(alloc, &mut text, &mut session, steps.as_mut_slice())?;
    put_line(alloc, &mut text, &session, &Response::State)?;
    Ok(text)
}

/// Makes the steps at the end of the journal, moves those there that are accepted, and appends the
/// line of each reply.
fn put_replies(
    alloc: Global,
    text: &mut String,
    session: &mut Session,
    steps: &mut [Step],
) -> Result<(), Fault>
    requires { IsAtEnd session.old }
    ensures text { OnOk result (string_bytes text.new ≡ string_bytes text.old
        ++ text_of (step_lines (start_of session.old) (history_of session.old.entries) steps.old)) }
    ensures history { OnOk result (history_of session.new.entries
        ≡ history_after (start_of session.old) (history_of session.old.entries) steps.old) }
    ensures boot { SameBoot session.new session.old }
    ensures at_end { IsAtEnd session.new }
    ensures fault { IfErr result (λ fault. fault ≡ NoMemory) }
{
    let mut reply = Reply::Ended;
    let mut line = String::new(alloc);
    for i in 0..steps.len() {
        make_step(alloc, session, &mut steps[i], &mut reply)?;
        put_reply(alloc, text, &mut line, session.len(), &reply)?;
    }
    Ok(())
}

/// Appends the line of a reply, after so many steps that were accepted. It is made in the room of
/// the line before.
fn put_reply(
    alloc: Global,
    text: &mut String,
    line: &mut String,
    count: usize,
    reply: &Reply,
) -> Result<(), Fault>
    ensures text { OnOk result (string_bytes text.new
        ≡ string_bytes text.old ++ line_of (step_answer count reply.now)) }
    ensures fault { IfErr result (λ fault. fault ≡ NoMemory) }
{
    put_step_answer(alloc, line, count, reply)?;
    put(text, line.as_str())?;
    Ok(())
}
