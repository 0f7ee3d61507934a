//! Makes the steps of a schedule, and does what commands say, one after another.
ghost use Rattle.std.specs.Prelude.{◌≡◌, ◌++◌, IfErr, IfOk, OnOk, string_bytes};
ghost use Rattle.tx_journal.specs.Entries.{history_of};
ghost use Rattle.tx_journal.specs.Sessions.{position_of, start_of, SameJournal};
ghost use Rattle.tx_lines.specs.Lines.{FitsHeader};
ghost use Rattle.tx_lines.specs.declared.faults.Fault.TheVariants.{NoMemory};
ghost use Rattle.tx_script.specs.Debug.{answers_at, position_after, walk_answers};
ghost use Rattle.tx_script.specs.JsonLines.{written_in};

use crate::as_json::put_line;
use crate::forms::Form;
use crate::made::walked;
use crate::responses::put_response;
use crate::walks::walk;
use std::alloc::Global;
use tx_journal::Session;
use tx_lines::{Command, Fault, Walk};

/// What the commands answer in turn, in that form, once the steps of the schedule are made. The
/// only fault is `NoMemory`.
pub fn answer_walk(alloc: Global, form: Form, walk: Walk) -> Result<String, Fault>
    requires { FitsHeader walk.schedule.header }
    ensures text { IfOk result (λ text. string_bytes text
        ≡ walk_answers (written_in form) walk.schedule.header walk.schedule.steps.items
        walk.commands.items) }
    ensures fault { IfErr result (λ fault. fault ≡ NoMemory) }
{
    let Walk { schedule, commands } = walk;
    let mut session = walked(alloc, schedule)?;
    let mut text = String::new(alloc);
    put_answers(alloc, form, &mut text, &mut session, commands.as_slice())?;
    Ok(text)
}

/// Appends what the commands answer in turn.
fn put_answers(
    alloc: Global,
    form: Form,
    text: &mut String,
    session: &mut Session,
    commands: &[Command],
) -> Result<(), Fault>
    ensures text { OnOk result (string_bytes text.new ≡ string_bytes text.old
        ++ answers_at (written_in form) (start_of session.old) (history_of session.old.entries)
        (position_of session.old) commands.now) }
    ensures fault { IfErr result (λ fault. fault ≡ NoMemory) }
{
    for command in commands {
        put_in(alloc, form, text, session, *command)?;
    }
    Ok(())
}

/// Does what a command says, and appends what it answers.
fn put_in(
    alloc: Global,
    form: Form,
    text: &mut String,
    session: &mut Session,
    command: Command,
) -> Result<(), Fault>
    ensures text { OnOk result (string_bytes text.new ≡ string_bytes text.old
        ++ written_in form (start_of session.old) (history_of session.old.entries)
        (position_of session.old) command) }
    ensures moved { OnOk result (position_of session.new
        ≡ position_after (history_of session.old.entries) (position_of session.old) command) }
    ensures journal { SameJournal session.new session.old }
    ensures fault { IfErr result (λ fault. fault ≡ NoMemory) }
{
    let response = walk(alloc, session, command)?;
    match form {
        Form::Text => put_response(text, session, &response)?,
        Form::Json => put_line(alloc, text, session, &response)?,
    }
    Ok(())
}
