//! Reports which signals of a step have two answers: one now, and another if a transaction were
//! aborted.
ghost use Rattle.std.specs.Prelude.{◌≡◌, ◌++◌, OnOk, string_bytes};
ghost use Rattle.tx_journal.specs.Entries.{history_of};
ghost use Rattle.tx_journal.specs.Sessions.{made_of, start_of};
ghost use Rattle.tx_shell.specs.Names.{named};
ghost use Rattle.tx_shell.specs.Places.{view_at};
ghost use Rattle.tx_shell.specs.Reasons.{named_text, signal_line, signal_lines, twice_line};
ghost use Rattle.tx_step.specs.TwoAnswers.{two_answers};

use crate::names::{Names, Suffix};
use std::alloc::AllocError;
use std::fmt::Write;
use tx_base::{Pid, Step};
use tx_journal::Session;
use tx_lines::put;
use tx_state_text::error_name;
use tx_step::TwoAnswers;
use tx_waits::Kind;

/// Appends a line for each starter of another's live transaction at which a signal of the step has
/// two answers, by rising starters: the first such signal, how it would be answered now, and how
/// after an abort.
///
/// NoMemory where a growth is refused; some of the lines may then be after the text.
pub fn put_signals(
    text: &mut String,
    session: &Session,
    names: Names<'_>,
    step: &Step,
) -> Result<(), AllocError>
    ensures { OnOk result (string_bytes text.new ≡ string_bytes text.old
        ++ signal_lines (named names.entry) (start_of session.now)
        (history_of (made_of session.now))
        step.now) }
{
    for number in 0..Kind::Processes.limit() {
        put_signal(text, session, names, step, Pid(number))?;
    }
    Ok(())
}

/// Appends the line of a starter, where it is one.
fn put_signal(
    text: &mut String,
    session: &Session,
    names: Names<'_>,
    step: &Step,
    starter: Pid,
) -> Result<(), AllocError>
    ensures { OnOk result (string_bytes text.new ≡ string_bytes text.old
        ++ signal_line (named names.entry) (start_of session.now) (history_of (made_of session.now))
        step.now starter.0) }
{
    match two_answers(session, step, starter) {
        Some(answers) => put_twice(text, names, starter, answers),
        None => Ok(()),
    }
}

/// The first signal of a step to a starter that has two answers.
fn two_answers(session: &Session, step: &Step, starter: Pid) -> Option<TwoAnswers>
    ensures { result ≡ two_answers (view_at session.now) step.now starter.0 }
{
    session.machine().two_answers(step, starter)
}

/// Appends the line of a signal to a starter that has two answers.
fn put_twice(
    text: &mut String,
    names: Names<'_>,
    starter: Pid,
    answers: TwoAnswers,
) -> Result<(), AllocError>
    ensures { OnOk result (string_bytes text.new
        ≡ string_bytes text.old ++ twice_line (named names.entry) starter.0 answers) }
{
    let name = Suffix(names.of(starter.0));
    write!(
        text,
        "signal {} to {}{name}: it would be answered ",
        answers.signo.0, starter.0
    )?;
    put_named(text, answers.present)?;
    put(text, " now, and ")?;
    put_named(text, answers.after_abort)?;
    write!(
        text,
        " if the transaction of {}{name} were aborted\n",
        starter.0
    )
}

/// Appends what is answered, with the name of an error.
fn put_named(text: &mut String, answer: i64) -> Result<(), AllocError>
    ensures { OnOk result
        (string_bytes text.new ≡ string_bytes text.old ++ named_text answer) }
{
    match error_name(answer) {
        Some(name) => write!(text, "{answer} {name}"),
        None => write!(text, "{answer}"),
    }
}
