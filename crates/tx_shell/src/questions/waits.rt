//! Reports what a step waits for.
ghost use Rattle.std.specs.Prelude.{◌≡◌, ◌++◌, ◌<◌, OnOk, option_map, string_bytes};
ghost use Rattle.tx_journal.specs.Entries.{history_of};
ghost use Rattle.tx_journal.specs.Sessions.{made_of, start_of};
ghost use Rattle.tx_model.specs.Footprints.{footprint};
ghost use Rattle.tx_model.specs.View.{present};
ghost use Rattle.tx_reserve.specs.Footprints.{IsSetOf};
ghost use Rattle.tx_waits.specs.Holders.{other_holders};
ghost use Rattle.tx_waits.specs.Kinds.{limit_of};
ghost use Rattle.tx_shell.specs.Names.{named};
ghost use Rattle.tx_shell.specs.Places.{view_at};
ghost use Rattle.tx_desc.specs.Descriptions.{end_for};
ghost use Rattle.tx_shell.specs.Reasons.{open_by, pipe_line, pipe_lines, waited_text};
ghost use Rattle.tx_waits.specs.declared.kinds.Kind.TheVariants.{Pipes};

use crate::names::{Names, Suffix};
use crate::questions::blockers::names as objects_named;
use crate::questions::holders::put_holders;
use std::alloc::AllocError;
use std::fmt::Write;
use tx_base::{Call, Step};
use tx_desc::Side;
use tx_journal::Session;
use tx_json::Holder;
use tx_reserve::Objects;
use tx_waits::Kind;

/// Appends the line of what a step waits for: a child's end, a byte in a pipe, or room in one for
/// all its bytes. Nothing for a step that never waits.
///
/// Then who has the other side of the pipe open, and could end the wait.
///
/// NoMemory where a growth is refused; a part of the lines may then be at the end of the text.
pub fn put_waited(
    text: &mut String,
    session: &Session,
    names: Names<'_>,
    step: &Step,
    holders: &Option<Vec<Holder>>,
) -> Result<(), AllocError>
    requires { option_map (λ held. held.items) holders.now
        ≡ other_holders (view_at session.now) step.now }
    ensures { OnOk result (string_bytes text.new ≡ string_bytes text.old
        ++ waited_text (named names.entry) (start_of session.now) (history_of (made_of session.now))
        step.now) }
{
    match step {
        Step::Call(_, Call::Waitpid(child, _)) => {
            let name = Suffix(names.of_computed(*child));
            write!(text, "proc {child}{name} has not ended\n")
        }
        Step::Call(_, Call::Read(..)) => {
            put_pipes(text, session, step, " has no byte\n")?;
            put_open(text, names, Side::Write, holders)
        }
        Step::Call(_, Call::Write(..)) => {
            put_pipes(text, session, step, " has too little room\n")?;
            put_open(text, names, Side::Read, holders)
        }
        _ => Ok(()),
    }
}

/// Appends the line of who has that side of the pipe open, where it is asked.
fn put_open(
    text: &mut String,
    names: Names<'_>,
    side: Side,
    holders: &Option<Vec<Holder>>,
) -> Result<(), AllocError>
    ensures { OnOk result (string_bytes text.new ≡ string_bytes text.old
        ++ open_by (named names.entry) (end_for side)
        (option_map (λ held. held.items) holders.now)) }
{
    match holders {
        Some(holders) => put_holders(text, names, side, holders.as_slice()),
        None => Ok(()),
    }
}

/// Appends a line for each pipe that a step names, and why it waits for that.
fn put_pipes(text: &mut String, session: &Session, step: &Step, why: &str) -> Result<(), AllocError>
    ensures { OnOk result (string_bytes text.new ≡ string_bytes text.old
        ++ pipe_lines (start_of session.now) (history_of (made_of session.now)) step.now why.now) }
{
    let named = objects_named(session, step);
    for number in 0..Kind::Pipes.limit() {
        put_pipe(text, session, step, &named, number, why)?;
    }
    Ok(())
}

/// Appends the line of the pipe of a number, where the step names it.
fn put_pipe(
    text: &mut String,
    session: &Session,
    step: &Step,
    names: &Objects,
    number: u16,
    why: &str,
) -> Result<(), AllocError>
    requires number { number < limit_of Pipes }
    requires names { IsSetOf names.now (footprint (view_at session.now).table step.now
        (present (view_at session.now))) }
    ensures { OnOk result (string_bytes text.new ≡ string_bytes text.old
        ++ pipe_line (start_of session.now) (history_of (made_of session.now)) step.now why.now
        number) }
{
    if !names.has(Kind::Pipes.object(number)) {
        return Ok(());
    }
    write!(text, "{}{number}{why}", Kind::Pipes.word())
}
