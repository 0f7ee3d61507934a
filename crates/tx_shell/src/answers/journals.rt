//! Prints the steps of a session: as a list, and as the schedule that makes them again.
ghost use Rattle.std.specs.Prelude.{◌≡◌, ◌++◌, ◌∷◌, [], IfOk, OnOk, length, map, string_bytes};
ghost use Rattle.tx_journal.specs.Entries.{accepted_of, history_of};
ghost use Rattle.tx_journal.specs.Sessions.{made_of, position_of, start_of};
ghost use Rattle.tx_lines.specs.Lines.{header_text};
ghost use Rattle.tx_lines.specs.Schedule.{steps_text};
ghost use Rattle.tx_lines.specs.declared.read.header.TextKind.TheVariants.{Schedule};
ghost use Rattle.tx_model.specs.Schedules.{history_of as history_after};
ghost use Rattle.tx_script.specs.Debug.{first_steps, position_text};
ghost use Rattle.tx_shell.specs.Journals.{by_number, listed_between, mark_at, mark_before, or_no_steps};
ghost use Rattle.tx_shell.specs.Journals.{schedule_so_far, steps_listed, steps_made, steps_of};
ghost use Rattle.tx_shell.specs.Places.{origin_of, place_of};
ghost use Rattle.tx_shell.specs.Origins.{grammar_of};

use crate::lines::versions::TextVersion;
use std::alloc::{AllocError, Global};
use std::fmt::Write;
use tx_base::NoMemory;
use tx_journal::{Entry, Session};
use tx_lines::{Version, put, put_step};
use tx_state_text::put_named_reply;

/// The steps of those numbers, a line each with its number, its worker and its reply, and the
/// position where it is among them. Where none is among them, how many steps there are.
///
/// NoMemory where a growth is refused.
pub fn list_steps(
    alloc: Global,
    session: &Session,
    first: u64,
    last: u64,
) -> Result<String, NoMemory>
    ensures { IfOk result (λ text.
        string_bytes text ≡ steps_listed (place_of session.now) first last) }
{
    let position = session.position() as u64;
    let mut text = String::new(alloc);
    put_mark_before(&mut text, position, first)?;
    put_entries(&mut text, session.entries(), position, first, last)?;
    or_no_steps(alloc, session.entries(), text)
}

/// The lines, or how many entries there are where there is no line.
fn or_no_steps(alloc: Global, entries: &[Entry], lines: String) -> Result<String, NoMemory>
    ensures { IfOk result (λ text.
        string_bytes text ≡ or_no_steps (length entries.now) (string_bytes lines)) }
{
    if lines.is_empty() {
        return Ok(format!(in alloc; "no such steps: there are {}\n", entries.len())?);
    }
    Ok(lines)
}

/// Appends the position where it is the one before the first step, and that one is listed.
fn put_mark_before(text: &mut String, position: u64, first: u64) -> Result<(), AllocError>
    ensures { OnOk result
        (string_bytes text.new ≡ string_bytes text.old ++ mark_before position first) }
{
    if first <= 1 {
        return put_mark(text, position, 0);
    }
    Ok(())
}

/// Appends the position, where that number is it.
fn put_mark(text: &mut String, position: u64, number: u64) -> Result<(), AllocError>
    ensures { OnOk result
        (string_bytes text.new ≡ string_bytes text.old ++ mark_at position number) }
{
    if position == number {
        return write!(text, "at {position}\n");
    }
    Ok(())
}

/// The line of a position.
///
/// NoMemory where a growth is refused.
pub fn position_line(alloc: Global, position: usize) -> Result<String, NoMemory>
    ensures { IfOk result (λ text. string_bytes text ≡ position_text position) }
{
    Ok(format!(in alloc; "at {position}\n")?)
}

/// Appends what is listed of entries, of which the first has number 1.
fn put_entries(
    text: &mut String,
    entries: &[Entry],
    position: u64,
    first: u64,
    last: u64,
) -> Result<(), AllocError>
    ensures { OnOk result (string_bytes text.new ≡ string_bytes text.old
        ++ by_number (listed_between position first last) 1 (map accepted_of entries.now)) }
{
    for i in 0..entries.len() {
        put_listed(text, position, first, last, i as u64 + 1, &entries[i])?;
    }
    Ok(())
}

/// Appends the line of an entry and the position after it, where it is one of those.
fn put_listed(
    text: &mut String,
    position: u64,
    first: u64,
    last: u64,
    number: u64,
    entry: &Entry,
) -> Result<(), AllocError>
    ensures { OnOk result (string_bytes text.new ≡ string_bytes text.old
        ++ listed_between position first last number (accepted_of entry.now)) }
{
    if first <= number && number <= last {
        write!(text, "{number} w1 ")?;
        put_step(text, &entry.step)?;
        put(text, " : ")?;
        put_named_reply(text, &entry.reply)?;
        put(text, "\n")?;
        return put_mark(text, position, number);
    }
    Ok(())
}

/// The text of the schedule that makes the steps up to the position.
///
/// NoMemory where a growth is refused.
pub fn print_schedule(
    alloc: Global,
    version: TextVersion,
    session: &Session,
) -> Result<String, NoMemory>
    ensures text { IfOk result (λ text. string_bytes text
        ≡ schedule_so_far (origin_of version session.now) (place_of session.now)) }
    ensures leads { OnOk result
        (history_after (start_of session.now) [] (steps_made (place_of session.now))
        ≡ first_steps (position_of session.now) (history_of session.now.entries)) }
{
    session.is_lawful();
    let mut text = String::new(alloc);
    put_header(&mut text, version, session.count())?;
    put_steps(&mut text, entries_made(session))?;
    Ok(text)
}

/// The entries that are made.
fn entries_made(session: &Session) -> &[Entry]
    ensures { result.now ≡ made_of session.now }
{
    &session.entries()[..session.position()]
}

/// Appends the first line of a schedule.
fn put_header(text: &mut String, version: TextVersion, count: u16) -> Result<(), AllocError>
    ensures { OnOk result (string_bytes text.new ≡ string_bytes text.old
        ++ (header_text Schedule (record { version = grammar_of version; count = count })
        ++ 10 ∷ [])) }
{
    match version.grammar() {
        Version::One => write!(text, "txos 1 schedule {count}\n"),
        Version::Two => write!(text, "txos 2 schedule {count}\n"),
    }
}

/// Appends the steps of entries, a line each.
fn put_steps(text: &mut String, entries: &[Entry]) -> Result<(), AllocError>
    ensures { OnOk result
        (string_bytes text.new ≡ string_bytes text.old ++ steps_text (steps_of entries.now)) }
{
    for entry in entries {
        put_step(text, &entry.step)?;
        put(text, "\n")?;
    }
    Ok(())
}
