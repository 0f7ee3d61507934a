//! Lists steps as JSON.
ghost use Rattle.std.specs.Prelude.{◌≡◌, ◌++◌, OnOk, map};
ghost use Rattle.tx_journal.specs.Entries.{accepted_of};
ghost use Rattle.tx_shell.specs.Journals.{by_number};
ghost use Rattle.tx_shell.specs.Members.{steps_member, step_tokens, tokens_between};
ghost use Rattle.tx_shell.specs.Places.{place_of};

use std::alloc::{AllocError, Global};
use tx_journal::{Entry, Session};
use tx_json::{LineWriter, begin_list, end_list, put_entry};
use tx_lines::put_step;
use tx_script::WORKER;

/// Appends the steps of those numbers, as a list.
pub fn put_steps(
    alloc: Global,
    writer: &mut LineWriter,
    session: &Session,
    first: u64,
    last: u64,
) -> Result<(), AllocError>
    ensures { OnOk result
        (writer.new ≡ writer.old ++ steps_member (place_of session.now) first last) }
{
    begin_list(writer, "steps")?;
    put_entries(alloc, writer, session.entries(), first, last)?;
    end_list(writer)
}

/// Appends the entries of those numbers, of which the first has number 1.
fn put_entries(
    alloc: Global,
    writer: &mut LineWriter,
    entries: &[Entry],
    first: u64,
    last: u64,
) -> Result<(), AllocError>
    ensures { OnOk result (writer.new ≡ writer.old
        ++ by_number (tokens_between first last) 1 (map accepted_of entries.now)) }
{
    for i in 0..entries.len() {
        put_listed(alloc, writer, first, last, i + 1, &entries[i])?;
    }
    Ok(())
}

/// Appends an entry, where it has one of those numbers.
fn put_listed(
    alloc: Global,
    writer: &mut LineWriter,
    first: u64,
    last: u64,
    number: usize,
    entry: &Entry,
) -> Result<(), AllocError>
    ensures { OnOk result (writer.new ≡ writer.old
        ++ tokens_between first last number (accepted_of entry.now)) }
{
    if first <= number as u64 && number as u64 <= last {
        return put_made(alloc, writer, number, entry);
    }
    Ok(())
}

/// Appends an entry that has that number.
pub fn put_made(
    alloc: Global,
    writer: &mut LineWriter,
    number: usize,
    entry: &Entry,
) -> Result<(), AllocError>
    ensures { OnOk result
        (writer.new ≡ writer.old ++ step_tokens number (accepted_of entry.now)) }
{
    let mut step = String::new(alloc);
    put_step(&mut step, &entry.step)?;
    put_entry(alloc, writer, number, WORKER, step.as_str(), &entry.reply)
}
