//! Prints what a run did, and the state that it left, as lines of JSON.
ghost use Rattle.std.specs.Prelude.{◌≡◌, ◌++◌, IfErr, IfOk, OnOk, string_bytes};
ghost use Rattle.tx_lines.specs.declared.faults.Fault.TheVariants.{NoMemory};
ghost use Rattle.tx_script.specs.JsonLines.{line_of, text_of};
ghost use Rattle.tx_script.specs.JsonRuns.{entry_line, entry_lines, run_lines};

use crate::as_json::responses::put_line;
use crate::responses::Response;
use std::alloc::Global;
use tx_journal::{Entry, Session};
use tx_json::entry_answer;
use tx_lines::{Fault, put, put_step};

/// What a session holds of a run, a line of JSON each: every entry with its number, its worker,
/// its step and its reply, and then the state at the position, as a shell answers `state`. The
/// only fault is `NoMemory`.
pub fn run_lines(alloc: Global, session: &Session) -> Result<String, Fault>
    ensures text { IfOk result (λ text. string_bytes text ≡ text_of (run_lines session.now)) }
    ensures fault { IfErr result (λ fault. fault ≡ NoMemory) }
{
    let mut text = String::new(alloc);
    put_entries(alloc, &mut text, session.entries())?;
    put_line(alloc, &mut text, session, &Response::State)?;
    Ok(text)
}

/// Appends the lines of entries, of which the first has the number 1.
fn put_entries(alloc: Global, text: &mut String, entries: &[Entry]) -> Result<(), Fault>
    ensures text { OnOk result (string_bytes text.new
        ≡ string_bytes text.old ++ text_of (entry_lines 1 entries.now)) }
    ensures fault { IfErr result (λ fault. fault ≡ NoMemory) }
{
    for i in 0..entries.len() {
        put_entry(alloc, text, i + 1, &entries[i])?;
    }
    Ok(())
}

/// Appends the line of an entry of that number.
fn put_entry(alloc: Global, text: &mut String, number: usize, entry: &Entry) -> Result<(), Fault>
    ensures text { OnOk result (string_bytes text.new
        ≡ string_bytes text.old ++ line_of (entry_line number entry.now)) }
    ensures fault { IfErr result (λ fault. fault ≡ NoMemory) }
{
    let mut step = String::new(alloc);
    put_step(&mut step, &entry.step)?;
    let line = entry_answer(alloc, number, entry.worker, step.as_str(), &entry.reply)?;
    put(text, line.as_str())?;
    Ok(())
}
