//! Writes a run: its entries, and the state.
ghost use Rattle.std.specs.Fmt.{decimal};
ghost use Rattle.std.specs.Prelude.{◌≡◌, ◌++◌, ◌∷◌, [], IfErr, IfOk, OnOk, codes, string_bytes};
ghost use Rattle.tx_lines.specs.Ends.{IsFresh};
ghost use Rattle.tx_state_text.specs.Replies.{reply_text};
ghost use Rattle.tx_workers.specs.RunText.{WritesText, entry_line, numbered, run_line, run_text};
ghost use Rattle.tx_lines.specs.declared.faults.Fault.TheVariants.{NoMemory};

use std::alloc::{AllocError, Global};
use tx_base::{Reply, Step};
use tx_journal::{Session, put_state};
use tx_lines::{Fault, Sink, put, put_count, put_count_first, put_step, write_whole};
use tx_state_text::put_reply;

/// Writes the entries of a session, a line each with its worker, its step and its reply, and the
/// state at the position. Nothing is written where the fault is `NoMemory`; the only other one is
/// `Writer`.
pub fn write_run<W: Sink>(alloc: Global, session: &Session, sink: &mut W) -> Result<(), Fault>
    requires { IsFresh (W.counts sink.old) }
    ensures { WritesText (W.written sink.old) (W.counts sink.old) (run_text session.now) result
        (W.written sink.new) (W.counts sink.new) }
{
    let text = run_text(alloc, session)?;
    write_whole(sink, text.as_bytes())
}

/// The text of a run. The only fault is `NoMemory`.
fn run_text(alloc: Global, session: &Session) -> Result<String, Fault>
    ensures text { IfOk result (λ text. string_bytes text ≡ run_text session.now) }
    ensures fault { IfErr result (λ fault. fault ≡ NoMemory) }
{
    let mut text = String::new(alloc);
    put_entries(&mut text, session)?;
    put_state(&mut text, session.machine())?;
    Ok(text)
}

/// Appends the lines of all entries.
fn put_entries(text: &mut String, session: &Session) -> Result<(), AllocError>
    ensures { OnOk result
        (string_bytes text.new ≡ string_bytes text.old
        ++ numbered entry_line 1 session.now.entries) }
{
    for i in 0..session.len() {
        if let Some(entry) = session.entry(i + 1) {
            put_run_line(text, i as u64 + 1, entry.worker, &entry.step, &entry.reply)?;
        }
    }
    Ok(())
}

/// Appends the line of a step that a worker made.
fn put_run_line(
    text: &mut String,
    number: u64,
    worker: u16,
    step: &Step,
    reply: &Reply,
) -> Result<(), AllocError>
    ensures { OnOk result
        (string_bytes text.new ≡ string_bytes text.old
        ++ run_line number worker step.now reply.now) }
{
    put_count(text, number)?;
    put_worker(text, worker)?;
    put_step(text, step)?;
    put_answer(text, reply)
}

/// Appends a reply to the end of its line. That of most steps is one push.
fn put_answer(text: &mut String, reply: &Reply) -> Result<(), AllocError>
    ensures { OnOk result
        (string_bytes text.new ≡ string_bytes text.old
        ++ (codes " : " ++ (reply_text reply.now ++ 10 ∷ []))) }
{
    if let Reply::Done(ret) = reply {
        if *ret == 0 {
            return put(text, " : ok 0\n");
        }
    }
    put(text, " : ")?;
    put_reply(text, reply)?;
    put(text, "\n")
}

/// Appends a worker's number between spaces. The numbers of most runs have words of their own: any
/// other is made digit by digit, on each line.
fn put_worker(text: &mut String, worker: u16) -> Result<(), AllocError>
    ensures { OnOk result
        (string_bytes text.new ≡ string_bytes text.old
        ++ (codes " w" ++ (decimal worker ++ 32 ∷ []))) }
{
    match worker {
        1 => put(text, " w1 "),
        2 => put(text, " w2 "),
        3 => put(text, " w3 "),
        4 => put(text, " w4 "),
        _ => {
            put(text, " w")?;
            put_count_first(text, u64::from(worker))
        }
    }
}
