//! Runs a program, and writes what the run did.
ghost use Rattle.tx_lines.specs.Ends.{IsFresh};
ghost use Rattle.tx_workers.specs.RunText.{WritesText};
ghost use Rattle.tx_workers.specs.Texts.{RunsText};
ghost use Rattle.txos.specs.RunReports.{report_in};

use crate::words::Crew;
use std::alloc::Global;
use std::mem;
use std::sync::Wait;
use std::thread::Threads;
use tx_journal::Session;
use tx_lines::{Fault, Sink, Source, write_whole};
use tx_script::{Form, run_lines};
use tx_workers::{RunFault, run_from, write_run};

/// Reads the text of a program to its end, runs it from its start by workers, and writes the run:
/// its text, or its lines of JSON. Where the fault is not `Writer` nothing is written. A text that
/// is no program is reported as by `read_program`, a run that gives nothing back as by
/// `run_workers`.
pub fn answer_run<R, S, W>(
    rt: &R,
    alloc: Global,
    source: &mut S,
    sink: &mut W,
    crew: Crew,
    form: Form,
) -> Result<(), RunFault>
where
    R: Threads + Wait + Sync,
    S: Source,
    W: Sink,
    requires source { IsFresh (S.counts source.old) }
    requires sink { IsFresh (W.counts sink.old) }
    ensures { RunsText (report_in form) (S.left source.old) (S.counts source.old)
        (W.written sink.old) (W.counts sink.old) crew.workers crew.turns result
        (S.counts source.new) (W.written sink.new) (W.counts sink.new) }
{
    let session = run_from(rt, alloc, source, crew.workers, crew.turns)?;
    let written = write_in(alloc, form, &session, sink);
    // The program ends with the run, and the system takes back at once what the turns left.
    mem::forget(session);
    match written {
        Ok(()) => Ok(()),
        Err(fault) => Err(RunFault::Text(fault)),
    }
}

/// Writes the report of a session in that form. Nothing is written where the fault is `NoMemory`;
/// the only other one is `Writer`.
fn write_in<W: Sink>(
    alloc: Global,
    form: Form,
    session: &Session,
    sink: &mut W,
) -> Result<(), Fault>
    requires { IsFresh (W.counts sink.old) }
    ensures { WritesText (W.written sink.old) (W.counts sink.old) (report_in form session.now)
        result
        (W.written sink.new) (W.counts sink.new) }
{
    match form {
        Form::Text => write_run(alloc, session, sink),
        Form::Json => {
            let lines = run_lines(alloc, session)?;
            write_whole(sink, lines.as_bytes())
        }
    }
}
