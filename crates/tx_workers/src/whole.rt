//! From the text of a program to the session of its run.
ghost use Rattle.tx_lines.specs.Ends.{IsFresh};
ghost use Rattle.tx_workers.specs.Texts.{RunsFrom};

use crate::faults::WorkFault;
use crate::gate::NoGate;
use crate::run::run_without_notes;
use std::alloc::Global;
use std::sync::Wait;
use std::thread::Threads;
use thiserror::Error;
use tx_journal::Session;
use tx_lines::{Fault, Source};
use tx_translate::read_program;

/// Why no run was written, or not the whole of it. It prints as the fault that it holds.
#[derive(Clone, Copy, PartialEq, Eq, Debug, Error)]
pub enum RunFault {
    /// The program was not read, or its run not written.
    #[error("{0}")]
    Text(Fault),
    /// The workers gave nothing back.
    #[error("{0}")]
    Work(WorkFault),
}

/// Reads the text of a program to its end, and runs it from its start by so many workers, each of
/// which takes so many turns: the session of that run, for its caller to print. No worker makes
/// notes. A text that is no program is reported as by `read_program`, a run that gives nothing back
/// as by `run_workers`; after a fault there is no session.
pub fn run_from<R, S>(
    rt: &R,
    alloc: Global,
    source: &mut S,
    workers: u16,
    turns: u32,
) -> Result<Session, RunFault>
where
    R: Threads + Wait + Sync,
    S: Source,
    requires { IsFresh (S.counts source.old) }
    ensures { RunsFrom (S.left source.old) (S.counts source.old) workers turns result
        (S.counts source.new) }
{
    let program = match read_program(alloc, source) {
        Ok(program) => program,
        Err(fault) => return Err(RunFault::Text(fault)),
    };
    let Ok(session) = Session::boot_by(alloc, program.header) else {
        return Err(RunFault::Work(WorkFault::NoMemory));
    };
    match run_without_notes(rt, alloc, session, &program, workers, turns, &NoGate) {
        Ok(outcome) => Ok(outcome.session),
        Err(fault) => Err(RunFault::Work(fault)),
    }
}
