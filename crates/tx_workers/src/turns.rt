//! Turns: one step for one process.
ghost use Rattle.std.specs.Prelude.{◌≡◌, ◌+◌, ◌≤◌, ◌<◌, ◌++◌, IfOk, OnErr, OnOk, drop, length, map, vec_capacity};
ghost use Rattle.tx_journal.specs.Entries.{accepted_of};
ghost use Rattle.tx_journal.specs.Sessions.{IsAtEnd, start_of};
ghost use Rattle.tx_content.specs.Content.{view_of};
ghost use Rattle.tx_model.specs.Answer.{answer, is_running};
ghost use Rattle.tx_model.specs.View.{present};
ghost use Rattle.tx_workers.specs.Histories.{view_after};
ghost use Rattle.tx_workers.specs.Passes.{Adds, Grows, SameWorker};
ghost use Rattle.tx_workers.specs.declared.turns.Took.TheVariants.{Idle};
ghost use Rattle.tx_workers.specs.Turns.{abort_of, adds_by, adds_by_next, last_after, next_process, took_by, turn_adds};

use crate::named::{named, running};
use crate::next::next_process;
use crate::worker::Worker;
use std::alloc::Global;
use tx_base::{Accepted, NoMemory, Pid, Refusal, Reply, Step};
use tx_journal::{Entry, Session};
use tx_lines::Program;

/// Whether a process took its turn.
#[derive(Clone, Copy)]
pub enum Took {
    /// It does not run, and nothing was done.
    Idle,
    /// It runs. Its step may have been refused, and it may have had none to make.
    Ran,
}

/// Takes the turn of the worker's next running process after its last one: as `turn_of`. Where none
/// of its processes runs, nothing is done.
///
/// `NoMemory` where a growth is refused: session and worker are then as they were.
pub fn turn(
    alloc: Global,
    session: &mut Session,
    worker: &mut Worker,
    program: &Program,
) -> Result<(), NoMemory>
    requires at_end { IsAtEnd session.old }
    requires low { 1 ≤ worker.old.number }
    requires high { worker.old.number ≤ worker.old.total }
    ensures adds { OnOk result (Adds
        (adds_by_next program.now.instructions.items (view_of session.old.machine) worker.old.number
        (next_process (view_of session.old.machine) worker.old.number worker.old.total
        worker.old.last))
        (last_after worker.old.last
        (next_process (view_of session.old.machine) worker.old.number worker.old.total
        worker.old.last))
        session.old worker.old session.new worker.new) }
    ensures view { view_of session.old.machine
        ≡ view_after (start_of session.old) session.old.entries }
    ensures session { OnErr result (session.new ≡ session.old) }
    ensures worker { OnErr result (SameWorker worker.new worker.old) }
{
    let machine = session.machine();
    let top = machine.processes();
    let Some(pid) = next_process(machine, worker.number, worker.total, worker.last, top) else {
        return Ok(());
    };
    turn_of(alloc, session, worker, program, pid)?;
    worker.last = pid.0;
    Ok(())
}

/// Takes the turn of a process: the step that the program names for it. The worker notes an
/// accepted step. Where it is refused since the transaction of the process is doomed, the kernel
/// aborts that transaction, and this abort is noted. After another refusal nothing has changed. The
/// worker's `last` stays.
///
/// `NoMemory` where a growth is refused: session and worker are then as they were.
pub fn turn_of(
    alloc: Global,
    session: &mut Session,
    worker: &mut Worker,
    program: &Program,
    pid: Pid,
) -> Result<Took, NoMemory>
    requires at_end { IsAtEnd session.old }
    ensures adds { OnOk result
        (Adds (turn_adds program.now.instructions.items (view_of session.old.machine)
        worker.old.number pid.0) worker.old.last session.old worker.old session.new worker.new) }
    ensures view { view_of session.old.machine
        ≡ view_after (start_of session.old) session.old.entries }
    ensures took { IfOk result (λ took.
        took ≡ took_by (is_running ((present (view_of session.old.machine)).procs pid.0))) }
    ensures session { OnErr result (session.new ≡ session.old) }
    ensures worker { OnErr result (SameWorker worker.new worker.old) }
{
    if running(session.machine(), pid).is_none() {
        return Ok(Took::Idle); // without room for a note
    }
    worker.notes.reserve(1)?;
    let before = session.len();
    let took = make_turn(alloc, session, worker.number, program, pid)?;
    note(worker, session.entries(), before);
    Ok(took)
}

/// Notes the entry that a journal has after so many, where it has one: there must be room.
fn note(worker: &mut Worker, entries: &[Entry], before: usize)
    requires most { length entries.now ≤ before + 1 }
    requires room { length worker.old.notes.items < vec_capacity worker.old.notes }
    ensures notes { worker.new.notes.items ≡ worker.old.notes.items
        ++ map accepted_of (drop before entries.now) }
    ensures number { worker.new.number ≡ worker.old.number }
    ensures total { worker.new.total ≡ worker.old.total }
    ensures last { worker.new.last ≡ worker.old.last }
{
    if let Some(entry) = entries.get(before) {
        worker.notes.push_reserved(note_of(entry));
    }
}

/// The note of an entry.
pub(crate) fn note_of(entry: &Entry) -> Accepted
    ensures { result ≡ accepted_of entry.now }
{
    Accepted {
        step: entry.step.copy(),
        reply: entry.reply.copy(),
    }
}

/// Takes the turn of a process as `turn_of` does, for the worker of that number, and notes nothing:
/// its caller finds what was added at the end of the journal.
pub(crate) fn make_turn(
    alloc: Global,
    session: &mut Session,
    worker: u16,
    program: &Program,
    pid: Pid,
) -> Result<Took, NoMemory>
    requires at_end { IsAtEnd session.old }
    ensures grows { OnOk result
        (Grows (turn_adds program.now.instructions.items (view_of session.old.machine) worker pid.0)
        session.old session.new) }
    ensures view { view_of session.old.machine
        ≡ view_after (start_of session.old) session.old.entries }
    ensures took { IfOk result (λ took.
        took ≡ took_by (is_running ((present (view_of session.old.machine)).procs pid.0))) }
    ensures idle { IfOk result (λ took. took ≡ Idle → session.new ≡ session.old) }
    ensures session { OnErr result (session.new ≡ session.old) }
{
    let machine = session.machine();
    let Some(proc) = running(machine, pid) else {
        return Ok(Took::Idle);
    };
    if let Some(mut step) = named(program, machine, pid, proc) {
        take(alloc, session, worker, pid, &mut step)?;
    }
    Ok(Took::Ran)
}

/// Makes the step that is named for a process, and moves it into its entry.
fn take(
    alloc: Global,
    session: &mut Session,
    worker: u16,
    pid: Pid,
    step: &mut Step,
) -> Result<(), NoMemory>
    requires at_end { IsAtEnd session.old }
    ensures grows { OnOk result
        (Grows (adds_by (view_of session.old.machine) worker pid.0 step.old
        (answer (view_of session.old.machine) step.old)) session.old session.new) }
    ensures session { OnErr result (session.new ≡ session.old) }
{
    let mut reply = Reply::Ended;
    session.enter(alloc, worker, step, &mut reply);
    match reply {
        Reply::No(Refusal::NoMemory) => return Err(NoMemory),
        Reply::No(Refusal::Doomed) => abort(alloc, session, worker, pid),
        _ => {}
    }
    Ok(())
}

/// Aborts the transaction of which a process is a member, as the kernel does. Does nothing where it
/// is a member of none.
fn abort(alloc: Global, session: &mut Session, worker: u16, pid: Pid)
    requires at_end { IsAtEnd session.old }
    ensures { Grows (abort_of (view_of session.old.machine) worker
        ((view_of session.old.machine).table.marks pid.0)) session.old session.new }
{
    let Some(starter) = session.machine().txn_of(pid) else {
        return;
    };
    let mut reply = Reply::Ended;
    session.step_into(alloc, worker, &Step::KernelAbort(starter), &mut reply);
}
