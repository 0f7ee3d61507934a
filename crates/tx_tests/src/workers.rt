//! Whole runs of workers.
use crate::programs::read;
use crate::runs::ran;
use crate::sessions::session_after;
use crate::texts::{report, session_report};
use std::alloc::{AllocError, Global};
use std::sync::Wait;
use std::sync::atomic::AtomicBool;
use std::sync::atomic::Ordering::SeqCst;
use std::test::Fail;
use std::thread;
use std::thread::Threads;
use tx_base::{Call, NoMemory, Pid, Reply, Step};
use tx_core::Ran;
use tx_journal::{Entry, Session};
use tx_workers::{Gate, NoGate, RunFault, WorkFault, Worked, run_workers};

/// What so many workers give back of a program and a session after some steps.
fn run_after<R: Threads + Wait + Sync, G: Gate + Sync>(
    rt: &R,
    alloc: Global,
    schedule: &str,
    program: &str,
    workers: u16,
    turns: u32,
    gate: &G,
) -> Result<Worked, Fail> {
    let session = session_after(alloc, schedule)?;
    let program = read(alloc, program)?;
    Ok(run_workers(rt, alloc, session, &program, workers, turns, gate)?)
}

/// Whether each worker of a run took one step.
pub(crate) fn each_took_one(worked: &Worked) -> bool {
    let mut workers = worked.workers.iter();
    workers.all(|worker| worker.notes.len() == 1)
}

#[test]
fn a_run_goes_on_from_what_was_handed_in(rt: HostRuntime) -> Result<(), Fail> {
    let schedule = "txos 1 schedule 2\n2 map 0\n";
    let program = "txos 1 program 2\ngetpid\ngetpid\n";
    let worked = run_after(&rt, rt.alloc(), schedule, program, 2, 1, &NoGate)?;
    assert!(rt; has_gone_on(&worked) && each_took_one(&worked));
    Ok(())
}

/// Whether two workers went on from a session whose one step is a map.
fn has_gone_on(worked: &Worked) -> bool {
    let first = worked.session.entry(1).map(|entry| &entry.step);
    worked.session.len() == 3
        && worked.workers.len() == 2
        && matches!(first, Some(Step::Call(Pid(2), Call::Map(0))))
}

/// A gate at which each of two workers looks for the other before its first turn.
#[derive(Drop)]
pub(crate) struct Meeting {
    came: [AtomicBool; 2],
    met: [AtomicBool; 2],
}

impl Meeting {
    /// A gate to which none has come.
    pub(crate) fn new() -> Meeting {
        Meeting {
            came: [AtomicBool::new(false), AtomicBool::new(false)],
            met: [AtomicBool::new(false), AtomicBool::new(false)],
        }
    }

    /// Whether each has seen the other.
    pub(crate) fn is_met(&self) -> bool {
        self.met[0].load(SeqCst) && self.met[1].load(SeqCst)
    }
}

impl Gate for Meeting {
    fn enter(&self, worker: u16, _turn: u32) {
        let own = usize::from(worker != 1);
        self.came[own].store(true, SeqCst);
        for _ in 0..1_000_000 {
            if self.came[1 - own].load(SeqCst) {
                self.met[own].store(true, SeqCst);
                return;
            }
            thread::yield_now();
        }
    }

    fn leave(&self, _worker: u16, _turn: u32) {}
}

#[test]
fn two_workers_meet(rt: HostRuntime) -> Result<(), Fail> {
    let gate = Meeting::new();
    let program = "txos 1 program 2\ngetpid\n";
    let worked = run_after(&rt, rt.alloc(), "txos 1 schedule 2\n", program, 2, 1, &gate)?;
    assert!(rt; gate.is_met(), "each sees the other");
    assert!(rt; worked.workers.len() == 2 && each_took_one(&worked));
    Ok(())
}

/// Processes that try out children in transactions, of which some take all back.
const TREES: &str = "txos 1 program 16
map 0
label top
sys_xbegin
jump @top if -201
store 0 05
fork
jump @kid if 0
keep 1
waitpid $1 wait
sys_xend
jump @top always
label kid
keep 2
getpid
jump @back if 17
jump @back if 20
exit 3
label back
sys_xabort
";

/// The steps of entries, in their order.
fn steps_of(alloc: Global, entries: &[Entry]) -> Result<Vec<Step>, NoMemory> {
    let mut steps = Vec::new(alloc);
    for entry in entries {
        steps.push(entry.step.copy())?;
    }
    Ok(steps)
}

#[test]
fn what_many_workers_did_can_be_replayed(rt: HostRuntime) -> Result<(), Fail> {
    let alloc = rt.alloc();
    let worked = run_after(&rt, alloc, "txos 1 schedule 16\n", TREES, 16, 1000, &NoGate)?;
    assert!(rt; matches!(is_replayed(alloc, &worked.session), Ok(true)));
    assert!(rt; has_an_abort(worked.session.entries()));
    Ok(())
}

/// Whether a run says what a session says.
fn says_the_same(alloc: Global, run: &Ran, session: &Session) -> Result<bool, NoMemory> {
    let report = report(alloc, run)?;
    let wanted = session_report(alloc, session)?;
    Ok(report.as_str() == wanted.as_str())
}

/// Whether the run of a session's steps from 16 processes says what the session says.
fn is_replayed(alloc: Global, session: &Session) -> Result<bool, NoMemory> {
    let steps = steps_of(alloc, session.entries())?;
    let again = ran(alloc, 16, steps.as_slice())?;
    says_the_same(alloc, &again, session)
}

/// Whether one of the entries is an abort.
fn has_an_abort(entries: &[Entry]) -> bool {
    let mut replies = entries.iter().map(|entry| &entry.reply);
    replies.any(|reply| matches!(reply, Reply::Aborted(_)))
}

/// Whether a fault of workers prints as a name, also as one of a run.
fn is_named(alloc: Global, fault: WorkFault, name: &str) -> Result<bool, AllocError> {
    let report = format!(in alloc; "{fault}")?;
    let run = RunFault::Work(fault);
    let run_report = format!(in alloc; "{run}")?;
    Ok(report.as_str() == name && run_report.as_str() == name)
}

#[test]
fn faults_of_runs_are_named(rt: HostRuntime) {
    for (fault, name) in [
        (WorkFault::NoMemory, "F6"),
        (WorkFault::Strayed, "F7"),
        (WorkFault::Spawn, "F8"),
    ] {
        assert!(rt;
            matches!(is_named(rt.alloc(), fault, name), Ok(true)),
            "{name}"
        );
    }
}
