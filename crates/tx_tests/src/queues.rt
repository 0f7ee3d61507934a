//! Whole runs of workers who take processes from the ready queue.
use crate::programs::{PROGRAM, RUN, read};
use crate::sessions::session_of;
use crate::workers::{Meeting, each_took_one};
use std::alloc::Global;
use std::sync::Wait;
use std::sync::atomic::AtomicBool;
use std::sync::atomic::Ordering::SeqCst;
use std::test::Fail;
use std::thread;
use std::thread::Threads;
use tx_base::{Pid, Step};
use tx_journal::{Entry, Session};
use tx_lines::OverWrite;
use tx_workers::{Gate, NoGate, Tally, Worked, run_queue, write_run};

/// What so many workers give back of a program, from its start with so many processes.
fn queue_over<R: Threads + Wait + Sync, G: Gate + Sync>(
    rt: &R,
    alloc: Global,
    program: &str,
    workers: u16,
    turns: u32,
    gate: &G,
) -> Result<(Worked, Tally), Fail> {
    let program = read(alloc, program)?;
    let session = session_of(alloc, program.header.count, &[])?;
    Ok(run_queue(rt, alloc, session, &program, workers, turns, gate)?)
}

#[test]
fn one_worker_takes_processes_in_order(rt: HostRuntime) -> Result<(), Fail> {
    let (worked, _tally) = queue_over(&rt, rt.alloc(), PROGRAM, 1, 7, &NoGate)?;
    assert!(rt; is_written(rt.alloc(), &worked.session, RUN));
    Ok(())
}

/// Whether that is written of a run.
fn is_written(alloc: Global, session: &Session, wanted: &str) -> bool {
    let mut taken = Vec::new(alloc);
    let written = write_run(alloc, session, &mut OverWrite::new(&mut taken));
    written == Ok(()) && taken.as_slice() == wanted.as_bytes()
}

#[test]
fn two_workers_meet_at_the_queue(rt: HostRuntime) -> Result<(), Fail> {
    let gate = Meeting::new();
    let program = "txos 1 program 2\ngetpid\n";
    let (worked, _tally) = queue_over(&rt, rt.alloc(), program, 2, 1, &gate)?;
    assert!(rt; gate.is_met(), "each sees the other");
    assert!(rt; worked.workers.len() == 2 && each_took_one(&worked));
    Ok(())
}

/// A gate at which worker 2 waits, before its first turn, until worker 1 has taken its twentieth.
#[derive(Drop)]
struct Late {
    is_over: AtomicBool,
    is_seen: AtomicBool,
}

impl Gate for Late {
    fn enter(&self, worker: u16, turn: u32) {
        if worker != 2 || turn != 1 {
            return;
        }
        for _ in 0..1_000_000 {
            if self.is_over.load(SeqCst) {
                self.is_seen.store(true, SeqCst);
                return;
            }
            thread::yield_now();
        }
    }

    fn leave(&self, worker: u16, turn: u32) {
        if worker == 1 && turn == 20 {
            self.is_over.store(true, SeqCst);
        }
    }
}

#[test]
fn any_worker_takes_any_process(rt: HostRuntime) -> Result<(), Fail> {
    let gate = Late {
        is_over: AtomicBool::new(false),
        is_seen: AtomicBool::new(false),
    };
    let program = "txos 1 program 1\nfork\nlabel here\njump @here always\n";
    let (worked, _tally) = queue_over(&rt, rt.alloc(), program, 2, 20, &gate)?;
    assert!(rt;
        gate.is_seen.load(SeqCst),
        "worker 2 sees the end of worker 1"
    );
    assert!(rt;
        has_turn_of_another(worked.session.entries()),
        "worker 1 takes a turn of process 2"
    );
    Ok(())
}

/// Whether worker 1 took a turn of process 2.
fn has_turn_of_another(entries: &[Entry]) -> bool {
    let mut entries = entries.iter();
    entries.any(|entry| entry.worker == 1 && matches!(entry.step, Step::Call(Pid(2), _)))
}
