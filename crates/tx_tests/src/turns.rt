//! Turns of a worker.
ghost use Rattle.std.specs.Prelude.{◌≤◌, IsTrue};
ghost use Rattle.tx_journal.specs.Sessions.{IsAtEnd};

use crate::programs::{PROGRAM, read};
use std::alloc::Global;
use std::test::Fail;
use tx_base::Pid;
use tx_journal::Session;
use tx_lines::Program;
use tx_workers::{Took, Worker, turn, turn_of};

/// Takes the first turn. Whether it made and noted a step.
fn takes_a_turn(
    alloc: Global,
    session: &mut Session,
    worker: &mut Worker,
    program: &Program,
) -> bool
    requires at_end { IsAtEnd session.old }
    requires low { 1 ≤ worker.old.number }
    requires high { worker.old.number ≤ worker.old.total }
    ensures { IsTrue result → IsAtEnd session.new }
{
    turn(alloc, session, worker, program).is_ok()
        && worker.last == 1
        && worker.notes.len() == 1
        && session.len() == 1
}

/// Whether a turn of a process that is not there makes no step.
fn stays_idle(alloc: Global, session: &mut Session, worker: &mut Worker, program: &Program) -> bool
    requires { IsAtEnd session.old }
{
    matches!(
        turn_of(alloc, session, worker, program, Pid(2)),
        Ok(Took::Idle)
    ) && session.len() == 1
}

#[test]
fn a_turn_is_taken(rt: HostRuntime) -> Result<(), Fail> {
    let program = read(rt.alloc(), PROGRAM)?;
    let mut session = Session::boot(rt.alloc(), 1)?;
    let mut worker = Worker::new(rt.alloc(), 1, 1);
    assert!(rt; takes_a_turn(rt.alloc(), &mut session, &mut worker, &program));
    assert!(rt; stays_idle(rt.alloc(), &mut session, &mut worker, &program));
    Ok(())
}
