//! A whole run of workers.
ghost use Rattle.std.specs.Prelude.{◌≡◌, ◌+◌, ◌<◌, ◌≤◌, Err, IfOk, Some};
ghost use Rattle.tx_journal.specs.Sessions.{IsAtEnd};
ghost use Rattle.tx_workers.specs.Runs.{IsOutcome, IsWorked};
ghost use Rattle.tx_workers.specs.Teams.{IsTeam};
ghost use Rattle.tx_workers.specs.declared.faults.WorkFault.TheVariants.{Spawn};

use crate::desk::{Desk, Work};
use crate::faults::WorkFault;
use crate::floor::{Floor, Post};
use crate::gate::Gate;
use crate::results::{Outcome, Worked, checked};
use crate::team::{Team, run_down};
use std::alloc::Global;
use std::marker::Brand;
use std::sync::ledger::{Blank, Share};
use std::sync::{Mutex, Wait};
use std::thread;
use std::thread::Threads;
use tx_journal::Session;
use tx_lines::Program;

/// Runs the program by workers of the numbers from 1 on, each in a thread of its own, which all
/// take their turns at one session under one lock. Each takes so many turns, unless a growth of
/// memory is refused to it. The gate is called before the lock of each turn is taken and after it
/// is let go.
///
/// `Spawn` where a thread could not be started, `NoMemory` where a growth is refused, `Strayed`
/// where a worker noted something else than the journal has of it; of several the first of these.
/// That the notes themselves want memory is found last. The session is gone after a fault.
pub fn run_workers<R: Threads + Wait + Sync, G: Gate + Sync>(
    rt: &R,
    alloc: Global,
    session: Session,
    program: &Program,
    workers: u16,
    turns: u32,
    gate: &G,
) -> Result<Worked, WorkFault>
    requires { IsAtEnd session }
    ensures worked { IfOk result (λ worked.
        IsWorked program.now session workers turns worked.session worked.workers.items) }
    ensures thread { result ≡ Err Spawn → 0 < workers }
{
    let start = session.len();
    run_without_notes(rt, alloc, session, program, workers, turns, gate)?.noted(alloc, start)
}

/// The same, without notes.
pub(crate) fn run_without_notes<R: Threads + Wait + Sync, G: Gate + Sync>(
    rt: &R,
    alloc: Global,
    session: Session,
    program: &Program,
    workers: u16,
    turns: u32,
    gate: &G,
) -> Result<Outcome, WorkFault>
    requires { IsAtEnd session }
    ensures outcome { IfOk result (λ outcome.
        IsOutcome program.now session workers turns outcome.session outcome.runners.items) }
    ensures thread { result ≡ Err Spawn → 0 < workers }
{
    let post = Post {
        number: workers,
        turns,
    };
    let blank = Blank::new(u64::from(workers) + 1);
    run_named::<Brand, R, G>(rt, alloc, blank, session, program, post, gate)
}

/// The run, under a name that its lock and its ledger are known by.
fn run_named<J: Work + Send + Sync, R: Threads + Wait + Sync, G: Gate + Sync>(
    rt: &R,
    alloc: Global,
    blank: Blank,
    session: Session,
    program: &Program,
    post: Post,
    gate: &G,
) -> Result<Outcome, WorkFault>
    requires name { blank.name ≡ J.name }
    requires parts { blank.parts ≡ J.parts }
    requires enough { blank.parts ≡ post.number + 1 }
    requires program { J.program ≡ Some program.now }
    requires given { J.given ≡ Some session }
    requires at_end { IsAtEnd session }
    ensures outcome { IfOk result (λ outcome.
        IsOutcome program.now session post.number post.turns outcome.session
        outcome.runners.items) }
    ensures thread { result ≡ Err Spawn → 0 < post.number }
{
    let start = session.len();
    let processes = session.processes();
    let (book, share) = blank.open::<J>();
    let desk = Mutex::new(Desk::new(session, book));
    let floor = Floor {
        rt,
        alloc,
        desk: &desk,
        program,
        gate,
        total: post.number,
        processes,
    };
    let team = run_scoped(&floor, post, share)?;
    checked(desk, program, start, post, team)
}

/// The workers from a number down to 1, after all were joined.
fn run_scoped<J: Work + Send + Sync, R: Threads + Wait + Sync, G: Gate + Sync>(
    floor: &Floor<'_, J, R, G>,
    post: Post,
    share: Share<J>,
) -> Result<Team<J>, WorkFault>
    requires program { J.program ≡ Some floor.now.program.now }
    requires parts { share.parts ≡ post.number + 1 }
    requires none { share.amount ≡ 0 }
    requires high { post.number ≤ floor.now.total }
    ensures team { IfOk result (λ team.
        IsTeam post.number post.turns team.runners.items team.share.parts team.share.amount) }
    ensures thread { result ≡ Err Spawn → 0 < post.number }
{
    thread::scope(
        thread::scope_env(),
        floor.rt,
        |scope| -> Result<Team<J>, WorkFault>
            requires program { J.program ≡ Some floor.now.program.now }
            requires parts { share.parts ≡ post.number + 1 }
            requires none { share.amount ≡ 0 }
            requires high { post.number ≤ floor.now.total }
            ensures team { IfOk result (λ team.
                IsTeam post.number post.turns team.runners.items team.share.parts
                team.share.amount) }
            ensures thread { result ≡ Err Spawn → 0 < post.number }
        { run_down(scope, floor, post, share) },
    )
}
