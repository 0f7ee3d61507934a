//! A whole run of workers who take processes from the ready queue.
ghost use Rattle.std.specs.Prelude.{◌≡◌, ◌+◌, ◌≤◌, [], length, IfOk, Some};
ghost use Rattle.tx_journal.specs.Sessions.{IsAtEnd};
ghost use Rattle.tx_ready_queue.specs.Hands.{HoldsEach};
ghost use Rattle.tx_ready_queue.specs.Stations.{IsStationOf};
ghost use Rattle.tx_workers.specs.Runs.{IsOutcome, IsWorked};
ghost use Rattle.tx_workers.specs.Services.{IsCrewOf, IsTallied};
ghost use Rattle.tx_workers.specs.Teams.{made, noted};

use crate::crew::{Crew, serve_down};
use crate::desk::{Desk, Work};
use crate::faults::WorkFault;
use crate::floor::{Floor, Post};
use crate::gate::Gate;
use crate::results::{Outcome, Worked, checked};
use std::alloc::Global;
use std::marker::Brand;
use std::sync::ledger::{Blank, Share};
use std::sync::{Mutex, Wait};
use std::thread;
use std::thread::Threads;
use tx_journal::Session;
use tx_lines::Program;
use tx_ready_queue::{ReadyQueue, Station, Tally};

/// Runs the program by workers as `run_workers` does, but no worker has processes of its own: in a
/// turn it takes process numbers from a queue that all share, gives each of these processes its
/// turn and puts the number back, until one of them ran, it has taken as many as there may be, or
/// the queue is empty. The tally has how often each number was put, taken and left.
///
/// The faults are those of `run_workers`; `NoMemory` also where the queue wants memory.
pub fn run_queue<R: Threads + Wait + Sync, G: Gate + Sync>(
    rt: &R,
    alloc: Global,
    session: Session,
    program: &Program,
    workers: u16,
    turns: u32,
    gate: &G,
) -> Result<(Worked, Tally), WorkFault>
    requires { IsAtEnd session }
    ensures worked { IfOk result (λ both.
        IsWorked program.now session workers turns both.0.session both.0.workers.items) }
    ensures tallied { IfOk result (λ both.
        IsTallied session.width (noted both.0.workers.items) both.1) }
{
    let post = Post {
        number: workers,
        turns,
    };
    let blank = Blank::new(u64::from(workers) + 1);
    let start = session.len();
    let (outcome, tally) = serve_named::<Brand, R, G>(
        rt, alloc, blank, session, program, post, gate,
    )?;
    Ok((outcome.noted(alloc, start)?, tally))
}

/// The run, under a name that its lock and its ledger are known by.
fn serve_named<J: Work + Send + Sync, R: Threads + Wait + Sync, G: Gate + Sync>(
    rt: &R,
    alloc: Global,
    blank: Blank,
    session: Session,
    program: &Program,
    post: Post,
    gate: &G,
) -> Result<(Outcome, Tally), WorkFault>
    requires name { blank.name ≡ J.name }
    requires parts { blank.parts ≡ J.parts }
    requires enough { blank.parts ≡ post.number + 1 }
    requires program { J.program ≡ Some program.now }
    requires given { J.given ≡ Some session }
    requires at_end { IsAtEnd session }
    ensures outcome { IfOk result (λ both.
        IsOutcome program.now session post.number post.turns both.0.session both.0.runners.items) }
    ensures tallied { IfOk result (λ both.
        IsTallied session.width (made both.0.runners.items) both.1) }
{
    let start = session.len();
    let processes = session.processes();
    let Ok((queue, station)) = ReadyQueue::open(rt, alloc, processes) else {
        return Err(WorkFault::NoMemory);
    };
    let (book, share) = blank.open::<J>();
    let desk = Mutex::new(Desk::new(session, book));
    let floor = Floor {
        rt,
        alloc,
        desk: &desk,
        program,
        gate,
        total: post.number,
        processes,
    };
    let Crew { team, station } = serve_scoped(&floor, &queue, post, share, station)?;
    let tally = queue.close(rt, station);
    let outcome = checked(desk, program, start, post, team)?;
    Ok((outcome, tally))
}

/// The workers from a number down to 1, after all were joined.
fn serve_scoped<J: Work + Send + Sync, R: Threads + Wait + Sync, G: Gate + Sync>(
    floor: &Floor<'_, J, R, G>,
    queue: &ReadyQueue,
    post: Post,
    share: Share<J>,
    station: Station,
) -> Result<Crew<J>, WorkFault>
    requires program { J.program ≡ Some floor.now.program.now }
    requires processes { floor.now.processes ≤ 256 }
    requires shares { share.parts ≡ post.number + 1 }
    requires none { share.amount ≡ 0 }
    requires queue { IsStationOf queue.now station }
    requires high { post.number ≤ floor.now.total }
    requires parts { station.hand.parts + floor.now.total ≡ 65536 + post.number }
    requires each { HoldsEach floor.now.processes station.hand }
    requires put { length station.hand.put ≤ floor.now.processes }
    requires taken { station.hand.taken ≡ [] }
    ensures queue { IfOk result (λ crew. IsStationOf queue.now crew.station) }
    ensures crew { IfOk result (λ crew.
        IsCrewOf post.number post.turns floor.now.total floor.now.processes crew.team.runners.items
        crew.team.share.parts crew.team.share.amount crew.station.hand) }
{
    thread::scope(
        thread::scope_env(),
        floor.rt,
        |scope| -> Result<Crew<J>, WorkFault>
            requires program { J.program ≡ Some floor.now.program.now }
            requires processes { floor.now.processes ≤ 256 }
            requires shares { share.parts ≡ post.number + 1 }
            requires none { share.amount ≡ 0 }
            requires queue { IsStationOf queue.now station }
            requires high { post.number ≤ floor.now.total }
            requires parts { station.hand.parts + floor.now.total ≡ 65536 + post.number }
            requires each { HoldsEach floor.now.processes station.hand }
            requires put { length station.hand.put ≤ floor.now.processes }
            requires taken { station.hand.taken ≡ [] }
            ensures queue { IfOk result (λ crew. IsStationOf queue.entry.now crew.station) }
            ensures crew { IfOk result (λ crew.
                IsCrewOf post.number post.turns floor.entry.now.total floor.entry.now.processes
                crew.team.runners.items crew.team.share.parts crew.team.share.amount
                crew.station.hand) }
        { serve_down(scope, floor, queue, post, share, station) },
    )
}
