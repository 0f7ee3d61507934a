//! Workers in threads of their own, who take processes from the ready queue.
ghost use Rattle.std.specs.Prelude.{◌≡◌, ◌+◌, ◌-◌, ◌<◌, ◌≤◌, [], IfOk, Some, length};
ghost use Rattle.tx_ready_queue.specs.Hands.{begins, HoldsEach};
ghost use Rattle.tx_ready_queue.specs.Stations.{IsStationOf};
ghost use Rattle.tx_workers.specs.Services.{IsCrewOf, IsService};

use crate::desk::Work;
use crate::faults::WorkFault;
use crate::floor::{Floor, Post};
use crate::gate::Gate;
use crate::runner::Runner;
use crate::service::{Served, Service};
use crate::team::{Team, joined};
use std::sync::Wait;
use std::sync::ledger::Share;
use std::thread::{Scope, Threads};
use tx_ready_queue::{ReadyQueue, Station};

/// What some workers at the ready queue give back, with their stations in one.
#[derive(Drop)]
pub struct Crew<J: Work> {
    pub team: Team<J>,
    pub station: Station,
}

/// Starts the workers from a number down to 1, each in a thread of its own and with a station of
/// its own, and joins all that were started. The faults are those of a team without a queue.
pub fn serve_down<'s, E, J, R, G>(
    scope: &Scope<'s, E>,
    floor: &'s Floor<'s, J, R, G>,
    queue: &'s ReadyQueue,
    post: Post,
    share: Share<J>,
    station: Station,
) -> Result<Crew<J>, WorkFault>
where
    J: Work + Send + Sync + 's,
    R: Threads + Wait + Sync + 's,
    G: Gate + Sync + 's,
    requires program { J.program ≡ Some floor.now.program.now }
    requires processes { floor.now.processes ≤ 256 }
    requires shares { share.parts ≡ post.number + 1 }
    requires none { share.amount ≡ 0 }
    requires queue { IsStationOf queue.now station }
    requires high { post.number ≤ floor.now.total }
    requires parts { station.hand.parts + floor.now.total ≡ 65536 + post.number }
    requires each { HoldsEach floor.now.processes station.hand }
    requires put { length station.hand.put ≤ floor.now.processes }
    requires taken { station.hand.taken ≡ [] }
    ensures queue { IfOk result (λ crew. IsStationOf queue.now crew.station) }
    ensures crew { IfOk result (λ crew.
        IsCrewOf post.number post.turns floor.now.total floor.now.processes crew.team.runners.items
        crew.team.share.parts crew.team.share.amount crew.station.hand) }
{
    let (mut share, mut station) = (share, station);
    if post.number == 0 {
        let team = Team {
            runners: Vec::new(floor.alloc),
            share,
        };
        return Ok(Crew { team, station });
    }
    let runner = Runner::new(floor.alloc, post.number, floor.total);
    let theirs = share.split_off(1, 0);
    let at = queue.another(&mut station);
    let started = scope.spawn_with(
        Service { post, queue },
        move || -> Served<J>
            requires program { J.program ≡ Some floor.now.program.now }
            requires processes { floor.now.processes ≤ 256 }
            requires number { runner.number ≡ post.number }
            requires made { runner.made.items ≡ [] }
            requires part { theirs.parts ≡ 1 }
            requires none { theirs.amount ≡ 0 }
            requires queue { IsStationOf queue.now at }
            requires begins { at.hand ≡ begins }
            ensures queue { IsStationOf queue.entry.now result.station }
            ensures service { IsService post.number post.turns result.done.runner
                result.done.share.parts result.done.share.amount result.station.hand }
        { floor.serve(queue, post, runner, theirs, at) },
    );
    let Ok(handle) = started else {
        return Err(WorkFault::Spawn);
    };
    let others = serve_down(scope, floor, queue, post.below(), share, station);
    let served = handle.join(floor.rt);
    together(floor, queue, others, served, post)
}

/// A crew with one worker more.
fn together<J: Work, R, G>(
    floor: &Floor<'_, J, R, G>,
    queue: &ReadyQueue,
    others: Result<Crew<J>, WorkFault>,
    served: Served<J>,
    post: Post,
) -> Result<Crew<J>, WorkFault>
    requires one { 0 < post.number }
    requires processes { floor.now.processes ≤ 256 }
    requires others { IfOk others (λ crew. IsStationOf queue.now crew.station) }
    requires crew { IfOk others (λ crew.
        IsCrewOf (post.number - 1) post.turns floor.now.total floor.now.processes
        crew.team.runners.items crew.team.share.parts crew.team.share.amount crew.station.hand) }
    requires served { IsStationOf queue.now served.station }
    requires service { IsService post.number post.turns served.done.runner served.done.share.parts
        served.done.share.amount served.station.hand }
    ensures queue { IfOk result (λ crew. IsStationOf queue.now crew.station) }
    ensures crew { IfOk result (λ crew.
        IsCrewOf post.number post.turns floor.now.total floor.now.processes crew.team.runners.items
        crew.team.share.parts crew.team.share.amount crew.station.hand) }
{
    let Served { done, station: at } = served;
    let Crew { team, mut station } = others?;
    queue.merge(&mut station, at);
    let team = joined(Ok(team), done, post)?;
    Ok(Crew { team, station })
}
