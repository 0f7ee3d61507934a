//! Workers in threads of their own, at one session under one lock.
ghost use Rattle.std.specs.Prelude.{◌≡◌, ◌+◌, ◌-◌, ◌<◌, ◌≤◌, [], Err, IfErr, IfOk, IsErr, IsOk, Some, vec_len};
ghost use Rattle.tx_workers.specs.Teams.{made, IsTeam, IsWorkOf};
ghost use Rattle.tx_workers.specs.declared.faults.WorkFault.TheVariants.{NoMemory, Spawn};

use crate::desk::Work;
use crate::faults::WorkFault;
use crate::floor::{Done, Floor, Post};
use crate::gate::Gate;
use crate::runner::Runner;
use std::sync::Wait;
use std::sync::ledger::Share;
use std::thread::{Scope, Threads};

/// What some workers give back, with their shares in one.
#[derive(Drop)]
pub struct Team<J: Work> {
    pub runners: Vec<Runner>,
    pub share: Share<J>,
}

/// Starts the workers from a number down to 1, each in a thread of its own, and joins all that were
/// started.
///
/// `Spawn` where a thread could not be started; else `NoMemory` where a worker wanted memory, or
/// the list of them does.
pub fn run_down<'s, E, J, R, G>(
    scope: &Scope<'s, E>,
    floor: &'s Floor<'s, J, R, G>,
    post: Post,
    share: Share<J>,
) -> Result<Team<J>, WorkFault>
where
    J: Work + Send + Sync + 's,
    R: Threads + Wait + Sync + 's,
    G: Gate + Sync + 's,
    requires program { J.program ≡ Some floor.now.program.now }
    requires parts { share.parts ≡ post.number + 1 }
    requires none { share.amount ≡ 0 }
    requires high { post.number ≤ floor.now.total }
    ensures team { IfOk result (λ team.
        IsTeam post.number post.turns team.runners.items team.share.parts team.share.amount) }
    ensures thread { result ≡ Err Spawn → 0 < post.number }
{
    let mut share = share;
    if post.number == 0 {
        return Ok(Team {
            runners: Vec::new(floor.alloc),
            share,
        });
    }
    let runner = Runner::new(floor.alloc, post.number, floor.total);
    let theirs = share.split_off(1, 0);
    let started = scope.spawn_with(
        post,
        move || -> Done<J>
            requires program { J.program ≡ Some floor.now.program.now }
            requires number { runner.number ≡ post.number }
            requires low { 1 ≤ runner.number }
            requires high { runner.number ≤ runner.total }
            requires made { runner.made.items ≡ [] }
            requires part { theirs.parts ≡ 1 }
            requires none { theirs.amount ≡ 0 }
            ensures { IsWorkOf post.number post.turns result.runner result.share.parts
                result.share.amount }
        { floor.work(post, runner, theirs) },
    );
    let Ok(handle) = started else {
        return Err(WorkFault::Spawn);
    };
    let others = run_down(scope, floor, post.below(), share);
    let done = handle.join(floor.rt);
    joined(others, done, post)
}

/// A team with one worker more.
pub(crate) fn joined<J: Work>(
    others: Result<Team<J>, WorkFault>,
    done: Done<J>,
    post: Post,
) -> Result<Team<J>, WorkFault>
    requires one { 0 < post.number }
    requires others { IfOk others (λ team.
        IsTeam (post.number - 1) post.turns team.runners.items team.share.parts team.share.amount) }
    requires done { IsWorkOf post.number post.turns done.runner done.share.parts done.share.amount }
    ensures team { IfOk result (λ team.
        IsTeam post.number post.turns team.runners.items team.share.parts team.share.amount) }
    ensures made { IfOk others (λ team.
        IfOk result (λ more.
        made more.runners.items ≡ made team.runners.items + vec_len done.runner.made)) }
    ensures fault { IfErr others (λ fault. result ≡ Err fault) }
    ensures memory { IsOk others → IsErr done.made → result ≡ Err NoMemory }
{
    let Done {
        runner,
        share,
        made,
    } = done;
    let mut team = others?;
    if made.is_err() {
        return Err(WorkFault::NoMemory);
    }
    team.share.merge(share);
    if team.runners.push(runner).is_err() {
        return Err(WorkFault::NoMemory);
    }
    Ok(team)
}
