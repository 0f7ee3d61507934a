//! What a worker's thread does at the ready queue.
ghost use Rattle.std.specs.Prelude.{◌≡◌, ◌+◌, ◌<◌, ◌≤◌, ◌^◌, [], Some, length, vec_len};
ghost use Rattle.tx_ready_queue.specs.Hands.{begins, GivesBack};
ghost use Rattle.tx_ready_queue.specs.Stations.{IsStationOf};
ghost use Rattle.tx_workers.specs.Services.{IsService};

use crate::desk::Work;
use crate::floor::{Done, Floor, Post};
use crate::gate::Gate;
use crate::runner::Runner;
use crate::turns::Took;
use std::sync::Wait;
use std::sync::ledger::Share;
use std::thread::Promise;
use tx_base::NoMemory;
use tx_ready_queue::{ReadyQueue, Station};

/// What a worker's thread at the ready queue gives back.
#[derive(Drop)]
pub struct Served<J: Work> {
    pub done: Done<J>,
    pub station: Station,
}

/// Which worker a thread is, and at which queue.
#[derive(Clone, Copy, Drop)]
pub struct Service<'s> {
    pub post: Post,
    pub queue: &'s ReadyQueue,
}

impl<J: Work> Promise<Served<J>> for Service<'_> {
    ghost use Rattle.tx_ready_queue.specs.Stations.{IsStationOf};
    ghost use Rattle.tx_workers.specs.Services.{IsService};

    ghost kept_by = { λ service served.
        IsStationOf service.queue.now served.station
        × IsService service.post.number service.post.turns served.done.runner
        served.done.share.parts served.done.share.amount served.station.hand };
}

impl<'s, J: Work, R: Wait, G: Gate> Floor<'s, J, R, G> {
    /// Makes the turns of a worker over the ready queue, until one wants memory.
    pub fn serve(
        &self,
        queue: &ReadyQueue,
        post: Post,
        runner: Runner,
        share: Share<J>,
        station: Station,
    ) -> Served<J>
        requires program { J.program ≡ Some self.now.program.now }
        requires processes { self.now.processes ≤ 256 }
        requires number { runner.number ≡ post.number }
        requires made { runner.made.items ≡ [] }
        requires part { share.parts ≡ 1 }
        requires none { share.amount ≡ 0 }
        requires queue { IsStationOf queue.now station }
        requires begins { station.hand ≡ begins }
        ensures queue { IsStationOf queue.now result.station }
        ensures service { IsService post.number post.turns result.done.runner
            result.done.share.parts result.done.share.amount result.station.hand }
    {
        let (mut runner, mut share, mut station) = (runner, share, station);
        let mut made = Ok(());
        for before in 0..post.turns {
            self.gate.enter(post.number, before + 1);
            made = self.serve_turn(queue, &mut runner, &mut share, &mut station);
            self.gate.leave(post.number, before + 1);
            if made.is_err() {
                break;
            }
        }
        let done = Done {
            runner,
            share,
            made,
        };
        Served { done, station }
    }

    /// A turn: takes process numbers, gives each process a turn and puts its number back, until one
    /// ran, or there are no more processes, or the queue is empty.
    fn serve_turn(
        &self,
        queue: &ReadyQueue,
        runner: &mut Runner,
        share: &mut Share<J>,
        station: &mut Station,
    ) -> Result<(), NoMemory>
        requires program { J.program ≡ Some self.now.program.now }
        requires processes { self.now.processes ≤ 256 }
        requires part { 0 < share.old.parts }
        requires queue { IsStationOf queue.now station.old }
        requires back { GivesBack station.old.hand }
        requires room_put { length station.old.hand.put < 2 ^ 62 }
        requires room_taken { length station.old.hand.taken < 2 ^ 62 }
        ensures counted { share.new.amount + vec_len runner.old.made
            ≡ share.old.amount + vec_len runner.new.made }
        ensures shares { share.new.parts ≡ share.old.parts }
        ensures number { runner.new.number ≡ runner.old.number }
        ensures few { vec_len runner.new.made ≤ vec_len runner.old.made + 1 }
        ensures queue { IsStationOf queue.now station.new }
        ensures parts { station.new.hand.parts ≡ station.old.hand.parts }
        ensures back { GivesBack station.new.hand }
        ensures few_put { length station.new.hand.put ≤ length station.old.hand.put + 256 }
        ensures few_taken { length station.new.hand.taken ≤ length station.old.hand.taken + 256 }
        ensures enough { vec_len runner.new.made + length station.old.hand.taken
            ≤ vec_len runner.old.made + length station.new.hand.taken }
    {
        for _ in 0..self.processes {
            let Some(pid) = queue.take(self.rt, station) else {
                break;
            };
            let took = self
                .desk
                .lock(self.rt)
                .turn_of(self.alloc, self.program, pid, runner, share);
            queue.give(self.rt, station, pid);
            if took? == Took::Ran {
                break;
            }
        }
        Ok(())
    }
}
