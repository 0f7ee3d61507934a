//! What a worker's thread does.
ghost use Rattle.std.specs.Prelude.{◌≡◌, ◌-◌, ◌<◌, ◌≤◌, [], Some};
ghost use Rattle.tx_workers.specs.Teams.{IsWorkOf};

use crate::desk::{Desk, Work};
use crate::gate::Gate;
use crate::runner::Runner;
use std::alloc::Global;
use std::sync::ledger::Share;
use std::sync::{Mutex, Wait};
use std::thread::Promise;
use tx_base::NoMemory;
use tx_lines::Program;

/// What a worker's thread gives back.
#[derive(Drop)]
pub struct Done<J: Work> {
    pub runner: Runner,
    pub share: Share<J>,
    pub made: Result<(), NoMemory>,
}

/// Which worker a thread is, and the most turns that it makes.
#[derive(Clone, Copy)]
pub struct Post {
    pub number: u16,
    pub turns: u32,
}

impl Post {
    /// That of the worker before.
    pub fn below(self) -> Post
        requires { 0 < self.number }
        ensures number { result.number ≡ self.number - 1 }
        ensures turns { result.turns ≡ self.turns }
    {
        Post {
            number: self.number - 1,
            turns: self.turns,
        }
    }
}

impl<J: Work> Promise<Done<J>> for Post {
    ghost use Rattle.tx_workers.specs.Teams.{IsWorkOf};

    ghost kept_by = { λ post done. IsWorkOf post.number post.turns done.runner done.share.parts
        done.share.amount };
}

/// What all workers of a run share.
#[derive(Drop)]
pub struct Floor<'s, J: Work, R, G> {
    pub rt: &'s R,
    pub alloc: Global,
    pub desk: &'s Mutex<Desk<J>>,
    pub program: &'s Program,
    pub gate: &'s G,
    /// How many workers there are.
    pub total: u16,
    /// How many processes there may be: 64, or 256 of a wide machine.
    pub processes: u16,
}

impl<'s, J: Work, R: Wait, G: Gate> Floor<'s, J, R, G> {
    /// Makes the turns of a worker, until one wants memory.
    pub fn work(&self, post: Post, runner: Runner, share: Share<J>) -> Done<J>
        requires program { J.program ≡ Some self.now.program.now }
        requires number { runner.number ≡ post.number }
        requires low { 1 ≤ runner.number }
        requires high { runner.number ≤ runner.total }
        requires made { runner.made.items ≡ [] }
        requires part { share.parts ≡ 1 }
        requires none { share.amount ≡ 0 }
        ensures { IsWorkOf post.number post.turns result.runner result.share.parts
            result.share.amount }
    {
        let (mut runner, mut share) = (runner, share);
        let mut made = Ok(());
        for before in 0..post.turns {
            self.gate.enter(post.number, before + 1);
            made = self
                .desk
                .lock(self.rt)
                .turn(self.alloc, self.program, &mut runner, &mut share);
            self.gate.leave(post.number, before + 1);
            if made.is_err() {
                break;
            }
        }
        Done {
            runner,
            share,
            made,
        }
    }
}
