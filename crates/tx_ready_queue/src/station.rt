//! A worker's station at the ready queue.
use crate::counts::Counts;
use crate::rule::Hand;
use crossbeam_queue::Pass;
use std::marker::Model;

/// A worker's station at the ready queue: by it the worker puts and takes numbers, and it counts
/// them. Clauses see which queue it is at, and its hand.
#[derive(Drop)]
pub struct Station {
    pub(crate) pass: Pass<u16, Hand>,
    pub(crate) pushed: Counts,
    pub(crate) popped: Counts,
}

impl Model for Station {
    ghost use Rattle.crossbeam_queue.specs.Passes.{view as knows};
    ghost use Rattle.tx_ready_queue.specs.Stations.{Standing, IsKept};

    ghost Value = { Standing };

    ghost view = { λ station. record { queue = station.pass.table_id; hand = knows station.pass } };

    ghost invariant = { λ station. IsKept station.pass station.pushed.by_place
        station.popped.by_place };
}
