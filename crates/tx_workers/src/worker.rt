//! What takes turns.
ghost use Rattle.std.specs.Prelude.{◌≡◌, []};

use std::alloc::Global;
use tx_base::Accepted;

/// Takes turns for the processes that are its own: of the workers of a total number, numbered from
/// 1, each has the processes whose numbers, counted round, fall to it.
#[derive(Drop)]
pub struct Worker {
    /// From 1 to the total.
    pub number: u16,
    /// How many workers there are.
    pub total: u16,
    /// The process whose turn was last; 0 before the first turn.
    pub last: u16,
    /// The worker's own accepted steps with their replies, the oldest first.
    pub notes: Vec<Accepted>,
}

impl Worker {
    /// A worker of that number and total, before its first turn. It takes no memory.
    pub fn new(alloc: Global, number: u16, total: u16) -> Worker
        ensures number { result.number ≡ number }
        ensures total { result.total ≡ total }
        ensures last { result.last ≡ 0 }
        ensures notes { result.notes.items ≡ [] }
    {
        Worker {
            number,
            total,
            last: 0,
            notes: Vec::new(alloc),
        }
    }
}
