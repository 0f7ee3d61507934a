//! A worker in a run.
ghost use Rattle.std.specs.Prelude.{◌≡◌, ◌+◌, ◌<◌, ◌≤◌, ◌++◌, ◌∷◌, [], length, vec_capacity, vec_len};

use std::alloc::Global;

/// A worker in a run. It keeps only the places of its entries, from which its notes can be made
/// after the run.
#[derive(Drop)]
pub struct Runner {
    /// From 1 to the total.
    pub number: u16,
    /// How many workers there are.
    pub total: u16,
    /// The process whose turn was last; 0 before the first turn.
    pub last: u16,
    /// The places in the journal, counted from 0, of the entries that it added, the oldest first.
    pub made: Vec<usize>,
}

impl Runner {
    /// A worker of that number and total, before its first turn. It takes no memory.
    pub fn new(alloc: Global, number: u16, total: u16) -> Runner
        ensures number { result.number ≡ number }
        ensures total { result.total ≡ total }
        ensures made { result.made.items ≡ [] }
    {
        Runner {
            number,
            total,
            last: 0,
            made: Vec::new(alloc),
        }
    }

    /// Notes the entry that the journal has after so many, if it has one more: there must be room.
    pub fn note(&mut self, before: usize, after: usize)
        requires low { before ≤ after }
        requires high { after ≤ before + 1 }
        requires room { length self.old.made.items < vec_capacity self.old.made }
        ensures added { before < after → self.new.made.items ≡ self.old.made.items ++ before ∷ [] }
        ensures none { after ≡ before → self.new.made.items ≡ self.old.made.items }
        ensures count { vec_len self.new.made + before ≡ vec_len self.old.made + after }
        ensures number { self.new.number ≡ self.old.number }
        ensures total { self.new.total ≡ self.old.total }
    {
        if before < after {
            self.made.push_reserved(before);
        }
    }
}
