//! How often each process number was counted.
ghost use Rattle.std.specs.Prelude.{ℕ, ◌+◌, ◌-◌, ◌<◌, ◌^◌, List, [], ◌∷◌, ◌++◌, slice_index};
ghost use Rattle.tx_ready_queue.specs.Numbers.{IsNumber, HasCounted};

use crate::MOST;

/// A count for each process number: at the place p - 1 that of the number p.
#[derive(Drop)]
pub struct Counts {
    pub by_place: [u64; MOST],
}

impl Counts {
    /// Nothing is counted.
    pub fn none() -> Counts
        ensures { HasCounted result.by_place [] }
    {
        Counts {
            by_place: [0; MOST],
        }
    }

    /// Counts a number one more time.
    pub fn count(&mut self, number: u16)
        requires number { IsNumber number }
        requires room { slice_index self.old.by_place (number - 1) + 1 < 2 ^ 64 }
        ensures { (list : List ℕ) → HasCounted self.old.by_place list →
            HasCounted self.new.by_place (list ++ number ∷ []) }
    {
        self.by_place[usize::from(number) - 1] += 1;
    }

    /// Adds the counts of another.
    pub fn add(&mut self, other: &Counts)
        requires room { (place : ℕ) → place < 256 →
            slice_index self.old.by_place place + slice_index other.now.by_place place < 2 ^ 64 }
        ensures { (mine theirs : List ℕ) → HasCounted self.old.by_place mine →
            HasCounted other.now.by_place theirs → HasCounted self.new.by_place (mine ++ theirs) }
    {
        for (place, count) in other.by_place.iter().enumerate() {
            self.by_place[place] += *count;
        }
    }
}
