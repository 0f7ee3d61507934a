//! How many children each process number has.
ghost use Rattle.std.specs.Prelude.{◌≡◌, ◌+◌, ◌-◌, ◌<◌, ◌≤◌, IfOk, length, replicate, slice_index_or, slice_set};
ghost use Rattle.tx_proc.specs.Children.{HasOne, Recounts};

use std::alloc::Global;
use std::marker::Model;
use tx_base::{NoMemory, Pid};

/// How many processes have each number as their parent. A parent that is no number of the table is
/// not counted. Contracts see the list of the counts, that of number 0 first.
#[derive(Drop)]
pub(crate) struct ChildCounts {
    counts: Vec<usize>,
}

impl Model for ChildCounts {
    ghost use Rattle.std.specs.Prelude.{List, ℕ};

    ghost Value = { List ℕ };

    ghost view = { λ children. children.counts.items };
}

impl ChildCounts {
    /// The counts of a table of this width that has no process.
    ///
    /// NoMemory where a growth is refused.
    pub(crate) fn new(alloc: Global, width: u16) -> Result<ChildCounts, NoMemory>
        ensures { IfOk result (λ children. children ≡ replicate (width + 1) 0) }
    {
        let counts = vec![in alloc; 0; width as usize + 1]?;
        Ok(ChildCounts { counts })
    }

    /// How many processes have this parent, which must be counted.
    pub(crate) fn of(&self, parent: Pid) -> usize
        requires { parent.0 < length self.now }
        ensures { result ≡ slice_index_or self.now parent.0 0 }
    {
        self.counts[parent.0 as usize]
    }

    /// A process with the one parent, if any, is replaced by one with the other, if any.
    pub(crate) fn recount(&mut self, old: Option<Pid>, new: Option<Pid>)
        requires { HasOne old self.old }
        ensures { Recounts old new self.old self.new }
    {
        if let Some(parent) = old {
            self.lower(parent);
        }
        if let Some(parent) = new {
            self.raise(parent);
        }
    }

    /// Counts one child more of a parent.
    fn raise(&mut self, parent: Pid)
        requires { parent.0 < length self.old →
            slice_index_or self.old parent.0 0 < length self.old }
        ensures { self.new ≡ slice_set self.old parent.0 (slice_index_or self.old parent.0 0 + 1) }
    {
        let place = parent.0 as usize;
        if place < self.counts.len() {
            self.counts[place] += 1;
        }
    }

    /// Counts one child fewer of a parent.
    fn lower(&mut self, parent: Pid)
        requires { parent.0 < length self.old → 1 ≤ slice_index_or self.old parent.0 0 }
        ensures { self.new ≡ slice_set self.old parent.0 (slice_index_or self.old parent.0 0 - 1) }
    {
        let place = parent.0 as usize;
        if place < self.counts.len() {
            self.counts[place] -= 1;
        }
    }
}
