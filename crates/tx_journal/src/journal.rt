//! The entries of a session, and what leads over them.
ghost use Rattle.std.specs.Prelude.{◌≡◌, ◌≤◌, ◌<◌, ◌++◌, ◌∷◌, [], length, vec_capacity, OnOk};
ghost use Rattle.tx_journal.specs.Rooms.{HasPlaces, SameRecord};

use crate::crossings::Crossings;
use crate::entry::Entry;
use std::alloc::Global;
use std::mem;
use tx_base::{NoMemory, Reply, Step};
use tx_content::Inverse;

/// All entries of a session, and what leads over them.
#[derive(Drop)]
pub(crate) struct Journal {
    /// All entries, the oldest first.
    pub entries: Vec<Entry>,
    pub crossings: Crossings,
}

impl Journal {
    /// No entry. It takes no memory.
    pub fn new(alloc: Global) -> Journal
        ensures entries { result.entries.items ≡ [] }
        ensures inverses { result.crossings.inverses ≡ [] }
        ensures undone { result.crossings.undone ≡ [] }
    {
        Journal {
            entries: Vec::new(alloc),
            crossings: Crossings::new(alloc),
        }
    }

    /// Makes room for this many entries more, where all are made.
    ///
    /// NoMemory where a growth is refused; the journal is then as it was.
    pub fn reserve(&mut self, count: usize) -> Result<(), NoMemory>
        ensures same { SameRecord self.new self.old }
        ensures places { OnOk result
            (length self.new.crossings.inverses ≡ length self.new.entries.items →
            HasPlaces self.new count) }
        ensures entries { vec_capacity self.old.entries ≤ vec_capacity self.new.entries }
        ensures room { self.old.crossings.room ≤ self.new.crossings.room }
    {
        self.entries.reserve(count)?;
        self.crossings.reserve(count)
    }

    /// Adds the entry of a step that is made. Nothing may be kept of entries that were taken back.
    /// The step moves there and leaves a blank one in its place.
    #[inline(always)] // as `record`
    pub fn add(&mut self, worker: u16, step: &mut Step, reply: &Reply, inverse: Inverse)
        requires none { self.old.crossings.undone ≡ [] }
        requires entries { length self.old.entries.items < vec_capacity self.old.entries }
        requires inverses { length self.old.crossings.inverses < self.old.crossings.room }
        ensures entries { self.new.entries.items ≡ self.old.entries.items
            ++ record { step = step.old; worker = worker; reply = reply.now } ∷ [] }
        ensures inverses { self.new.crossings.inverses
            ≡ self.old.crossings.inverses ++ inverse ∷ [] }
        ensures undone { self.new.crossings.undone ≡ [] }
        ensures room { vec_capacity self.new.entries ≡ vec_capacity self.old.entries }
        ensures places { self.new.crossings.room ≡ self.old.crossings.room }
    {
        self.crossings.push(inverse); // first: after the entry it would be moved twice
        let step = mem::replace(step, Step::blank());
        match reply {
            // Most replies are such, and have few bytes.
            Reply::Done(ret) => self.entries.push_reserved(Entry {
                step,
                worker,
                reply: Reply::Done(*ret),
            }),
            _ => self.entries.push_reserved(Entry {
                step,
                worker,
                reply: reply.copy(),
            }),
        }
    }
}
