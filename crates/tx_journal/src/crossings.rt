//! What leads over the entries of a session, back and forward again.
ghost use Rattle.std.specs.Prelude.{◌≡◌, ◌≢◌, ◌↔◌, ◌++◌, ◌∷◌, [], ◌+◌, ◌≤◌, ◌<◌, List, None, IfNone, IfSome, IsErr, IsTrue, OnErr, OnOk, length, slice_get};
ghost use Rattle.tx_content.specs.Crossings.{inverse_at};
ghost use Rattle.tx_core.specs.Undo.{LeadsBack, LeadsOn};
ghost use Rattle.tx_journal.specs.Crossings.{GoesBack, GoesForward, SameCrossed};
ghost use Rattle.tx_content.specs.declared.inverse.Inverse.{Inverse as TheInverse};
ghost use Rattle.tx_content.specs.declared.undone.Undone.{Undone};

use crate::faults::AtStart;
use std::alloc::Global;
use std::marker::Model;
use tx_base::NoMemory;
use tx_change::Change;
use tx_content::{Crossing, Inverse};
use tx_core::Machine;

/// What leads over the entries of a session: back over those that are made, and forward over those
/// after them, as far as that is kept. Contracts see what takes back the former, what makes the
/// latter again with the stack of their changes, and for how many entries there is room.
#[derive(Drop)]
pub(crate) struct Crossings {
    /// The place of each entry that is made, the oldest first, and of those after them that are
    /// kept.
    places: Vec<Crossing>,
    /// How many entries are made.
    made: usize,
    /// The changes of those that are kept and that were made inside transactions or committed one.
    stack: Vec<Change>,
}

impl Model for Crossings {
    ghost use Rattle.std.specs.Prelude.{vec_capacity};
    ghost use Rattle.tx_journal.specs.Crossings.{crossed_in, Crossed, IsParted};

    ghost Value = { Crossed };

    ghost view = { λ crossings. crossed_in crossings.places.items crossings.made
        crossings.stack.items (vec_capacity crossings.places) };

    ghost invariant = { λ crossings. IsParted crossings.places.items crossings.made };
}

impl Crossings {
    /// For no entry. It takes no memory.
    pub fn new(alloc: Global) -> Crossings
        ensures inverses { result.inverses ≡ [] }
        ensures undone { result.undone ≡ [] }
    {
        Crossings {
            places: Vec::new(alloc),
            made: 0,
            stack: Vec::new(alloc),
        }
    }

    /// How many entries are made.
    pub fn made(&self) -> usize
        ensures { result ≡ length self.now.inverses }
    {
        self.made
    }

    /// What leads back over the entry of a place. None if it is not made, or there is none.
    pub fn back_over(&self, place: usize) -> Option<&Crossing>
        ensures made { IfSome result (λ crossing.
            inverse_at crossing.now ≡ slice_get self.now.inverses place) }
        ensures none { IfNone result (slice_get self.now.inverses place ≡ None) }
    {
        if place >= self.made {
            return None;
        }
        Some(&self.places[place])
    }

    /// Whether what makes the next entry again is kept.
    pub fn keeps_next(&self) -> bool
        ensures { IsTrue result ↔ (self.now.undone ≢ []) }
    {
        self.made < self.places.len()
    }

    /// Makes room for this many more entries.
    ///
    /// NoMemory where a growth is refused.
    pub fn reserve(&mut self, count: usize) -> Result<(), NoMemory>
        ensures same { SameCrossed self.new self.old }
        ensures room { OnOk result (length self.new.inverses + count ≤ self.new.room) }
        ensures more { self.old.room ≤ self.new.room }
    {
        self.places.reserve(count)?;
        Ok(())
    }

    /// Makes room to keep what makes the entries after this position again, once they are taken
    /// back.
    ///
    /// NoMemory where a growth is refused.
    pub fn reserve_forward(&mut self, position: usize) -> Result<(), NoMemory>
        ensures { self.new ≡ self.old }
    {
        let Some(walked) = self.places.get(position..self.made) else {
            return Ok(());
        };
        self.stack.reserve(moved_over(walked))?;
        Ok(())
    }

    /// Adds the inverse of an entry that is made. Nothing may be kept of entries after it.
    pub fn push(&mut self, inverse: Inverse)
        requires none { self.old.undone ≡ [] }
        requires room { length self.old.inverses < self.old.room }
        ensures inverses { self.new.inverses ≡ self.old.inverses ++ inverse ∷ [] }
        ensures undone { self.new.undone ≡ [] }
        ensures room { self.new.room ≡ self.old.room }
    {
        self.places.push_reserved(Crossing::from(inverse));
        self.made += 1;
    }

    /// Drops what is kept of entries that are not made.
    pub fn cut(&mut self)
        ensures inverses { self.new.inverses ≡ self.old.inverses }
        ensures undone { self.new.undone ≡ [] }
        ensures room { self.new.room ≡ self.old.room }
    {
        self.places.truncate(self.made);
        self.stack.clear();
    }

    /// Takes back the newest entry that is made, and keeps what makes it again, if there is room;
    /// else it keeps nothing at all, since what was taken back before goes on from there.
    ///
    /// `AtStart` if none is made; nothing has changed then.
    pub fn back(&mut self, machine: &mut Machine) -> Result<(), AtStart>
        requires leads { (rest : List TheInverse) (inverse : TheInverse) →
            self.old.inverses ≡ rest ++ inverse ∷ [] → LeadsBack machine.old inverse }
        ensures start { IsErr result ↔ (self.old.inverses ≡ []) }
        ensures back { OnOk result ((rest : List TheInverse) (inverse : TheInverse) →
            self.old.inverses ≡ rest ++ inverse ∷ [] →
            GoesBack machine.old self.old machine.new self.new rest inverse) }
        ensures err { OnErr result (self.new ≡ self.old) }
        ensures machine_err { OnErr result (machine.new ≡ machine.old) }
    {
        let Some(last) = self.made.checked_sub(1) else {
            return Err(AtStart);
        };
        let crossing = &mut self.places[last];
        if crossing.moved() <= self.stack.capacity() - self.stack.len() {
            machine.take_back(crossing, &mut self.stack);
            self.made = last;
        } else {
            self.cut();
            self.undo(machine);
        }
        Ok(())
    }

    /// Takes back the newest entry that is made, if nothing is kept of entries after it, and keeps
    /// nothing of it.
    fn undo(&mut self, machine: &mut Machine)
        requires none { self.old.undone ≡ [] }
        requires some { self.old.inverses ≢ [] }
        requires leads { (rest : List TheInverse) (inverse : TheInverse) →
            self.old.inverses ≡ rest ++ inverse ∷ [] → LeadsBack machine.old inverse }
        ensures back { (rest : List TheInverse) (inverse : TheInverse) →
            self.old.inverses ≡ rest ++ inverse ∷ [] →
            GoesBack machine.old self.old machine.new self.new rest inverse }
        ensures none { self.new.undone ≡ [] }
    {
        let Some(crossing) = self.places.pop() else {
            return;
        };
        let Some(inverse) = crossing.into_inverse() else {
            return;
        };
        self.made -= 1;
        machine.undo(inverse);
    }

    /// Makes the next entry again by what is kept of it.
    ///
    /// NoMemory where a growth is refused; all is then as it was.
    pub fn forward(&mut self, machine: &mut Machine) -> Result<(), NoMemory>
        requires kept { self.old.undone ≢ [] }
        requires leads { (undone : Undone) (rest : List Undone) →
            self.old.undone ≡ undone ∷ rest → LeadsOn machine.old undone self.old.stack }
        ensures forward { OnOk result ((undone : Undone) (rest : List Undone) →
            self.old.undone ≡ undone ∷ rest →
            GoesForward machine.old self.old machine.new self.new undone rest) }
        ensures err { OnErr result (self.new ≡ self.old) }
        ensures machine_err { OnErr result (machine.new ≡ machine.old) }
    {
        let crossing = &mut self.places[self.made];
        machine.redo(crossing, &mut self.stack)?;
        self.made += 1;
        Ok(())
    }
}

/// How many changes go onto the stack if these are taken back, or the most there may be if that is
/// less.
fn moved_over(crossings: &[Crossing]) -> usize {
    let mut count: usize = 0;
    for crossing in crossings {
        count = count.saturating_add(crossing.moved());
    }
    count
}
