//! Walks over the entries of a session, back and forward again.
ghost use Rattle.std.specs.Prelude.{◌≡◌, ◌≤◌, ◌<◌, ◌↔◌, ◌+◌, Err, IsErr, OnErr, OnOk, length};
ghost use Rattle.tx_journal.specs.Sessions.{IsAtEnd, IsBetween, SameJournal, position_of};
ghost use Rattle.tx_journal.specs.declared.faults.ForwardFault.TheVariants as forward;
ghost use Rattle.tx_journal.specs.declared.faults.GotoFault.TheVariants as goto;

use crate::faults::{AtStart, ForwardFault, GotoFault};
use crate::laws::laws;
use crate::session::Session;
use std::alloc::Global;
use tx_base::{NoMemory, Reply};
use tx_content::Inverse;

impl Session {
    /// Takes back the newest entry that is made. It takes no memory.
    ///
    /// `AtStart` if none is made; nothing has changed then.
    pub fn back(&mut self) -> Result<(), AtStart>
        ensures moved { OnOk result (position_of self.new + 1 ≡ position_of self.old) }
        ensures start { IsErr result ↔ (position_of self.old ≡ 0) }
        ensures refused { OnErr result (self.new ≡ self.old) }
        ensures journal { SameJournal self.new self.old }
    {
        self.machine.is_kept();
        self.journal.crossings.back(&mut self.machine)
    }

    /// Makes the entry after the position again: by exchange if what was taken back is kept, else
    /// by its step, which has the reply that it had.
    ///
    /// `AtEnd` if all entries are made, `NoMemory` if a growth is refused; nothing has changed
    /// then.
    pub fn forward(&mut self, alloc: Global) -> Result<(), ForwardFault>
        ensures moved { OnOk result (position_of self.new ≡ position_of self.old + 1) }
        ensures end { (result ≡ Err forward.AtEnd) ↔ IsAtEnd self.old }
        ensures refused { OnErr result (self.new ≡ self.old) }
        ensures journal { SameJournal self.new self.old }
    {
        if !self.journal.crossings.keeps_next() {
            return self.make_next(alloc);
        }
        let Ok(()) = self.journal.crossings.forward(&mut self.machine) else {
            return Err(ForwardFault::NoMemory);
        };
        Ok(())
    }

    /// Makes the entry after the position anew: its step has the reply that it had.
    ///
    /// `AtEnd` if all entries are made, `NoMemory` if a growth is refused; nothing has changed
    /// then.
    fn make_next(&mut self, alloc: Global) -> Result<(), ForwardFault>
        ensures moved { OnOk result (position_of self.new ≡ position_of self.old + 1) }
        ensures end { (result ≡ Err forward.AtEnd) ↔ IsAtEnd self.old }
        ensures refused { OnErr result (self.new ≡ self.old) }
        ensures journal { SameJournal self.new self.old }
    {
        laws();
        let position = self.position();
        let Some(entry) = self.journal.entries.get(position) else {
            return Err(ForwardFault::AtEnd);
        };
        let mut reply = Reply::Ended;
        let mut inverse = Inverse::blank();
        let is_made = self
            .machine
            .step_into(alloc, &entry.step, &mut reply, &mut inverse);
        if !is_made {
            return Err(ForwardFault::NoMemory);
        }
        self.journal.crossings.cut();
        self.journal.crossings.push(inverse);
        Ok(())
    }

    /// Goes to the position after this many entries, step by step: it pays for the entries between.
    ///
    /// `Beyond` if the journal has fewer entries; nothing has changed then. `NoMemory` if a growth
    /// is refused on the way forward: the position is then between the old one and the new one.
    pub fn goto(&mut self, alloc: Global, position: usize) -> Result<(), GotoFault>
        ensures moved { OnOk result (position_of self.new ≡ position) }
        ensures beyond { (result ≡ Err goto.Beyond) ↔ (length self.old.entries < position) }
        ensures unmoved { result ≡ Err goto.Beyond → self.new ≡ self.old }
        ensures stopped { result ≡ Err goto.NoMemory →
            IsBetween (position_of self.old) (position_of self.new) position }
        ensures journal { SameJournal self.new self.old }
    {
        if position > self.len() {
            return Err(GotoFault::Beyond);
        }
        self.back_to(position);
        match self.forward_to(alloc, position) {
            Ok(()) => Ok(()),
            Err(NoMemory) => Err(GotoFault::NoMemory),
        }
    }

    /// Takes back entries until at most this many are made.
    fn back_to(&mut self, position: usize)
        ensures moved { position ≤ position_of self.old → position_of self.new ≡ position }
        ensures stayed { position_of self.old ≤ position →
            position_of self.new ≡ position_of self.old }
        ensures journal { SameJournal self.new self.old }
    {
        while self.position() > position {
            let _moved = self.back();
        }
    }

    /// Makes entries again until this many are made, which the journal must have.
    ///
    /// `NoMemory` where a growth is refused; fewer are made then, and no fewer than before.
    fn forward_to(&mut self, alloc: Global, position: usize) -> Result<(), NoMemory>
        requires low { position_of self.old ≤ position }
        requires high { position ≤ length self.old.entries }
        ensures moved { OnOk result (position_of self.new ≡ position) }
        ensures stopped { OnErr result
            ((position_of self.old ≤ position_of self.new) × (position_of self.new < position)) }
        ensures journal { SameJournal self.new self.old }
    {
        while self.position() < position {
            if self.forward(alloc).is_err() {
                return Err(NoMemory);
            }
        }
        Ok(())
    }
}
