//! The history in which the steps of a committed transaction are together.
ghost use Rattle.std.specs.Prelude.{◌≡◌, ◌≤◌, IfOk, None, Err, option_map};
ghost use Rattle.tx_journal.specs.Entries.{history_of};
ghost use Rattle.tx_journal.specs.Moved.{IsMoved, moved_at, moving_in};
ghost use Rattle.tx_journal.specs.Noted.{noted_back, notes_in};
ghost use Rattle.tx_journal.specs.Sessions.{start_of};
ghost use Rattle.tx_journal.specs.declared.faults.MovedFault.TheVariants as fault;
ghost use Rattle.tx_model.specs.Answer.{Lawful};
ghost use Rattle.tx_model.specs.State.{boot_state};

use crate::entry::Entry;
use crate::faults::MovedFault;
use crate::notes::Note;
use crate::parted::{commit_of, join, part};
use crate::retrace::Retrace;
use crate::session::Session;
use std::alloc::Global;
use tx_base::NoMemory;

/// A history in which the earlier steps of a transaction are directly before the step that commits
/// it, in their order. All other steps stay in their order.
#[derive(Drop)]
pub struct Moved {
    /// The numbers of all entries, in the order of that history.
    pub entries: Vec<usize>,
    /// Whether the transaction may count as one moment: its starter does not look at its signals in
    /// it, and nothing that is posted with a step of it goes to the starter.
    pub one_moment: bool,
}

impl Session {
    /// The history in which the steps of the transaction that the entry of that number commits are
    /// together. It makes the steps up to that entry once more, on a kernel of its own.
    ///
    /// `NotCommit` if the entry commits no transaction, or does not exist. `NoMemory` where a
    /// growth is refused.
    pub fn moved(&self, alloc: Global, number: usize) -> Result<Moved, MovedFault>
        ensures moved { IfOk result (IsMoved self.now number) }
        ensures not_commit { result ≡ Err fault.NotCommit →
            moved_at (start_of self.now) (history_of self.now.entries) number ≡ None }
    {
        self.is_lawful();
        match self.find_moved(alloc, number) {
            Ok(Some(moved)) => Ok(moved),
            Ok(None) => Err(MovedFault::NotCommit),
            Err(NoMemory) => Err(MovedFault::NoMemory),
        }
    }

    /// What `moved` answers; none if the entry of that number commits no transaction, or does not
    /// exist.
    fn find_moved(&self, alloc: Global, number: usize) -> Result<Option<Moved>, NoMemory>
        ensures { IfOk result (λ moved.
            option_map moving_in moved
            ≡ moved_at (start_of self.now) (history_of self.now.entries) number) }
    {
        let Some(entries) = self.journal.entries.as_slice().get(..number) else {
            return Ok(None);
        };
        let notes = notes_of(alloc, self.processes(), self.count(), entries)?;
        let Some((last, earlier)) = notes.split_last() else {
            return Ok(None);
        };
        let Some(starter) = commit_of(last) else {
            return Ok(None);
        };
        let parted = part(alloc, earlier, starter)?;
        let entries = join(alloc, self.len(), number, &parted)?;
        Ok(Some(Moved {
            entries,
            one_moment: !last.reveals && parted.silent,
        }))
    }
}

/// What each step is to its transaction, the oldest first. A kernel booted alike makes them once
/// more.
///
/// NoMemory where a growth is refused.
fn notes_of(alloc: Global, width: u16, count: u16, entries: &[Entry]) -> Result<Vec<Note>, NoMemory>
    requires low { 1 ≤ count }
    requires high { count ≤ width }
    requires wide { width ≤ 256 }
    requires lawful { Lawful (boot_state width count) (history_of entries.now) }
    ensures { IfOk result (λ notes.
        noted_back notes.items ≡ notes_in (boot_state width count) (history_of entries.now)) }
{
    let mut retrace = Retrace::boot(alloc, width, count)?;
    let mut notes = Vec::new(alloc);
    for entry in entries {
        let note = retrace.next(alloc, &entry.step)?;
        notes.push(note)?;
    }
    Ok(notes)
}
