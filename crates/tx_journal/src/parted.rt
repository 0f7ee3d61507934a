//! Parts the entries of a history by the notes of its steps.
ghost use Rattle.std.specs.Prelude.{◌≡◌, ◌++◌, ◌∷◌, ◌-◌, ◌&&◌, IfOk, OnOk, option_map, reverse};
ghost use Rattle.tx_journal.specs.Moved.{numbers_above};
ghost use Rattle.tx_journal.specs.Noted.{begins_its, commit_of, is_silent_by, is_starter, noted_back, parted_by};
ghost use Rattle.tx_reserve.specs.Reservations.{number_of};
ghost use Rattle.tx_journal.specs.Notes.{noted};

use crate::notes::Note;
use std::alloc::{AllocError, Global};
use tx_base::Pid;

/// The numbers of the entries before one that commits a transaction, each the newest first.
#[derive(Drop)]
pub(crate) struct Parted {
    /// Those of the transaction, back to its first.
    pub own: Vec<usize>,
    /// All others.
    pub others: Vec<usize>,
    /// Whether none of the first shows the transaction's moment.
    pub silent: bool,
}

/// The starter of the transaction that a step commits. None if it commits none.
pub(crate) fn commit_of(note: &Note) -> Option<Pid>
    ensures { option_map number_of result ≡ commit_of (noted note.now) }
{
    if note.commits { note.starter } else { None }
}

/// Parts the entries of the noted steps, for the transaction of the starter that lives after the
/// last of them.
///
/// An error where a growth of memory is refused.
pub(crate) fn part(alloc: Global, notes: &[Note], starter: Pid) -> Result<Parted, AllocError>
    ensures own { IfOk result (λ parted.
        parted.own.items ≡ (parted_by starter.0 (noted_back notes.now)).own) }
    ensures others { IfOk result (λ parted.
        parted.others.items ≡ (parted_by starter.0 (noted_back notes.now)).others) }
    ensures silent { IfOk result (λ parted.
        parted.silent ≡ is_silent_by starter.0 (noted_back notes.now)) }
{
    let mut parted = Parted {
        own: Vec::new(alloc),
        others: Vec::new(alloc),
        silent: true,
    };
    let mut left = notes;
    while let Some((note, earlier)) = left.split_last() {
        if begins_its(note, starter) {
            parted.own.push(left.len())?;
            push_down(&mut parted.others, earlier.len(), 0)?;
            return Ok(parted);
        }
        if is_by(note, starter) {
            parted.own.push(left.len())?;
            parted.silent = parted.silent && !note.reveals;
        } else {
            parted.others.push(left.len())?;
        }
        left = earlier;
    }
    Ok(parted)
}

/// Whether a step is of the transaction of the starter that lives then.
fn is_by(note: &Note, starter: Pid) -> bool
    ensures { result ≡ is_starter starter.0 (noted note.now).starter }
{
    note.starter.is_some_and(|by| by == starter)
}

/// Whether a step is the first one of that transaction.
fn begins_its(note: &Note, starter: Pid) -> bool
    ensures { result ≡ begins_its starter.0 (noted note.now) }
{
    note.begins && is_by(note, starter)
}

/// The numbers of this many entries, with the entries of a transaction directly before the one of
/// that number, which commits it.
///
/// An error where a growth of memory is refused.
pub(crate) fn join(
    alloc: Global,
    len: usize,
    number: usize,
    parted: &Parted,
) -> Result<Vec<usize>, AllocError>
    ensures { IfOk result (λ entries.
        entries.items ≡ reverse
        (numbers_above number (len - number) ++ number ∷ parted.now.own.items
        ++ parted.now.others.items)) }
{
    let mut entries = Vec::new(alloc);
    push_down(&mut entries, len, number)?;
    entries.push(number)?;
    entries.extend_from_slice(parted.own.as_slice())?;
    entries.extend_from_slice(parted.others.as_slice())?;
    entries.reverse();
    Ok(entries)
}

/// Adds the numbers from one down to another, without the latter.
///
/// An error where a growth of memory is refused.
fn push_down(numbers: &mut Vec<usize>, from: usize, to: usize) -> Result<(), AllocError>
    ensures { OnOk result (numbers.new.items ≡ numbers.old.items ++ numbers_above to (from - to)) }
{
    let mut number = from;
    while number > to {
        numbers.push(number)?;
        number -= 1;
    }
    Ok(())
}
