//! Whether workers kept exactly the places of their entries in the journal.
ghost use Rattle.std.specs.Prelude.{◌≡◌, All, IsTrue};
ghost use Rattle.tx_workers.specs.Teams.{places_of};

use crate::runner::Runner;
use tx_journal::Entry;

/// Whether each worker kept exactly the places of its own entries, in order, among those that the
/// journal has after so many.
pub fn are_noted(added: &[Entry], start: usize, runners: &[Runner]) -> bool
    ensures { IsTrue result →
        All (λ runner. runner.made.items ≡ places_of runner.number start added.now) runners.now }
{
    for runner in runners {
        if !is_noted(added, start, runner.number, runner.made.as_slice()) {
            return false;
        }
    }
    true
}

/// Whether these are the places of the entries of the worker of that number, in order.
fn is_noted(added: &[Entry], start: usize, number: u16, made: &[usize]) -> bool
    ensures { IsTrue result → made.now ≡ places_of number start added.now }
{
    let mut rest = made;
    let mut left = added;
    let mut place = start;
    while let Some((entry, later)) = left.split_first() {
        let Some(next) = place.checked_add(1) else {
            return false; // no journal is so long
        };
        if entry.worker == number {
            let Some((first, others)) = rest.split_first() else {
                return false;
            };
            if *first != place {
                return false;
            }
            rest = others;
        }
        left = later;
        place = next;
    }
    rest.is_empty()
}
