#![tactic(auto)]
//! A committed transaction as one moment, as the contract of a function that does nothing.
//!
//! # The proof
//!
//! It goes along the history. At each place the transaction's steps so far are put after those of
//! all others (`Putting`; `IsPut` for what that leaves). A further step of the transaction comes
//! last anyway. One of another must pass them (`Passing`). It names nothing that they name, but it
//! may send their starter a signal. They do not look at the starter's signals and send it none, so
//! they do the same with that one pending. The signal is answered alike before and after them: one
//! with two answers is refused. Members stay the same (`OwnTables`, `OtherMarks`).
//!
//! # Unseen signals
//!
//! `Unseen` is the law of signals that nobody looks at. It goes by calls: each is followed with
//! other signals pending (`UnseenCalls`).

mod laws;
mod unseen;

ghost use Rattle.tx_moment.specs.Moments.{BootedHistoriesHaveMoments, CommitsAreMoments, PartsAreShuffled};

use crate::laws::laws;
use tx_laws::{well_formed, well_formed_table};
pub use unseen::unseen_signals;

/// A committed transaction whose starter looked at none of its signals, and was sent none by a
/// member's step, may count as made at the moment of its commit: with its steps put directly before
/// the step that commits it, each in its order, a lawful history leaves the same states and the
/// same live transactions, and each surviving step has the same reply. This holds for every lawful
/// history from a booted state. The steps of the transaction and those of others together are the
/// steps of the history.
pub fn one_moment()
    ensures moment { CommitsAreMoments }
    ensures booted { BootedHistoriesHaveMoments }
    ensures parts { PartsAreShuffled }
{
    laws();
    well_formed();
    well_formed_table();
}
