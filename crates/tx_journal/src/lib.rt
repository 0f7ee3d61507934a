#![tactic(auto)]
//! One history of steps, walked both ways.
//!
//! `Session` is a machine with all steps that it accepted: an `Entry` has step, worker and reply,
//! and beside it is what leads over it (`Crossings`). Nothing is replayed from the start: a walk
//! pays for the entries between. Its invariant (`IsJournal`): the journal is lawful from the
//! booted state, and from the machine's content each inverse leads back to what has the view of
//! one entry fewer (`WalksBack`). So where `forward` makes a step anew, its answer is the entry's
//! reply.
//!
//! After `cut` there is room still, since each entry that goes ended at most one transaction
//! (`Cut.antt`). `put_state` prints live transactions in one pass over the marks and
//! one over the starters.
//!
//! An entry's place is reserved before its step, or for many by `reserve`: a list that grows as it
//! needs would have room for twice its entries, and while it moves, for both. A transaction that
//! begins takes one place more, so its abort needs no memory (`HasRoom`): at most one more is live
//! after a step, and one less after an abort (`After.antt`, `Lives.antt`).
//!
//! `Retrace` is a content of tx_content that makes a history's steps again, from boot. `next`
//! answers a step's `Note`: its transaction's starter, and whether the step begins it, commits it,
//! or shows its moment. What a commit posts is read from the outbox before it is made.

mod crossings;
mod cuts;
mod entry;
mod faults;
mod journal;
mod laws;
mod making;
mod moved;
mod notes;
mod parted;
mod pieces;
mod posted;
mod reach;
mod reach_laws;
mod retrace;
mod retrace_laws;
mod rows;
mod session;
mod since;
mod state;
mod steps;
mod trials;
mod walks;

pub use entry::Entry;
pub use faults::{AtStart, ForwardFault, GotoFault, MovedFault};
pub use moved::Moved;
pub use pieces::{Piece, print_pieces, put_piece};
pub use rows::all_pieces;
pub use session::Session;
pub use since::Touch;
pub use state::{print_state, put_state};
