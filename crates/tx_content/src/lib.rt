#![tactic(auto)]
//! What the machine keeps of live transactions, and what a step makes of it, by its role.
//!
//! # The content
//!
//! `Content` has the parts, a mark for each process number, an owner for each object, and a `Txn`
//! for each live starter. `content_of` reads it as the kernel of tx_txn's laws.
//!
//! Descriptions count their names, which the definitions do not have. Others open and close
//! descriptors while a transaction lives, so `IsTxn` says that its log, led back now, leaves right
//! counts. Steps of others keep that: of what the transaction owns they change only what is pending
//! at its starter.
//!
//! # The roles
//!
//! Each function plans the act (`Act` of tx_kernel), exchanges it, and gives what `undo` takes
//! (`Inverse`):
//!
//! - `make_outside`: its signal is posted to what is kept of the target too, if that is a live
//!   starter.
//! - `begin`: the new box keeps what is pending at the starter; its log has the answer 0.
//! - `make_inside`: changes go onto the transaction's log, what is handed out into the outbox; the
//!   caller's footprint is reserved; parking or joining changes one mark (`Progress`).
//! - `commit`: as `make_inside`; then the outbox is posted in order, also to what is kept of other
//!   starters. Each held signal's place keeps its answer and what it changed.
//! - `abort`: the log is led back, what was kept is pending, the starter has its answer, and marks
//!   and owners go.
//!
//! # Walks
//!
//! `take_back` undoes the step of a `Crossing` and leaves what makes it again (`Undone`), for
//! `redo`. Of most steps the same struct leads both ways (`Turn`): what it has is exchanged. A
//! commit posts again, since a post changes only what is pending; an abort leads back again.
//!
//! # Room
//!
//! Inverses are large, so a step puts its own into the caller's place, and a step outside uses the
//! log of the one there. For the next ones, `TxnTable` keeps one ended transaction's box and one
//! log of a step outside, each with at most 2,048 old parts. Contracts see only the boxes.

mod aborts;
mod begins;
mod boot;
mod commits;
mod content;
mod crossing;
mod held_posts;
mod inside;
mod inverse;
mod kept_posts;
mod laws;
mod marking;
mod member_step;
mod outside;
mod planning;
mod redo;
mod table;
mod take_back;
mod undo;
mod undone;

pub use content::{BoxedTxn, Content};
pub use crossing::{Crossing, Turn};
pub use inverse::Inverse;
pub use kept_posts::{KeptPost, TakenPost};
pub use marking::{Marked, Member, Progress};
pub use member_step::MemberStep;
pub use table::TxnTable;
pub use undone::Undone;
