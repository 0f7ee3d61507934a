#![tactic(auto)]
//! Live transactions, each with a log of old parts, and laws that say when such logs have the view
//! of the history.
//!
//! # Two states, no copy
//!
//! `LogKernel` is what such a kernel has: the state; for each live transaction a log, what would be
//! pending at its starter after an abort, and the starter's ids; the owner of each object; the
//! table. The kept state (`kept_of`) is nowhere: it is the state with the owner's log led back and
//! the kept pending signals put over it, so what the log's own records of these lead back to does
//! not matter.
//!
//! # Laws, on functions that do nothing
//!
//! - *logs keep*: in each role `next_content` has the next view and is as contents are (`IsKept`).
//!   Of the kept side a step reads only live starters' pending signals and ids. `Logs` is what it
//!   requires of records of a step inside: each is of an object that the step reserves, and
//!   together they lead its state back, the starter's pending signals apart.
//! - *logs lead back*: exchanges meet that, and go forward again.
//! - *events are made*: what tx_kernel made on the parts is its event, with the records of `Logs`.
//! - *answers of faces*: doom is SIGKILL in the kept set. Whether posts have two answers at a
//!   starter follows from its ids, whether it has ended, and how many signals are queued on each
//!   side (`faces_differ`). *Posts by faces*: of one post.
//! - *start is kept*: the first content has the first view.
//!
//! # The code
//!
//! - `Kept`: `post` posts to what is kept and answers what takes that back (`Unpost`), `unpost`
//!   what makes it again (`Repost`).
//! - `Outbox`: what is held, in order, each with a place for what its post will change
//!   (`HeldPost`), so a commit needs no memory.
//! - `Members`, `is_last_open`: marks go and come back over the transaction's objects, not the
//!   table.
//! - `Txn`: all this. `reserve` and `give_up`, `end` and `revive`, `lead_back` and `lead_forward`
//!   go and come back without memory.

mod kept;
mod laws;
mod members;
mod outbox;
mod txn;

pub use kept::{Kept, Repost, Unpost};
pub use laws::{
    answers_of_faces, events_are_made, events_leave_rest, logs_keep, logs_lead_back,
    posts_by_faces, start_is_kept,
};
pub use members::{Members, is_last_open};
pub use outbox::{HeldPost, Outbox};
pub use txn::Txn;
