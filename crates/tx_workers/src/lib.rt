#![tactic(auto)]
//! Workers that run a program in turns, and what writes a run.
//!
//! `turn` finds the worker's next running process (`next.rt`), `turn_of` takes the turn of one:
//! `named.rt` finds the step that the program names, with the signals on offer (`offers.rt`), and
//! `turns.rt` makes it. All is defined over the view, so what a turn adds follows from the journal
//! before it. No turn looks above the highest number (`tops.rt`): only boots and forks add
//! processes, whatever is taken back (`proofs/Reached.antt`).
//!
//! A `Mutex` holds the `Desk`: the session, and the book of a ledger, of which each worker has a
//! share. Each lock gives `IsDesk`: the session has what was handed in and as many entries more as
//! the book counts, each named by the program on the view before it. Two members of the trait
//! `Work`, which only contracts see, say which program and session, so neither is copied or
//! compared.
//!
//! `run_workers` starts workers by recursion, each with a part of its share, and joins them. The
//! `Post` of a `Runner` promises its share and its entries' places. Then the book is audited,
//! `checked` compares the places with the journal, and `noted` copies the entries. `run_queue`
//! (`crew.rt`, `service.rt`) adds stations. A `Gate` is called around each turn, outside the lock.

mod compare;
mod crew;
mod desk;
mod faults;
mod floor;
mod gate;
mod named;
mod next;
mod offers;
mod ready;
mod results;
mod run;
mod runner;
mod service;
mod team;
mod text;
mod tops;
mod turns;
mod whole;
mod worker;

pub use faults::WorkFault;
pub use gate::{Gate, NoGate};
pub use ready::run_queue;
pub use results::Worked;
pub use run::run_workers;
pub use text::write_run;
pub use turns::{Took, turn, turn_of};
pub use tx_ready_queue::Tally;
pub use whole::{RunFault, run_from};
pub use worker::Worker;
