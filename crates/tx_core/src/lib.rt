#![tactic(auto)]
//! The machine: a kernel that takes steps, with transactions side by side and an inverse of every
//! accepted step.
//!
//! # The type
//!
//! `Machine` is a content of tx_content in a private field. That it is as steps leave it
//! (`IsContent`) is the type's invariant, so calls require nothing of a machine; those that take an
//! inverse require that it fits (`LeadsBack`, `LeadsOn`), which no machine checks.
//!
//! # Its calls
//!
//! - `boot`, `boot_wide`: a machine with processes 1 to N.
//! - `step`, `step_into`, `kernel_abort`: make a step. `step_into` puts reply and inverse into the
//!   caller's places, and uses the room of the inverse that was there.
//! - `undo`, `take_back`, `redo`: walk over a step; the last two leave in the inverse's place what
//!   leads over it again (`Crossing`).
//! - `run`, `run_wide`, `run_kept`: make the steps of a list. A step's place in the history is
//!   reserved before the step is made.
//! - `txn_of`, `marks`, `held`, `parts`, `processes`, `free_numbers`, `footprint`: read.
//!
//! Contracts above know only the view; logs and owners are in none.

mod free;
mod laws;
mod machine;
mod readers;
mod schedules;

pub use free::Free;
pub use machine::{Machine, NoTransaction, maker};
pub use schedules::{Kept, Ran, run, run_kept, run_wide};
