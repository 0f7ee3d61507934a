#![tactic(auto)]
//! Who could end the wait of a step.
//!
//! `awaited_holders` lists each descriptor that is open for the other side of the pipe that a step
//! waits for, and `add_holders` those that name what is sought: a side of a pipe, or a description
//! (`holders.rt`). `Kind` has the kinds of objects that steps name, and the limits of their numbers
//! (`kinds.rt`).

mod holders;
mod kinds;

pub use holders::{Sought, add_holders, awaited_holders};
pub use kinds::Kind;
