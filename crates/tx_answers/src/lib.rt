//! Whole texts, and their answers into a caller's buffer: what txos_c gives C.
//!
//! Answers are those of the program's commands, with the words of a fault (`faults.rt`);
//! `Answer::hand_out` hands one out (`answers.rt`). This is a crate of its own so that the archive
//! for C is made without proving it again.
#![tactic(auto)]

mod answers;
mod faults;
mod sessions;
mod texts;

pub use answers::Answer;
pub use sessions::{form_of, served};
pub use texts::{checked, replayed, walked};
