#![tactic(auto)]
//! Compares the replies to the steps of a schedule with those that its text expects.
//!
//! After a step of a text of version 3 a comment `# = REPLY` has the expected reply; after the
//! last step `# state` and comments `# = LINE` have the state. `expect_text` makes the steps
//! (tx_script) and goes over the lines again (`judges.rt`): a reply is the expected one where the
//! comment has the words of one of its spellings (`agreement.rt`). States are compared up to the
//! first difference. `check_too` reports expectations that no reply meets, or in the wrong place,
//! and second names of a process.

mod agreement;
mod checks;
mod command;
mod comments;
mod judges;
mod laws;
mod naming;
mod outcomes;
mod sentences;
mod spellings;
mod states;
mod tallies;

pub use checks::check_too;
pub use command::expect;
pub use laws::steps_are_reported_unless_they_agree;
pub use outcomes::{Outcome, expect_text};
