//! What the words of the program mean, for people: refusals, faults, errors, replies, calls,
//! steps, the debugger's commands, and what states and texts are made of.
//!
//! `topics/` has a table for each group of words, with the pages. `specs/Table.antt` says again
//! which words there are, and each promise goes by that. `tests/texts/explained` compares the
//! pages with the documents.
#![tactic(auto)]

mod find;
mod list;
mod near;
mod topic;
mod topics;

pub use find::explain;
pub use list::listing;
pub use near::nearest;
pub use topics::shell::session_page;
