//! Processes, their parts, and the table of them by number. No exchange takes memory or is refused.
//!
//! `Proc` has public fields, so each is its own reader. `ProcTable` has a place for each number
//! from its start. It counts the children of each number (`child_count`), so that the end of a
//! process without children looks for none; a call keeps the counts at a cost that does not grow.
//! Processes are in boxes that the caller makes (`BoxedProc`), so that no call on the table takes
//! memory or moves a process.
//!
//! `Part` is one part of a process and another value for it; `Part::swap` exchanges the two. Laws:
//! twice is nothing, other parts stay, two parts may be exchanged in either order.
#![tactic(auto)]

mod boxed;
mod children;
mod laws;
mod proc;
mod table;

pub use boxed::{BoxedFrame, BoxedProc};
pub use laws::{commute, exchanges_back, nothing_else, twice_is_nothing};
pub use proc::{Answer, Part, Proc, Register};
pub use table::ProcTable;
