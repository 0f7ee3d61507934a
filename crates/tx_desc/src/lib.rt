//! The descriptors of a process, and the open descriptions that they name. No call takes memory.
//!
//! `FdTable` has what the descriptors of a process name, `Descs` the descriptions with the counts
//! of their names. The definitions count nothing: a description is there exactly while a running
//! process's descriptor names it. So a call's contract says three things: its answer and
//! descriptors are the rule's (`answer`); so are the descriptions, in every state that has those
//! before and whose counts agree (`descriptions`); and the counts agree again, whatever other
//! processes name (`counts`). `Agrees` is that, over the descriptors of any processes, in any
//! order.
//!
//! A plan (`plan_dup`, ..) reads, and says what is put in place. A call is its plan and the
//! exchanges, so each rule is proved once. Calls ask that the descriptions they count are there
//! with room (`HasRoom`, `IsBacked`), which agreement gives: `room_for_names`.
#![tactic(auto)]

mod calls;
mod counts;
mod descs;
mod ends;
mod given;
mod laws;
mod numbers;
mod opened;
mod planning;
mod plans;
mod table;

pub use descs::Descs;
pub use given::{Given, Renamed};
pub use laws::{
    any_order, counts_kept, named_by_processes, none_named_at_first, room_for_names,
    there_while_named,
};
pub use opened::{Desc, Opened, Side};
pub use plans::{ClosePlan, Dup2Plan, DupPlan, NewDesc, NewName, PipePlan, Rename};
pub use table::FdTable;
