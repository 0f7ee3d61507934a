#![tactic(auto)]
//! The parts of the kernel, and exchanges of one of them.
//!
//! `Parts` is the kernel's present content: the tables of processes, descriptions and pipes.
//! `Change` names one part of it, and owns another value for it. Nothing above changes a part in
//! any other way.
//!
//! # Exchanges
//!
//! `swap` exchanges the owned value with the present one, without memory or error. Laws: twice is
//! nothing; every other part stays; two exchanges commute where neither part holds the other (a
//! process number holds the parts of its process). What an exchange makes of the state is said in
//! words of that state, so that a call's rule is met by speaking of states.
//!
//! `apply` swaps a list from the first change to the last, `revert` from the last to the first. A
//! `Log` grows by plans: `make_from` makes them, `lead_back` and `give_back` lead old parts back,
//! `move_back` does so onto a stack, and `move_forward` makes them again.
//!
//! # What stays
//!
//! - `counts_with_others`, `counts_agree`, `counts_in_turn`: the counts of names, of one process
//!   beside all others, after calls, forks and ends, and after a plan's changes in turn.
//!   `room_for_names`: they give what tx_desc asks.
//! - `places_stay`: each process has a place for each slot, page, descriptor and action, forth and
//!   back.
//! - `changes_come_back`: changes taken back and made again are as they were.

mod answered;
mod change;
mod laws;
mod log;
mod part_laws;
mod parts;
mod pipes;
mod run;

pub use change::Change;
pub use laws::{
    appended, apply_then_revert, bytes_are_read_and_written, changes_come_back, changes_state,
    commute, counts_agree, counts_in_turn, counts_led_back, counts_with_others, exchanges_back,
    lists_change_state, moved_back_and_forward, names_its_object, nothing_else, places_stay,
    revert_then_apply, room_for_names, stays_named, twice_is_nothing,
};
pub use log::Log;
pub use parts::Parts;
pub use pipes::{BoxedPipe, PipePart, PipeTable};
pub use run::{apply, revert};
