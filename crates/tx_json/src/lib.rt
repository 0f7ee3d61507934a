//! The JSON that is printed: a line for each answer, with the members of a reply and the object of
//! a state; and its writer, for answers with more members.
#![tactic(auto)]

mod answers;
mod descriptors;
mod holders;
mod line;
mod lists;
mod members;
mod processes;
mod replies;
mod signals;
mod state;
mod txns;

pub use answers::{
    begin_lines, empty_answer, end_answer, entry_answer, error_answer, position_answer, put_entry,
    put_step_answer, state_answer, trial_answer,
};
pub use holders::{Holder, put_holder_list, put_holders};
pub use line::LineWriter;
pub use lists::put_count_item;
pub use members::{
    begin_list, begin_object, end_list, end_object, put_count, put_flag, put_key, put_null,
    put_word,
};
pub use replies::put_reply;
