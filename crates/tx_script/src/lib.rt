//! Answers schedules, and the commands that walk over them.
//!
//! `replay` makes the steps of a schedule on a machine, and takes none back: each inverse replaces
//! the one before. `debug` makes them in a `Session` (`made.rt`); `walk` does what a command says,
//! and gives its `Response`, printed in a `Form`. `write_json` answers both kinds of texts by
//! lines of JSON, `run_lines` a run.
//!
//! A `Grammar` of specs says what texts of a kind spell, where one is at fault and what answers
//! it. `schedules` and `walks` are two, and one definition (`Answers`) says of both what is read
//! and written.
#![tactic(auto)]

mod answered;
mod as_json;
mod commands;
mod debugs;
mod forms;
mod machines;
mod made;
mod replays;
mod reports;
mod responses;
mod walks;

pub use answered::{Answered, make_all, make_step};
pub use as_json::{json_text, response_line, run_lines, write_json};
pub use debugs::{debug, debug_text};
pub use forms::Form;
pub use machines::boot;
pub use made::WORKER;
pub use replays::{replay, replay_text};
pub use reports::report;
pub use responses::{Response, put_response};
pub use tx_lines::{Fault, Flow, OverRead, OverWrite, Program, Sink, Source};
pub use tx_translate::read_program;
pub use walks::walk;
