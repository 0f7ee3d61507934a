#![tactic(auto)]
//! What is wrong with a text, for people: a line for each line at fault, with its number, the
//! column of the word at fault, and what was expected there.
//!
//! `check_text` first reads the text (`right.rt`). Where that fails, also for lack of memory, it
//! looks for the fault at which the command of the text's kind finds it (`kinds.rt`, `places.rt`,
//! `faults.rt`). It keeps no lines, and so takes no memory for that. Later lines at fault in their
//! places follow. `checks_for.rt` checks a text for one command, `session.rt` a line of a session.
//! A fault in a text of version 3 is reported of the line that means it (`own.rt`), in the words
//! of version 3 (`third.rt`).
//!
//! `diagnose/` finds the `Trouble` of a line by the readers of tx_lines, so that nothing passes
//! that the grammar refuses. `sentences.rt` words it, with each call's arguments (`forms.rt`), the
//! name nearest to a mistyped one (`near.rt`) and names from elsewhere (`habits.rt`).

mod checks;
mod checks_for;
mod command;
mod diagnose;
mod diagnostics;
mod faults;
mod forms;
mod habits;
mod heads;
mod kinds;
mod labels;
mod laws;
mod near;
mod own;
mod placed;
mod places;
mod reader_faults;
mod readers;
mod right;
mod sentences;
mod session;
mod third;
mod trouble;
mod words;

pub use checks::check_text;
pub use checks_for::check_text_for;
pub use command::{check, check_for};
pub use forms::CALLS;
pub use kinds::{Kind, kind_of};
pub use laws::a_text_is_read_or_has_one_fault;
pub use readers::Reader;
pub use sentences::put_shown;
pub use session::session_line;
