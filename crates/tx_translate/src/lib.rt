#![tactic(auto)]
//! Texts as people write them, "version 3": the text of version 2 that one means.
//!
//! `plain_text` translates a text for the readers of version 2. Each word of a line is appended as
//! version 2 spells it, by its role in its call (`roles.rt`). What is wrong stays as it is, so
//! that the reader refuses it in its line. A line that names a process means none (`names.rt`);
//! `Written` has the names, and the steps as their author wrote them. A step that is spelled
//! nearly as in version 2 is read without making that line (`respelled.rt`).

mod arguments;
mod byte_words;
mod command;
mod first_lines;
mod laws;
mod lines;
mod meant;
mod meant_lines;
mod names;
mod plain;
mod plain_lines;
mod programs;
mod reading;
mod respelled;
mod roles;
mod room;
mod schedules;
mod sets;
mod signals;
mod single;
mod spellings;
mod stage;
mod strings;
mod texts;
mod walks;
mod words;
mod written;

pub use command::write_plain;
pub use laws::second_stays_itself;
pub use lines::split_line;
pub use meant::Meant;
pub use meant_lines::{MeantLines, OwnLine};
pub use names::{NAME_BYTES, Naming, is_name, naming_in, process_in};
pub use plain::{Plain, is_third, plain_text};
pub use programs::read_program;
pub use roles::{Role, role_of};
pub use room::Room;
pub use schedules::read_schedule;
pub use signals::signal;
pub use single::plain_line;
pub use texts::{Text, read_text};
pub use walks::read_walk;
pub use words::{Word, split_word, words_in};
pub use written::{Named, Written};
