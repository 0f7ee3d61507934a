#![tactic(auto)]
//! The lines of texts: reads schedules, schedules with commands and programs, and prints words,
//! numbers, sets and steps. It knows the grammar, and nothing of a machine.
//!
//! `calls.rt` is the table of calls. Texts come from a `Source` and go to a `Sink`, whose
//! contracts name the bytes and count interruptions and failures.
//!
//! The most frequent calls are known by the front of their text, others by their first word: each
//! group reads its own names, and hands others on. A program is read line by line and then linked,
//! which makes points of labels. So that calls have one reader, an instruction is read as a call
//! of a schedule (`read_call`), with `0` in place of its slots and labels (`read/spellings.rt`);
//! then its spellings are judged. `filling.rt` makes the call that a process makes by it.

mod calls;
mod ends;
mod faults;
mod filling;
mod instructions;
mod print;
mod programs;
mod read;

pub use ends::flow::{Flow, Sink, Source};
pub use ends::over::{OverRead, OverWrite};
pub use ends::whole::{TEXT_BYTES, read_whole, write_whole};
pub use faults::Fault;
pub use instructions::{Instruction, Line, Name, Spelling};
pub use print::bytes::put_bytes;
pub use print::lists::put_numbers;
pub use print::members::{dash, put_member, put_set};
pub use print::numerals::Numeral;
pub use print::refusals::refusal_word;
pub use print::steps::put_step;
pub use print::words::{put, put_byte, put_count, put_count_first, put_number};
pub use programs::{Program, read_program};
pub use read::byte_words::read_bytes;
pub use read::command::{Command, read_command};
pub use read::header::{Header, TextKind, Version};
pub use read::heads::first_header;
pub use read::lines::{LINE_BYTES, LINES, take_line};
pub use read::numbers::number;
pub use read::program_lines::{INSTRUCTIONS, LABELS, push_line, read_line};
pub use read::program_text::{link, read_program_text};
pub use read::schedule::Schedule;
pub use read::sets::read_set;
pub use read::small::{read_byte, read_pid, read_position};
pub use read::spellings::read_name;
pub use read::split::{split_at, split_word};
pub use read::steps::{read_step, read_step_into};
pub use read::text::read_schedule;
pub use read::walk::Walk;
pub use read::walk_text::read_walk;
