//! Reads the texts of schedules, of schedules with commands, and of programs.

pub mod byte_words;
pub mod calls;
pub mod command;
pub mod header;
pub mod heads;
pub mod instructions;
pub mod leading;
pub mod lines;
pub mod numbers;
pub mod program_lines;
pub mod program_text;
pub mod schedule;
pub mod search;
pub mod sets;
pub mod small;
pub mod spellings;
pub mod split;
pub mod steps;
pub mod text;
pub mod walk;
pub mod walk_text;
