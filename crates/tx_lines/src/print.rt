//! Prints words, numbers and bytes, lists and sets of them, and the lines of schedules: the
//! counterpart of what reads them.

pub mod arguments;
pub mod bytes;
pub mod lists;
pub mod members;
pub mod numerals;
pub mod refusals;
pub mod steps;
pub mod words;
