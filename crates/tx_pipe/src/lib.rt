//! The bytes of a pipe, kept in the value itself. No call takes memory.
//!
//! `write` and `read` are those of the definitions; `put_back` and `take_back` undo them.
//! `swap_front` and `swap_back` exchange the first or last so many bytes for others: a read
//! exchanges the bytes that it takes for none, a write none for those that it appends, and the same
//! exchange again takes either back.
#![tactic(auto)]

mod laws;
mod pipe;

pub use laws::{back_twice, front_twice, put_back_undoes_read, take_back_undoes_write};
pub use pipe::Pipe;
