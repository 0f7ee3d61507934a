//! The ends that a text is read from and written to.

pub mod flow;
pub mod over;
pub mod whole;
