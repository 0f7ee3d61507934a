//! The calls, by groups.
pub mod descriptors;
pub mod ids;
pub mod memory;
pub mod processes;
pub mod scripts;
pub mod signals;
pub mod transactions;
