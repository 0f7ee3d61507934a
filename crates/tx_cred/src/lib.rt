//! The user and group ids of a process, the calls that change them, and who may signal whom.
//!
//! Contracts see the six ids of a `Cred` as the definitions do. The calls change it in place, or
//! answer an error with nothing changed. None takes memory.
#![tactic(auto)]

mod cred;

pub use cred::{Cred, may_signal};
