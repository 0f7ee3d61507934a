//! What a process number is to the live transactions.
use crate::names::Pid;

/// The mark of a member of a live transaction.
#[derive(Clone, Copy)]
pub struct Mark {
    /// The process that began the transaction, whose number names it.
    pub starter: Pid,
    /// Whether the member has ended its part: by sys_xend, or by ending as a process.
    pub ended: bool,
    /// Whether the transaction defers deliveries to its members.
    pub defers: bool,
}
