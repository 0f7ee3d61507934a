//! Why a session does not move.
use thiserror::Error;

/// No entry is made, so there is none to take back.
#[derive(Clone, Copy, PartialEq, Eq, Debug, Error)]
#[error("at the start")]
pub struct AtStart;

/// Why the next entry was not made.
#[derive(Clone, Copy, PartialEq, Eq, Debug, Error)]
pub enum ForwardFault {
    /// All entries are made.
    #[error("at the end")]
    AtEnd,
    /// A growth of memory was refused.
    #[error("no memory")]
    NoMemory,
}

/// Why a session did not come to a position.
#[derive(Clone, Copy, PartialEq, Eq, Debug, Error)]
pub enum GotoFault {
    /// The journal has fewer entries.
    #[error("no such position")]
    Beyond,
    /// A growth of memory was refused.
    #[error("no memory")]
    NoMemory,
}

/// Why there is no history in which the steps of a transaction are together.
#[derive(Clone, Copy, PartialEq, Eq, Debug, Error)]
pub enum MovedFault {
    /// The entry commits no transaction, or does not exist.
    #[error("no commit")]
    NotCommit,
    /// A growth of memory was refused.
    #[error("no memory")]
    NoMemory,
}
