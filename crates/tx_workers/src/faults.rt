//! Why a run of workers gives nothing back.
use thiserror::Error;

/// Why a run of workers gives nothing back. It prints as its name.
#[derive(Clone, Copy, PartialEq, Eq, Debug, Error)]
pub enum WorkFault {
    /// A growth of memory was refused.
    #[error("F6")]
    NoMemory,
    /// What a worker noted is not what the journal has of it.
    #[error("F7")]
    Strayed,
    /// A thread could not be started.
    #[error("F8")]
    Spawn,
}
