//! The error numbers of the calls, and want of memory.
ghost use Rattle.std.specs.Prelude.{◌≡◌};
ghost use Rattle.tx_base.specs.Errors.{error_answer, error_number};

use std::alloc::{AllocError, AllocFailed};
use thiserror::Error;

/// An error of a call. Its number is the one that the call answers, as a negative number.
#[derive(Clone, Copy, PartialEq, Eq, Default)]
pub enum Errno {
    /// EPERM
    #[default]
    NotPermitted,
    /// ESRCH
    NoSuchProcess,
    /// EBADF
    BadDescriptor,
    /// ECHILD
    NoChild,
    /// EAGAIN
    TryAgain,
    /// EFAULT
    BadAddress,
    /// EINVAL
    InvalidArgument,
    /// EMFILE
    TooManyDescriptors,
    /// EPIPE
    BrokenPipe,
}

impl Errno {
    /// The positive number of the error (own numbers, those of Linux).
    pub fn number(self) -> u8
        ensures { result ≡ error_number self }
    {
        match self {
            Errno::NotPermitted => 1,
            Errno::NoSuchProcess => 3,
            Errno::BadDescriptor => 9,
            Errno::NoChild => 10,
            Errno::TryAgain => 11,
            Errno::BadAddress => 14,
            Errno::InvalidArgument => 22,
            Errno::TooManyDescriptors => 24,
            Errno::BrokenPipe => 32,
        }
    }

    /// The answer of a call that has this error: its number as a negative one.
    pub fn answer(self) -> i64
        ensures { result ≡ error_answer self }
    {
        -i64::from(self.number())
    }
}

/// A growth of memory was refused.
#[derive(Clone, Copy, Debug, Error)]
#[error("no memory")]
pub struct NoMemory;

impl From<AllocError> for NoMemory {
    fn from(_refused: AllocError) -> NoMemory {
        NoMemory
    }
}

impl<T: Drop> From<AllocFailed<T>> for NoMemory {
    fn from(_refused: AllocFailed<T>) -> NoMemory {
        NoMemory
    }
}
