//! Why a text was not read, run or written.
ghost use Rattle.std.specs.Prelude.{◌≡◌};

use std::alloc::AllocError;
use thiserror::Error;
use tx_base::NoMemory;

/// Why the program wrote no text, or not the whole of it. It prints as its name, and its line.
#[derive(Clone, Copy, PartialEq, Eq, Debug, Error)]
pub enum Fault {
    /// The grammar has no such line. Lines count from 1.
    #[error("F1 line {line}")]
    NotALine { line: u64 },
    /// A label is not defined. That line is the first that uses it.
    #[error("F2 line {line}")]
    NoLabel { line: u64 },
    /// The line is too long, or one too many. Line 0 means the whole text.
    #[error("F3 line {line}")]
    TooLong { line: u64 },
    /// The reader failed, or was interrupted too often.
    #[error("F4")]
    Reader,
    /// The writer failed, took no byte, or was interrupted too often.
    #[error("F5")]
    Writer,
    /// A growth of memory was refused.
    #[error("F6")]
    NoMemory,
}

impl From<AllocError> for Fault {
    ghost use Rattle.tx_lines.specs.declared.faults.Fault.TheVariants.{NoMemory};

    ghost from_gives = { λ _ fault. fault ≡ NoMemory };

    fn from(_refused: AllocError) -> Fault {
        Fault::NoMemory
    }
}

impl From<NoMemory> for Fault {
    ghost use Rattle.tx_lines.specs.declared.faults.Fault.TheVariants.{NoMemory};

    ghost from_gives = { λ _ fault. fault ≡ NoMemory };

    fn from(_refused: NoMemory) -> Fault {
        Fault::NoMemory
    }
}
