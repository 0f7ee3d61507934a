//! Why a call on pages is refused.
ghost use Rattle.std.specs.Prelude.{◌≡◌};

use thiserror::Error;
use tx_base::NoMemory;

/// Why a call on pages is refused. The pages are then as they were.
#[derive(Clone, Copy, Debug, Error)]
pub enum PageError {
    /// No such page number, or a page that is mapped already, or one that is not mapped.
    #[error("not a page, or mapped otherwise")]
    Invalid,
    /// A range of bytes that is not good: past the last address, on a page that is not mapped, or
    /// to be written where no writes may go.
    #[error("bad address")]
    Fault,
    /// A growth of memory was refused.
    #[error("no memory")]
    NoMemory,
}

impl From<NoMemory> for PageError {
    ghost use Rattle.tx_pages.specs.declared.errors.PageError.TheVariants.{NoMemory};

    ghost from_gives = { λ _ error. error ≡ NoMemory };

    fn from(_refused: NoMemory) -> PageError {
        PageError::NoMemory
    }
}
