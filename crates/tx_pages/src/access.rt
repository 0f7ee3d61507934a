//! What ranges of bytes are wanted for.

/// What a range of bytes is wanted for.
#[derive(Clone, Copy)]
pub enum Access {
    Read,
    Write,
}
