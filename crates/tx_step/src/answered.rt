//! What an accepted step is answered.
use tx_kernel::Outcome;

/// What an accepted step is answered, in few bytes.
#[derive(Clone, Copy)]
pub enum Answered {
    /// What its process did.
    Acted(Outcome),
    /// Its transaction was committed. What could not be delivered is in its inverse.
    Committed,
    /// Its transaction was aborted, with this status.
    Aborted(u16),
}
