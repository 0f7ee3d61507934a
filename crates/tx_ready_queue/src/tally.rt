//! The tally at the end of a ready queue.
use crate::MOST;

/// What was put into a ready queue, what was taken from it and what is left, when all stations are
/// one again: of the number p at the place p - 1, and 0 where no number is.
#[derive(Clone, Copy)]
pub struct Tally {
    /// How often each number was put.
    pub pushed: [u64; MOST],
    /// How often each number was taken.
    pub popped: [u64; MOST],
    /// How often each number was in the queue at its end.
    pub left: [u64; MOST],
}
