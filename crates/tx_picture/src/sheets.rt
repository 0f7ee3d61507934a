//! What rows are drawn by.
use crate::captions::Captions;
use crate::spans::Span;
use tx_base::Pid;

/// What rows are drawn by.
#[derive(Clone, Copy)]
pub(crate) struct Sheet<'a> {
    /// The processes that have a column, from the left to the right.
    pub columns: &'a [Pid],
    /// Where each process is a member of a transaction.
    pub strips: &'a [Span],
    /// How many steps are before the first row.
    pub before: u16,
    /// The last row. Rows count from 1.
    pub last: u16,
    pub captions: &'a Captions<'a>,
}
