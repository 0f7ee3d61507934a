//! What there is to draw of a schedule.
use crate::passages::{Passage, Written};
use crate::rows::Row;
use crate::spans::Span;
use crate::waits::Wait;

/// What there is to draw of a schedule.
#[derive(Drop)]
pub struct Drawing {
    /// How many steps are before the first row.
    pub before: u16,
    /// Each step with its answer, in order.
    pub rows: Vec<Row>,
    /// Where each process runs, in the order in which they come.
    pub lanes: Vec<Span>,
    /// Where each process is a member of a transaction, in the order in which they join. The box of
    /// a transaction is the stretches of its members.
    pub strips: Vec<Span>,
    /// The writes to pipes so far, the newest first.
    pub written: Vec<Written>,
    /// What went through pipes, by the reads, the first one first.
    pub passages: Vec<Passage>,
    /// Who could end a wait, by the steps that wait, in order.
    pub waits: Vec<Wait>,
}
