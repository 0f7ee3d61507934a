//! What a journal holds.
use tx_base::{Reply, Step};

/// A step that was accepted, with the worker that made it and its reply.
#[derive(Drop)]
pub struct Entry {
    pub step: Step,
    /// The worker's number, from 1; a schedule's steps are made by worker 1.
    pub worker: u16,
    pub reply: Reply,
}
