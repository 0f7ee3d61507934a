//! The rows of a picture: the steps of a schedule.
use tx_base::{Pid, Reply, Step};

/// A step of a schedule.
#[derive(Drop)]
pub struct Row {
    pub step: Step,
    /// What it was answered.
    pub reply: Reply,
    /// The starter whose transaction holds what the step sends until its commit.
    pub holder: Option<Pid>,
}
