//! What is called before and after each turn.

/// Called before and after each turn of a worker. It may wait there, so that a test can order the
/// turns.
pub trait Gate {
    /// The worker of that number comes to a turn, counted from 1.
    fn enter(&self, worker: u16, turn: u32);

    /// It has taken the turn.
    fn leave(&self, worker: u16, turn: u32);
}

/// Lets all workers pass.
#[derive(Clone, Copy)]
pub struct NoGate;

impl Gate for NoGate {
    fn enter(&self, _worker: u16, _turn: u32) {}

    fn leave(&self, _worker: u16, _turn: u32) {}
}
