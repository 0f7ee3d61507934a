//! Runs and walks, each call in a function of its own, since its clauses are long.
use std::alloc::Global;
use tx_base::{NoMemory, Step};
use tx_core::{Kept, Ran, run, run_kept};
use tx_journal::{GotoFault, Session};

/// The run of a schedule from so many processes, 1 to 64.
pub(crate) fn ran(alloc: Global, count: u16, steps: &[Step]) -> Result<Ran, NoMemory> {
    run(alloc, count.clamp(1, 64), steps)
}

/// The run of a schedule from two processes, up to where it stops.
pub(crate) fn kept(alloc: Global, steps: &[Step]) -> Result<Kept, NoMemory> {
    run_kept(alloc, 2, steps)
}

/// Goes to a position of a session.
pub(crate) fn go(alloc: Global, session: &mut Session, position: usize) -> Result<(), GotoFault> {
    session.goto(alloc, position)
}
