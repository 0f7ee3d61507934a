//! The ready queue: the numbers of the processes that may run, shared by a kernel's worker
//! threads.
//!
//! Each worker has a `Station`: it takes a number, gives that process a turn elsewhere, and puts
//! the number back. By its invariant it counts what its pass put and took. The station with all
//! parts may `close` the queue.
//!
//! `ReadyQueue` is over `RuledArrayQueue` of `crossbeam_queue`. Its rule (`Balanced`): however the
//! numbers are weighed, what all passes put is what all took and what the queue holds. Each call
//! keeps the rule in its one step, so nothing is said of other threads.
#![tactic(auto)]

mod counts;
mod queue;
mod rule;
mod station;
mod tally;

pub use queue::ReadyQueue;
pub use rule::Hand;
pub use station::Station;
pub use tally::Tally;

/// How many process numbers there are at most: 1 to 256.
pub const MOST: usize = 256;
