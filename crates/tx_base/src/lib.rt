//! Names, limits and plain types of the kernel, shared by every crate above.
//!
//! The definitions use these types, so there is no second form of a call or a reply to keep in
//! step. `Accepted` is a step with its reply, which is what a history holds; `Mark` is what a
//! process number is to the live transactions.
//!
//! `Slots` is a table with a place for each process number of a narrow or wide machine. Its room is
//! taken when it is made. `get` reads a slot, `swap` exchanges one, without memory and without an
//! error.
#![tactic(auto)]

mod errors;
mod limits;
mod marks;
mod names;
mod numbers;
mod signals;
mod slots;
mod steps;

pub use errors::{Errno, NoMemory};
pub use limits::{
    ABORTED_BY_CALL, ABORTED_BY_KERNEL, ABORTED_DOOMED, ADDRESSES, CLOSED_INSIDE, CONSOLE_BYTES,
    DESCRIPTIONS, DESCRIPTORS, FRAMES, HELD_SENDS, LAST_ID, LAST_POINT, PAGE_BYTES, PAGES,
    PIPE_BYTES, PIPES, PROCESSES, QUEUED, SIGNALS, SLOTS, STORE_BYTES, UNDELIVERED, WIDE_PROCESSES,
};
pub use marks::Mark;
pub use names::{DescNo, Missed, Pid, PipeNo, Regs, Sending, Signo};
pub use numbers::number_below;
pub use signals::{Action, How, SIGCHLD, SIGKILL, SIGPIPE, SigSet};
pub use slots::Slots;
pub use steps::{Accepted, Call, Refusal, Reply, Step, When};
