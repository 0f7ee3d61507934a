//! Numbers of things, and what a process has in its registers.
use crate::errors::Errno;

/// A process number: 1 to 64, on a wide machine 1 to 256, where a process may have it.
#[derive(Clone, Copy, PartialEq, Eq, Default)]
pub struct Pid(pub u16);

/// A signal number.
#[derive(Clone, Copy, PartialEq, Eq, Default)]
pub struct Signo(pub u8);

/// The number of an open description: 0 to 63, where a description may have it.
#[derive(Clone, Copy, PartialEq, Eq, Default)]
pub struct DescNo(pub u8);

/// The number of a pipe: 0 to 31, where a pipe may have it.
#[derive(Clone, Copy, PartialEq, Eq, Default)]
pub struct PipeNo(pub u8);

/// Where a process is in its script, the answer of its last call, and its eight slots.
#[derive(Clone, Copy)]
pub struct Regs {
    /// The next instruction: 0 to 65,535.
    pub point: u32,
    /// The answer of the last call; an error is a negative number.
    pub ret: i64,
    pub slots: [i64; 8],
}

/// A held send that could not be delivered at the commit.
#[derive(Clone, Copy, PartialEq, Eq, Default)]
pub struct Missed {
    pub target: Pid,
    pub signo: Signo,
    pub errno: Errno,
}

/// A signal on its way.
#[derive(Clone, Copy, Default)]
pub struct Sending {
    pub target: Pid,
    pub signo: Signo,
    /// What a realtime signal brings; a standard one brings 0.
    pub value: i64,
    /// The real and the effective user id of the sender, at the call. The kernel's own signals
    /// have no sender.
    pub from: Option<(u16, u16)>,
}
