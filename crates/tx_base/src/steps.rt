//! What a process asks for, and what it is answered.
ghost use Rattle.std.specs.Prelude.{◌≡◌, ◌↔◌, IsTrue};

use crate::errors::NoMemory;
use crate::names::{DescNo, Missed, Pid, PipeNo, Signo};
use crate::signals::{Action, How, SigSet};
use arrayvec::ArrayVec;

/// When a jump is made. Own rule.
#[derive(Clone, Copy, PartialEq, Eq)]
pub enum When {
    Always,
    /// Where the last answer is this number.
    IfRet(i64),
}

/// A call of a process. A number that a program computes is an `i64`; each value out of range
/// has its stated error.
#[derive(Drop)]
pub enum Call {
    /// Maps a page of zeros that may be written. Own rule.
    Map(i64),
    /// Takes a page out. Own rule.
    Unmap(i64),
    /// Sets whether a page may be written. Own rule.
    Protect(i64, bool),
    /// Stores bytes from an address on. Own rule.
    Store(i64, ArrayVec<u8, 64>),
    /// Reads the byte at an address. Own rule.
    Load(i64),
    /// Makes a child with this number (XSH, `fork()`).
    Fork(Pid),
    /// Ends the process with this status modulo 256 (XSH, `_exit()`).
    Exit(i64),
    /// Takes the status of the child of this number, and says whether not to wait for it (XSH,
    /// `waitpid()`).
    Waitpid(i64, bool),
    /// Answers the process's number (XSH, `getpid()`).
    Getpid,
    /// Answers the parent's number (XSH, `getppid()`).
    Getppid,
    /// Sets the user ids (XSH, `setuid()`).
    Setuid(i64),
    /// Sets the effective user id (XSH, `seteuid()`).
    Seteuid(i64),
    /// Sets the group ids (XSH, `setgid()`).
    Setgid(i64),
    /// Sets the effective group id (XSH, `setegid()`).
    Setegid(i64),
    /// Makes the pipe of that number with the descriptions of its two sides, the one to read from
    /// first (XSH, `pipe()`).
    Pipe(PipeNo, DescNo, DescNo),
    /// Gives a description the lowest free descriptor too (XSH, `dup()`).
    Dup(i64),
    /// Gives the description of the first descriptor the second too (XSH, `dup2()`).
    Dup2(i64, i64),
    /// Closes a descriptor (XSH, `close()`).
    Close(i64),
    /// Sets whether reads and writes are refused where they would wait (XSH, `fcntl()`,
    /// O_NONBLOCK).
    SetNonblock(i64, bool),
    /// Reads from a descriptor to an address up to so many bytes (XSH, `read()`).
    Read(i64, i64, i64),
    /// Writes to a descriptor from an address so many bytes (XSH, `write()`).
    Write(i64, i64, i64),
    /// Sends the process a signal (XSH, `kill()`).
    Kill(i64, i64),
    /// Sends the process a signal with a value (XSH, `sigqueue()`).
    Sigqueue(i64, i64, i64),
    /// Sets what is done about a signal (XSH, `sigaction()`).
    Sigaction(i64, Action),
    /// Changes the mask (XSH, `sigprocmask()`).
    Sigprocmask(How, SigSet),
    /// Answers the signals that are pending and blocked, as a number (XSH, `sigpending()`).
    Sigpending,
    /// Goes back to where the last caught signal was caught. Own rule.
    Sigreturn,
    /// Shows so many bytes at an address. Own rule.
    ConsoleWrite(i64, i64),
    /// Goes on at another point. Own rule.
    Jump(u32, When),
    /// Keeps the last answer in a slot. Own rule.
    Keep(i64),
    /// Begins a transaction. Own rule.
    SysXbegin,
    /// Begins a transaction that defers deliveries to its members. Own rule.
    SysXbeginDefer,
    /// Ends the caller's part of its transaction. Own rule.
    SysXend,
    /// Aborts the caller's transaction. Own rule.
    SysXabort,
}

/// One event of the kernel.
#[derive(Drop)]
pub enum Step {
    /// A process makes a call.
    Call(Pid, Call),
    /// A signal that is pending at a process is delivered.
    Deliver(Pid, Signo),
    /// The kernel aborts the live transaction of a starter.
    KernelAbort(Pid),
}

/// Why a step was not accepted. A refused step changes nothing.
#[derive(Clone, Copy, PartialEq, Eq)]
pub enum Refusal {
    /// N1: there is no process of that number, or the number is none of the machine's.
    NoProcess,
    /// N2: the process has ended.
    NotRunning,
    /// N3: a number that the call chooses is out of range, or both descriptions of a pipe have the
    /// same number.
    BadNumber,
    /// N4: a number that the call chooses is in use.
    NumberTaken,
    /// N5: the transaction of the process is doomed: SIGKILL would be pending at its starter after
    /// an abort.
    Doomed,
    /// N6: the process has called sys_xend, and its transaction has not ended.
    Parked,
    /// N7: SIGKILL is pending at the process, and the step does not deliver it.
    KillPending,
    /// N8: other transactions are in the way, by what they reserved or by two answers of a send.
    /// It names the least starter among them.
    Busy { starter: Pid },
    /// N9: a read, a write or a waitpid that waits.
    Wait,
    /// N10: the signal is not pending, is blocked, or must let a lower realtime signal go first.
    NotDeliverable,
    /// N11: a caught delivery with four frames in use.
    FramesFull,
    /// N12: the starter has no live transaction.
    NoTransaction,
    /// N13: a growth of memory was refused.
    NoMemory,
    /// N14: the transaction defers the delivery.
    Deferred,
}

impl From<NoMemory> for Refusal {
    ghost use Rattle.tx_base.specs.declared.steps.Refusal.TheVariants.{NoMemory};

    ghost from_gives = { λ _ refusal. refusal ≡ NoMemory };

    fn from(_refused: NoMemory) -> Refusal {
        Refusal::NoMemory
    }
}

/// What a step is answered.
#[derive(Drop)]
pub enum Reply {
    /// The call's answer; a POSIX error is the negative error number.
    Done(i64),
    /// The process ended.
    Ended,
    /// The transaction was committed; these held sends could not be delivered.
    Committed { undelivered: ArrayVec<Missed, 33> },
    /// The transaction was aborted, with this status.
    Aborted(u16),
    /// Bytes for the console.
    Out(ArrayVec<u8, 64>),
    /// The step was not accepted.
    No(Refusal),
}

/// A step that was accepted, with its reply: what a history holds.
#[derive(Drop)]
pub struct Accepted {
    pub step: Step,
    pub reply: Reply,
}

/// An equal list of bytes.
fn copy_bytes(bytes: &ArrayVec<u8, 64>) -> ArrayVec<u8, 64>
    ensures { result ≡ bytes.now }
{
    let mut copy = ArrayVec::new();
    let _fits = copy.try_extend_from_slice(bytes.as_slice());
    copy
}

/// An equal list of sends that were not delivered.
fn copy_missed(missed: &ArrayVec<Missed, 33>) -> ArrayVec<Missed, 33>
    ensures { result ≡ missed.now }
{
    let mut copy = ArrayVec::new();
    let _fits = copy.try_extend_from_slice(missed.as_slice());
    copy
}

impl Call {
    /// An equal call. It takes no memory.
    pub fn copy(&self) -> Call
        ensures { result ≡ self.now }
    {
        match self {
            Call::Map(page) => Call::Map(*page),
            Call::Unmap(page) => Call::Unmap(*page),
            Call::Protect(page, writable) => Call::Protect(*page, *writable),
            Call::Store(address, bytes) => Call::Store(*address, copy_bytes(bytes)),
            Call::Load(address) => Call::Load(*address),
            Call::Fork(child) => Call::Fork(*child),
            Call::Exit(status) => Call::Exit(*status),
            Call::Waitpid(target, nohang) => Call::Waitpid(*target, *nohang),
            Call::Getpid => Call::Getpid,
            Call::Getppid => Call::Getppid,
            Call::Setuid(id) => Call::Setuid(*id),
            Call::Seteuid(id) => Call::Seteuid(*id),
            Call::Setgid(id) => Call::Setgid(*id),
            Call::Setegid(id) => Call::Setegid(*id),
            Call::Pipe(pipe, read, write) => Call::Pipe(*pipe, *read, *write),
            Call::Dup(fd) => Call::Dup(*fd),
            Call::Dup2(from, to) => Call::Dup2(*from, *to),
            Call::Close(fd) => Call::Close(*fd),
            Call::SetNonblock(fd, on) => Call::SetNonblock(*fd, *on),
            Call::Read(fd, address, count) => Call::Read(*fd, *address, *count),
            Call::Write(fd, address, count) => Call::Write(*fd, *address, *count),
            Call::Kill(target, signo) => Call::Kill(*target, *signo),
            Call::Sigqueue(target, signo, value) => Call::Sigqueue(*target, *signo, *value),
            Call::Sigaction(signo, action) => Call::Sigaction(*signo, *action),
            Call::Sigprocmask(how, set) => Call::Sigprocmask(*how, *set),
            Call::Sigpending => Call::Sigpending,
            Call::Sigreturn => Call::Sigreturn,
            Call::ConsoleWrite(address, count) => Call::ConsoleWrite(*address, *count),
            Call::Jump(point, when) => Call::Jump(*point, *when),
            Call::Keep(slot) => Call::Keep(*slot),
            Call::SysXbegin => Call::SysXbegin,
            Call::SysXbeginDefer => Call::SysXbeginDefer,
            Call::SysXend => Call::SysXend,
            Call::SysXabort => Call::SysXabort,
        }
    }
}

impl Step {
    ghost use Rattle.tx_base.specs.Steps.{blank_step};

    /// A small step, for a place into which one is read or moved.
    pub fn blank() -> Step
        ensures { result ≡ blank_step }
    {
        Step::Call(Pid(0), Call::Getpid)
    }

    /// An equal step. It takes no memory.
    pub fn copy(&self) -> Step
        ensures { result ≡ self.now }
    {
        match self {
            Step::Call(pid, call) => Step::Call(*pid, call.copy()),
            Step::Deliver(pid, signo) => Step::Deliver(*pid, *signo),
            Step::KernelAbort(starter) => Step::KernelAbort(*starter),
        }
    }
}

impl Reply {
    ghost use Rattle.tx_base.specs.declared.steps.Reply.TheVariants.{No};
    ghost use Rattle.tx_base.specs.declared.steps.Refusal.TheVariants as refusals;

    /// Whether a growth of memory was refused.
    pub fn wants_memory(&self) -> bool
        ensures { IsTrue result ↔ (self.now ≡ No refusals.NoMemory) }
    {
        match self {
            Reply::No(Refusal::NoMemory) => true,
            _ => false,
        }
    }

    /// An equal reply. It takes no memory.
    pub fn copy(&self) -> Reply
        ensures { result ≡ self.now }
    {
        match self {
            Reply::Done(ret) => Reply::Done(*ret),
            Reply::Ended => Reply::Ended,
            Reply::Committed { undelivered } => Reply::Committed {
                undelivered: copy_missed(undelivered),
            },
            Reply::Aborted(status) => Reply::Aborted(*status),
            Reply::Out(bytes) => Reply::Out(copy_bytes(bytes)),
            Reply::No(refusal) => Reply::No(*refusal),
        }
    }
}
