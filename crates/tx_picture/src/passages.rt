//! What goes through pipes: the writes whose bytes may be in one, and which read takes bytes of
//! which write. The bytes that a pipe holds are the last so many that were written to it, and a
//! read takes the first of them.
ghost use Rattle.std.specs.Prelude.{◌≡◌, IfOk, OnOk, map};
ghost use Rattle.tx_picture.specs.Passages.{is_inside, let_go, passages_after, settled, settles, taken, taken_from, written_after};
ghost use Rattle.tx_picture.specs.Transfers.{moved};

use std::alloc::AllocError;
use tx_base::{Pid, PipeNo, Reply};

/// A write to a pipe.
#[derive(Clone, Copy)]
pub struct Written {
    pub process: Pid,
    pub pipe: PipeNo,
    /// The row of the step.
    pub row: u16,
    /// How many bytes it has put into the pipe; 0 where it failed, or an abort took it back.
    pub count: u64,
    /// The starter of the live transaction that it was made inside of.
    pub holder: Option<Pid>,
}

/// Bytes that went through a pipe from a write to a read.
#[derive(Clone, Copy)]
pub struct Passage {
    pub writer: Pid,
    /// The row of the write.
    pub written: u16,
    pub reader: Pid,
    /// The row of the read, which is below it.
    pub read: u16,
}

/// What a step asks of a pipe.
#[derive(Clone, Copy)]
pub(crate) enum Access {
    /// To put bytes into it.
    Puts(PipeNo),
    /// To take the first of the bytes that it holds, of which there are so many.
    Takes(PipeNo, u64),
}

/// A step, as pipes see it.
#[derive(Clone, Copy)]
pub(crate) struct Transfer {
    pub process: Pid,
    /// The row of the step.
    pub row: u16,
    /// The starter of the transaction that the process is a member of.
    pub starter: Option<Pid>,
    pub access: Option<Access>,
}

/// A read of a pipe.
#[derive(Clone, Copy)]
pub(crate) struct Reading {
    pub process: Pid,
    /// The row of the step.
    pub row: u16,
    pub pipe: PipeNo,
    /// How many bytes the pipe held.
    pub held: u64,
    /// How many of them were taken.
    pub count: u64,
}

/// Follows the writes, the newest of which is first, over a step that was answered so.
///
/// The only error is that a growth of memory was refused.
pub(crate) fn note_written(
    written: &mut Vec<Written>,
    transfer: Transfer,
    reply: &Reply,
) -> Result<(), AllocError>
    ensures { OnOk result
        (written.new.items ≡ written_after transfer reply.now written.old.items) }
{
    settle(written.as_mut_slice(), transfer.starter, reply);
    if let Some(Access::Puts(pipe)) = transfer.access {
        let put = Written {
            process: transfer.process,
            pipe,
            row: transfer.row,
            count: moved(reply),
            holder: transfer.starter,
        };
        written.insert(0, put)?;
    }
    Ok(())
}

/// Settles the writes of the transaction that a step was made inside of, where the step ended it.
fn settle(written: &mut [Written], starter: Option<Pid>, reply: &Reply)
    ensures { written.new ≡ map (settled starter reply.now) written.old }
{
    if !settles(reply) {
        return;
    }
    for one in written.iter_mut() {
        *one = settled(*one, starter, reply);
    }
}

/// Whether the step that was answered so ended its transaction.
fn settles(reply: &Reply) -> bool
    ensures { result ≡ settles reply.now }
{
    matches!(reply, Reply::Committed { .. } | Reply::Aborted(_))
}

/// A write after a step that was made inside of that starter's transaction, and was answered so.
fn settled(written: Written, starter: Option<Pid>, reply: &Reply) -> Written
    ensures { result ≡ settled starter reply.now written }
{
    if is_inside(&written, starter) {
        return let_go(written, reply);
    }
    written
}

/// Whether a write was made inside the live transaction of that starter.
fn is_inside(written: &Written, starter: Option<Pid>) -> bool
    ensures { result ≡ is_inside starter written.now }
{
    match (starter, written.holder) {
        (Some(starter), Some(holder)) => holder == starter,
        _ => false,
    }
}

/// A write of a transaction after a step inside: a commit lets go of it, and after an abort it has
/// put nothing.
fn let_go(written: Written, reply: &Reply) -> Written
    ensures { result ≡ let_go reply.now written }
{
    match reply {
        Reply::Committed { .. } => Written {
            holder: None,
            ..written
        },
        Reply::Aborted(_) => Written {
            count: 0,
            ..written
        },
        _ => written,
    }
}

/// Appends a passage from each write whose bytes a step has taken that was answered so.
///
/// The only error is that a growth of memory was refused.
pub(crate) fn note_passages(
    passages: &mut Vec<Passage>,
    written: &[Written],
    transfer: Transfer,
    reply: &Reply,
) -> Result<(), AllocError>
    ensures { OnOk result (passages.new.items
        ≡ passages_after transfer reply.now written.now passages.old.items) }
{
    if let Some(Access::Takes(pipe, held)) = transfer.access {
        let reading = Reading {
            process: transfer.process,
            row: transfer.row,
            pipe,
            held,
            count: moved(reply),
        };
        return take(passages, written, reading);
    }
    Ok(())
}

/// Appends a passage from each write whose bytes a read takes.
fn take(
    passages: &mut Vec<Passage>,
    written: &[Written],
    reading: Reading,
) -> Result<(), AllocError>
    ensures { OnOk result
        (passages.new.items ≡ taken reading written.now passages.old.items) }
{
    let mut rest = reading.held;
    for i in 0..written.len() {
        if rest == 0 {
            return Ok(());
        }
        rest = take_from(passages, written[i], reading, rest)?;
    }
    Ok(())
}

/// Appends a passage from a write if a read takes bytes of it. So many of the bytes that the pipe
/// held are not newer than this write; answers how many are older.
fn take_from(
    passages: &mut Vec<Passage>,
    written: Written,
    reading: Reading,
    rest: u64,
) -> Result<u64, AllocError>
    ensures { IfOk result (λ older. record { rest = older; passages = passages.new.items }
        ≡ taken_from reading (record { rest = rest; passages = passages.old.items }) written) }
{
    if written.pipe != reading.pipe {
        return Ok(rest);
    }
    let older = rest.saturating_sub(written.count);
    if older < rest && older < reading.count {
        passages.push(Passage {
            writer: written.process,
            written: written.row,
            reader: reading.process,
            read: reading.row,
        })?;
    }
    Ok(older)
}

/// How many bytes a read or a write was answered to have moved.
fn moved(reply: &Reply) -> u64
    ensures { result ≡ moved reply.now }
{
    match reply {
        Reply::Done(answer) => match u64::try_from(*answer) {
            Ok(count) => count,
            Err(_) => 0,
        },
        _ => 0,
    }
}
