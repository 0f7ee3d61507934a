//! Prints single things that a process has.
ghost use Rattle.std.specs.Option.{option_copied};
ghost use Rattle.std.specs.Prelude.{◌≡◌, ◌++◌, OnOk, string_bytes};
ghost use Rattle.tx_proc.specs.Parts.{process_in};
ghost use Rattle.tx_state_text.specs.Pieces.{fd_of, ids_of, page_of, pending_of, queue_of};

use crate::descriptors::put_fd_line;
use crate::processes::{put_ids, put_page_line};
use crate::signals::{put_queued_line, put_set_line};
use std::alloc::AllocError;
use tx_proc::Proc;

/// Appends the line of a page of a process: none where it is not mapped, or there is no process.
pub fn put_page_of(text: &mut String, slot: Option<&Proc>, number: usize) -> Result<(), AllocError>
    ensures { OnOk result
        (string_bytes text.new ≡ string_bytes text.old
        ++ page_of number (process_in (option_copied slot.entry))) }
{
    match slot {
        Some(proc) => put_page_line(text, number, proc.space.page(number)),
        None => Ok(()),
    }
}

/// Appends the line of a descriptor of a process: none where it is not open, or there is no process.
pub fn put_fd_of(text: &mut String, slot: Option<&Proc>, fd: usize) -> Result<(), AllocError>
    ensures { OnOk result
        (string_bytes text.new ≡ string_bytes text.old
        ++ fd_of fd (process_in (option_copied slot.entry))) }
{
    match slot {
        Some(proc) => put_fd_line(text, fd, proc.descriptors.get(fd)),
        None => Ok(()),
    }
}

/// Appends the line of the standard signals that are pending at a process: none if none is, or
/// there is no process.
pub fn put_pending_of(text: &mut String, slot: Option<&Proc>) -> Result<(), AllocError>
    ensures { OnOk result
        (string_bytes text.new ≡ string_bytes text.old
        ++ pending_of (process_in (option_copied slot.entry))) }
{
    match slot {
        Some(proc) => put_set_line(text, "pending ", proc.pending.standard()),
        None => Ok(()),
    }
}

/// Appends the line of the queue of a process: none where it has no entry, or there is no process.
pub fn put_queue_of(text: &mut String, slot: Option<&Proc>) -> Result<(), AllocError>
    ensures { OnOk result
        (string_bytes text.new ≡ string_bytes text.old
        ++ queue_of (process_in (option_copied slot.entry))) }
{
    match slot {
        Some(proc) => put_queued_line(text, proc.pending.queued()),
        None => Ok(()),
    }
}

/// Appends the line of the ids of a process: none where all are 0, or there is no process.
pub fn put_ids_of(text: &mut String, slot: Option<&Proc>) -> Result<(), AllocError>
    ensures { OnOk result
        (string_bytes text.new ≡ string_bytes text.old
        ++ ids_of (process_in (option_copied slot.entry))) }
{
    match slot {
        Some(proc) => put_ids(text, proc.cred),
        None => Ok(()),
    }
}
