//! Prints the processes of a machine.
ghost use Rattle.std.specs.Prelude.{◌≡◌, ◌++◌, [], OnOk, string_bytes};
ghost use Rattle.std.specs.Option.{option_copied};
ghost use Rattle.tx_change.specs.States.{state_of};
ghost use Rattle.tx_cred.specs.Cred.{ids_of};
ghost use Rattle.tx_proc.specs.Parts.{process_in, process_of};
ghost use Rattle.tx_state_text.specs.Processes.{are_root, byte_text, end_text, flag_text, head_text, ids_line, own_text, page_line, page_text, pages_text, process_lines, procs_text, status_text};

use crate::descriptors::put_fds;
use crate::registers::{put_run, put_slots_line};
use crate::signals::put_signals;
use std::alloc::AllocError;
use std::fmt::Write;
use tx_base::{PAGE_BYTES, PAGES, Pid};
use tx_change::Parts;
use tx_cred::Cred;
use tx_lines::{put, put_byte, put_count};
use tx_pages::{Page, Space};
use tx_proc::Proc;

/// Appends the lines of the processes of the numbers up to a width, by rising number.
pub fn put_procs(text: &mut String, parts: &Parts, width: u16) -> Result<(), AllocError>
    ensures { OnOk result
        (string_bytes text.new ≡ string_bytes text.old
        ++ procs_text width (state_of (λ starter. []) parts.now).procs) }
{
    for done in 0..width {
        let pid = Pid(done + 1);
        put_slot_lines(text, pid, parts.proc(pid))?;
    }
    Ok(())
}

/// Appends the lines of the process of a number: none if there is no process.
#[inline(always)] // each number up to a width asks it, and few are processes
pub fn put_slot_lines(text: &mut String, pid: Pid, slot: Option<&Proc>) -> Result<(), AllocError>
    ensures { OnOk result
        (string_bytes text.new ≡ string_bytes text.old
        ++ process_lines pid.0 (process_in (option_copied slot.entry))) }
{
    match slot {
        Some(proc) => {
            put_head(text, pid, proc)?;
            put_own(text, proc)
        }
        None => Ok(()),
    }
}

/// Appends the first line of a process.
fn put_head(text: &mut String, pid: Pid, proc: &Proc) -> Result<(), AllocError>
    ensures { OnOk result
        (string_bytes text.new ≡ string_bytes text.old ++ head_text pid.0 (process_of proc.now)) }
{
    write!(text, "proc {} parent {}", pid.0, proc.parent.0)?;
    put_end(text, proc)
}

/// Appends what follows the number and the parent of a process.
fn put_end(text: &mut String, proc: &Proc) -> Result<(), AllocError>
    ensures { OnOk result
        (string_bytes text.new ≡ string_bytes text.old ++ end_text proc.now.status proc.now.regs) }
{
    match proc.status {
        Some(status) => put_status(text, status),
        None => put_run(text, &proc.regs),
    }
}

/// Appends the end of an ended process's line: what it exited with, or the signal that killed it.
fn put_status(text: &mut String, status: u16) -> Result<(), AllocError>
    ensures { OnOk result (string_bytes text.new ≡ string_bytes text.old ++ status_text status) }
{
    if status < 256 {
        write!(text, " exit {status}\n")
    } else {
        write!(text, " killed {}\n", status - 256)
    }
}

/// Appends the lines of what a process has.
fn put_own(text: &mut String, proc: &Proc) -> Result<(), AllocError>
    ensures { OnOk result
        (string_bytes text.new ≡ string_bytes text.old ++ own_text (process_of proc.now)) }
{
    put_ids(text, proc.cred)?;
    put_slots_line(text, &proc.regs.slots)?;
    put_pages(text, &proc.space)?;
    put_fds(text, &proc.descriptors)?;
    put_signals(text, proc)
}

/// Appends the line of the ids, where one is not 0.
pub fn put_ids(text: &mut String, cred: Cred) -> Result<(), AllocError>
    ensures { OnOk result
        (string_bytes text.new ≡ string_bytes text.old ++ ids_line (ids_of cred)) }
{
    if are_root(cred) {
        return Ok(());
    }
    let (real, effective, saved) = (cred.real_user, cred.effective_user, cred.saved_user);
    write!(text, "ids {real} {effective} {saved}")?;
    let (real, effective, saved) = (cred.real_group, cred.effective_group, cred.saved_group);
    write!(text, " {real} {effective} {saved}\n")
}

/// Whether every id is 0.
fn are_root(cred: Cred) -> bool
    ensures { result ≡ are_root (ids_of cred) }
{
    cred.real_user == 0
        && cred.effective_user == 0
        && cred.saved_user == 0
        && cred.real_group == 0
        && cred.effective_group == 0
        && cred.saved_group == 0
}

/// Appends the line of each mapped page, by rising number.
fn put_pages(text: &mut String, space: &Space) -> Result<(), AllocError>
    ensures { OnOk result (string_bytes text.new ≡ string_bytes text.old ++ pages_text space.now) }
{
    for number in 0..PAGES {
        put_page_line(text, number, space.page(number))?;
    }
    Ok(())
}

/// Appends the line of the page of a number: none if it is not mapped.
pub fn put_page_line(
    text: &mut String,
    number: usize,
    page: Option<&Page>,
) -> Result<(), AllocError>
    ensures { OnOk result
        (string_bytes text.new ≡ string_bytes text.old
        ++ page_line number (option_copied page.entry)) }
{
    match page {
        Some(page) => put_page(text, number, page),
        None => Ok(()),
    }
}

/// Appends the line of a page.
fn put_page(text: &mut String, number: usize, page: &Page) -> Result<(), AllocError>
    ensures { OnOk result
        (string_bytes text.new ≡ string_bytes text.old ++ page_text number page.now) }
{
    write!(text, "page {number}{}", flag(page.is_writable()))?;
    let bytes = page.bytes();
    for offset in 0..PAGE_BYTES {
        put_byte_at(text, offset, bytes[offset])?;
    }
    put(text, "\n")
}

/// The word for whether a page may be written, after a space.
fn flag(writable: bool) -> &'static str
    ensures { result.now ≡ flag_text writable }
{
    if writable { " rw" } else { " r" }
}

/// Appends the byte at an offset of a page, where it is not 0.
fn put_byte_at(text: &mut String, offset: usize, byte: u8) -> Result<(), AllocError>
    ensures { OnOk result (string_bytes text.new ≡ string_bytes text.old ++ byte_text offset byte) }
{
    if byte == 0 {
        return Ok(());
    }
    put(text, " ")?;
    put_count(text, offset as u64)?;
    put(text, "=")?;
    put_byte(text, byte)
}
