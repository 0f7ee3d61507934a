//! Appends processes.
ghost use Rattle.std.specs.Option.{option_copied};
ghost use Rattle.std.specs.Prelude.{◌≡◌, ◌++◌, [], OnOk, Some};
ghost use Rattle.tx_change.specs.States.{state_of};
ghost use Rattle.tx_cred.specs.Cred.{ids_of};
ghost use Rattle.tx_json.specs.Processes.{end_members, ids_members, own_members, page_item, pages_member, process_item, procs_member, registers_members, status_member, three_ids};
ghost use Rattle.tx_proc.specs.Parts.{process_in, process_of};

use crate::descriptors::put_fds;
use crate::line::LineWriter;
use crate::lists::{put_count_item, put_numbers};
use crate::members::{
    begin_list, begin_object, end_list, end_object, put_bytes, put_count, put_flag, put_number,
};
use crate::signals::put_signals;
use std::alloc::{AllocError, Global};
use tx_base::{PAGES, Pid, Regs};
use tx_change::Parts;
use tx_cred::Cred;
use tx_pages::{Page, Space};
use tx_proc::Proc;

/// Appends the processes of the numbers up to a width, by rising number.
pub fn put_procs(
    alloc: Global,
    writer: &mut LineWriter,
    parts: &Parts,
    width: u16,
) -> Result<(), AllocError>
    ensures { OnOk result (writer.new ≡ writer.old
        ++ procs_member width (state_of (λ starter. []) parts.now).procs) }
{
    begin_list(writer, "procs")?;
    for done in 0..width {
        let pid = Pid(done + 1);
        put_slot(alloc, writer, pid, parts.proc(pid))?;
    }
    end_list(writer)
}

/// Appends a process: none where there is none of the number.
fn put_slot(
    alloc: Global,
    writer: &mut LineWriter,
    pid: Pid,
    slot: Option<&Proc>,
) -> Result<(), AllocError>
    ensures { OnOk result (writer.new ≡ writer.old
        ++ process_item pid.0 (process_in (option_copied slot.entry))) }
{
    match slot {
        Some(proc) => {
            begin_object(writer)?;
            put_count(writer, "pid", u64::from(pid.0))?;
            put_count(writer, "parent", u64::from(proc.parent.0))?;
            put_end(writer, proc.status)?;
            put_own(alloc, writer, proc)?;
            end_object(writer)
        }
        None => Ok(()),
    }
}

/// Appends how a process ended, if it did.
fn put_end(writer: &mut LineWriter, status: Option<u16>) -> Result<(), AllocError>
    ensures { OnOk result (writer.new ≡ writer.old ++ end_members status) }
{
    match status {
        Some(status) => put_status(writer, status),
        None => Ok(()),
    }
}

/// Appends what an ended process exited with, or the signal that killed it.
fn put_status(writer: &mut LineWriter, status: u16) -> Result<(), AllocError>
    ensures { OnOk result (writer.new ≡ writer.old ++ status_member status) }
{
    if status < 256 {
        put_count(writer, "exit", u64::from(status))
    } else {
        put_count(writer, "killed", u64::from(status - 256))
    }
}

/// Appends what a process has.
fn put_own(alloc: Global, writer: &mut LineWriter, proc: &Proc) -> Result<(), AllocError>
    ensures { OnOk result
        (writer.new ≡ writer.old ++ own_members (process_of proc.now)) }
{
    put_registers(writer, &proc.regs)?;
    put_ids(writer, proc.cred)?;
    put_pages(alloc, writer, &proc.space)?;
    put_fds(writer, &proc.descriptors)?;
    put_signals(writer, proc)
}

/// Appends where a process is.
fn put_registers(writer: &mut LineWriter, regs: &Regs) -> Result<(), AllocError>
    ensures { OnOk result (writer.new ≡ writer.old ++ registers_members regs.now) }
{
    put_count(writer, "point", u64::from(regs.point))?;
    put_number(writer, "ret", regs.ret)?;
    put_numbers(writer, "slots", &regs.slots)
}

/// Appends a process's ids: of users, and of groups.
fn put_ids(writer: &mut LineWriter, cred: Cred) -> Result<(), AllocError>
    ensures { OnOk result (writer.new ≡ writer.old ++ ids_members (ids_of cred)) }
{
    put_three(
        writer,
        "users",
        cred.real_user,
        cred.effective_user,
        cred.saved_user,
    )?;
    put_three(
        writer,
        "groups",
        cred.real_group,
        cred.effective_group,
        cred.saved_group,
    )
}

/// Appends a real, an effective and a saved id.
fn put_three(
    writer: &mut LineWriter,
    name: &str,
    real: u16,
    effective: u16,
    saved: u16,
) -> Result<(), AllocError>
    ensures { OnOk result
        (writer.new ≡ writer.old ++ three_ids name.now real effective saved) }
{
    begin_list(writer, name)?;
    put_count_item(writer, u64::from(real))?;
    put_count_item(writer, u64::from(effective))?;
    put_count_item(writer, u64::from(saved))?;
    end_list(writer)
}

/// Appends the mapped pages, by rising number.
fn put_pages(alloc: Global, writer: &mut LineWriter, space: &Space) -> Result<(), AllocError>
    ensures { OnOk result (writer.new ≡ writer.old ++ pages_member space.now) }
{
    begin_list(writer, "pages")?;
    for number in 0..PAGES {
        put_page(alloc, writer, number, space.page(number))?;
    }
    end_list(writer)
}

/// Appends a page: none where the number is not mapped.
fn put_page(
    alloc: Global,
    writer: &mut LineWriter,
    number: usize,
    page: Option<&Page>,
) -> Result<(), AllocError>
    ensures { OnOk result
        (writer.new ≡ writer.old ++ page_item number (option_copied page.entry)) }
{
    match page {
        Some(page) => put_mapped(alloc, writer, number, page),
        None => Ok(()),
    }
}

/// Appends a mapped page.
fn put_mapped(
    alloc: Global,
    writer: &mut LineWriter,
    number: usize,
    page: &Page,
) -> Result<(), AllocError>
    ensures { OnOk result
        (writer.new ≡ writer.old ++ page_item number (Some page.now)) }
{
    begin_object(writer)?;
    put_count(writer, "page", number as u64)?;
    put_flag(writer, "writable", page.is_writable())?;
    put_bytes(alloc, writer, "bytes", page.bytes())?;
    end_object(writer)
}
