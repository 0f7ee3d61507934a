//! Who could end the wait of a refused step.
ghost use Rattle.std.specs.Prelude.{◌≡◌, ◌≤◌, ◌++◌, IfOk, OnOk, string_bytes};
ghost use Rattle.std.specs.List.{flat_map};
ghost use Rattle.tx_content.specs.Content.{view_of};
ghost use Rattle.tx_picture.specs.Waits.{awaited, child_awaited, holding, listed, own_wait_text, wait_text, waits_of};

use crate::columns::note;
use crate::elements::{Numbers, Shape, put_shape};
use crate::layout::{x_of, y_of};
use crate::ties::numbered_by;
use std::alloc::{AllocError, Global};
use tx_base::{Call, Pid, Refusal, Reply, Step};
use tx_core::Machine;
use tx_json::Holder;
use tx_waits::awaited_holders;

/// A process that could end a wait.
#[derive(Clone, Copy)]
pub struct Wait {
    /// The row of the step that waits.
    pub row: u16,
    /// The process whose step it is.
    pub waiter: Pid,
    pub awaited: Pid,
}

/// The processes that could end the wait of a step that is answered so on that machine: those that
/// have the other side of its pipe open, or its child. None where it does not wait.
pub(crate) fn awaited(
    alloc: Global,
    machine: &Machine,
    step: &Step,
    reply: &Reply,
) -> Result<Vec<Pid>, AllocError>
    ensures { IfOk result (λ processes.
        processes.items ≡ awaited (view_of machine.now) step.now reply.now) }
{
    let mut processes = Vec::new(alloc);
    if let Some(child) = child_awaited(step, reply) {
        processes.push(child)?;
    }
    if let Some(holders) = awaited_holders(alloc, machine, step, reply)? {
        note_holders(&mut processes, holders.as_slice())?;
    }
    Ok(processes)
}

/// The child that a waitpid waits for that was answered so.
fn child_awaited(step: &Step, reply: &Reply) -> Option<Pid>
    ensures { listed result ≡ child_awaited step.now reply.now }
{
    match (step, reply) {
        (Step::Call(_, Call::Waitpid(child, _)), Reply::No(Refusal::Wait)) => numbered_by(*child),
        _ => None,
    }
}

/// Appends the processes of some descriptors, each once.
fn note_holders(processes: &mut Vec<Pid>, holders: &[Holder]) -> Result<(), AllocError>
    ensures { OnOk result
        (processes.new.items ≡ holding processes.old.items (Some holders.now)) }
{
    for i in 0..holders.len() {
        note(processes, Pid(holders[i].process))?;
    }
    Ok(())
}

/// Appends that each of these processes could end the wait of the step in a row.
pub(crate) fn note_waits(
    waits: &mut Vec<Wait>,
    row: u16,
    waiter: Pid,
    processes: &[Pid],
) -> Result<(), AllocError>
    ensures { OnOk result
        (waits.new.items ≡ waits.old.items ++ waits_of row waiter.0 processes.now) }
{
    for i in 0..processes.len() {
        waits.push(Wait {
            row,
            waiter,
            awaited: processes[i],
        })?;
    }
    Ok(())
}

/// Appends an arrow to each process that could end a wait.
pub(crate) fn put_waits(
    text: &mut String,
    columns: &[Pid],
    waits: &[Wait],
) -> Result<(), AllocError>
    ensures { OnOk result (string_bytes text.new
        ≡ string_bytes text.old ++ flat_map (wait_text columns.now) waits.now) }
{
    for i in 0..waits.len() {
        put_wait(text, columns, waits[i])?;
    }
    Ok(())
}

/// Appends an arrow from the mark of a step to the column of a process that could end its wait.
fn put_wait(text: &mut String, columns: &[Pid], wait: Wait) -> Result<(), AllocError>
    ensures { OnOk result
        (string_bytes text.new ≡ string_bytes text.old ++ wait_text columns.now wait) }
{
    let x = x_of(columns, wait.waiter);
    let y = y_of(wait.row);
    if wait.waiter == wait.awaited {
        return put_own_wait(text, x, y);
    }
    let numbers = Numbers(x, y, x_of(columns, wait.awaited), y);
    put_shape(text, Shape::Line, "wait", numbers)
}

/// Appends an arrow from the mark of a step back to its own process.
fn put_own_wait(text: &mut String, x: u64, y: u64) -> Result<(), AllocError>
    requires left { 16 ≤ x }
    requires low { y ≤ 10000000 }
    ensures { OnOk result (string_bytes text.new ≡ string_bytes text.old ++ own_wait_text x y) }
{
    let left = Numbers(x, y, x - 16, y + 5);
    put_shape(text, Shape::Line, "waiting", left)?;
    let back = Numbers(x - 16, y + 5, x, y + 11);
    put_shape(text, Shape::Line, "wait", back)
}
