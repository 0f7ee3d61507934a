//! Appends the state of a machine.
ghost use Rattle.std.specs.Prelude.{◌≡◌, ◌++◌, [], OnOk};
ghost use Rattle.tx_base.specs.Slots.{slot_at};
ghost use Rattle.tx_change.specs.States.{state_of};
ghost use Rattle.tx_json.specs.State.{parts_tokens, state_tokens};
ghost use Rattle.tx_json.specs.Txns.{mark_item, txns_member};
ghost use Rattle.tx_content.specs.Content.{view_of};
ghost use Rattle.tx_model.specs.View.{present};

use crate::descriptors::{put_descs, put_pipes};
use crate::line::LineWriter;
use crate::members::{begin_list, begin_object, end_list, end_object};
use crate::processes::put_procs;
use crate::txns::put_txn;
use std::alloc::{AllocError, Global};
use tx_base::Pid;
use tx_change::Parts;
use tx_core::Machine;

/// Appends the state of a machine as an object: its processes, descriptions, pipes and live
/// transactions. The only error is that a growth of memory was refused: the writer may then end in
/// some of the object.
pub fn put_state(
    alloc: Global,
    writer: &mut LineWriter,
    machine: &Machine,
) -> Result<(), AllocError>
    ensures { OnOk result
        (writer.new ≡ writer.old ++ state_tokens (view_of machine.now)) }
{
    let width = machine.processes();
    let parts = machine.parts();
    begin_object(writer)?;
    put_parts(alloc, writer, parts, width)?;
    put_txns(writer, machine, width)?;
    end_object(writer)
}

/// Appends the processes, descriptions and pipes.
fn put_parts(
    alloc: Global,
    writer: &mut LineWriter,
    parts: &Parts,
    width: u16,
) -> Result<(), AllocError>
    ensures { OnOk result (writer.new
        ≡ writer.old ++ parts_tokens width (state_of (λ starter. []) parts.now)) }
{
    put_procs(alloc, writer, parts, width)?;
    put_descs(writer, &parts.descs)?;
    put_pipes(alloc, writer, &parts.pipes)
}

/// Appends the live transactions, by their rising starters.
fn put_txns(writer: &mut LineWriter, machine: &Machine, width: u16) -> Result<(), AllocError>
    ensures { OnOk result (writer.new ≡ writer.old
        ++ txns_member width (slot_at machine.now.marks) (present (view_of machine.now)).held) }
{
    begin_list(writer, "txns")?;
    for done in 0..width {
        put_txn_of(writer, machine, width, Pid(done + 1))?;
    }
    end_list(writer)
}

/// Appends a starter's live transaction: none where the process has begun none. Most numbers have
/// no mark, and nothing else is looked at.
fn put_txn_of(
    writer: &mut LineWriter,
    machine: &Machine,
    width: u16,
    pid: Pid,
) -> Result<(), AllocError>
    ensures { OnOk result (writer.new ≡ writer.old
        ++ mark_item width (slot_at machine.now.marks) pid.0
        ((present (view_of machine.now)).held pid.0) (slot_at machine.now.marks pid.0)) }
{
    let marks = machine.marks();
    match marks.get(pid) {
        Some(mark) => {
            if mark.starter.0 == pid.0 {
                return put_txn(writer, marks, width, pid, mark.defers, machine.held(pid));
            }
            Ok(())
        }
        None => Ok(()),
    }
}
