//! Prints the state of a machine.
ghost use Rattle.std.specs.Prelude.{◌≡◌, ◌++◌, IfOk, OnOk, string_bytes};
ghost use Rattle.tx_base.specs.Slots.{slot_at};
ghost use Rattle.tx_content.specs.Content.{view_of};
ghost use Rattle.tx_model.specs.View.{present};
ghost use Rattle.tx_state_text.specs.State.{state_text};
ghost use Rattle.tx_state_text.specs.Txns.{txns_text};

use std::alloc::{AllocError, Global};
use tx_base::{NoMemory, Pid};
use tx_core::Machine;
use tx_lines::put;
use tx_state_text::{Links, put_descs, put_pipes, put_procs, put_txn_lines};

/// The text of a machine's state, from its line `state` on: its processes, descriptions, pipes and
/// live transactions. The only error is that a growth of memory was refused; the machine is only
/// read.
pub fn print_state(alloc: Global, machine: &Machine) -> Result<String, NoMemory>
    ensures { IfOk result (λ text. string_bytes text ≡ state_text (view_of machine.now)) }
{
    let mut text = String::new(alloc);
    put_state(&mut text, machine)?;
    Ok(text)
}

/// Appends the text of a machine's state. The only error is that a growth of memory was refused:
/// the text may then end in some of the state.
pub fn put_state(text: &mut String, machine: &Machine) -> Result<(), AllocError>
    ensures { OnOk result
        (string_bytes text.new ≡ string_bytes text.old ++ state_text (view_of machine.now)) }
{
    put(text, "state\n")?;
    let width = machine.processes();
    let parts = machine.parts();
    put_procs(text, parts, width)?;
    put_descs(text, &parts.descs)?;
    put_pipes(text, &parts.pipes)?;
    put_txns(text, machine, width)
}

/// Appends the lines of each live transaction, by its rising starter. It goes over the marks twice.
fn put_txns(text: &mut String, machine: &Machine, width: u16) -> Result<(), AllocError>
    ensures { OnOk result
        (string_bytes text.new ≡ string_bytes text.old
        ++ txns_text width (slot_at machine.now.marks) (present (view_of machine.now)).held) }
{
    let marks = machine.marks();
    let links = Links::new(*text.allocator(), marks, width)?;
    for done in 0..width {
        let pid = Pid(done + 1);
        put_txn_lines(text, marks, &links, width, pid, machine.held(pid))?;
    }
    Ok(())
}
