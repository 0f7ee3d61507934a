//! What a step names, whether or not its process runs.
ghost use Rattle.tx_base.specs.Slots.{slot_at};
ghost use Rattle.tx_content.specs.Content.{held_of, view_of};
ghost use Rattle.tx_model.specs.Footprints.{footprint};
ghost use Rattle.tx_model.specs.View.{present};
ghost use Rattle.tx_reserve.specs.Footprints.{HoldsBy, HoldsFor, IsSetOf};
ghost use Rattle.tx_step.specs.Contents.{IsContent};

use crate::laws::laws;
use crate::ways::held_by;
use tx_base::{Pid, Sending, Step};
use tx_content::Content;
use tx_reserve::Objects;

/// The objects, of numbers in range, that a step names: those that it reserves if its process is a
/// member of a transaction. A missing process names only itself, and the kernel's abort names
/// nothing. It takes no memory.
pub fn footprint(content: &Content, step: &Step) -> Objects
    requires { IsContent content.now }
    ensures { IsSetOf result
        (footprint (view_of content.now).table step.now (present (view_of content.now))) }
{
    laws();
    tx_reserve::footprint(
        &content.parts,
        &content.marks,
        held_for(content, step),
        step,
    )
}

/// What the transaction of a step's process holds; none if it is in none.
fn held_for<'a>(content: &'a Content, step: &Step) -> &'a [Sending]
    ensures { HoldsFor content.now.marks step.now result.now (held_of content.now) }
{
    match step {
        Step::Call(pid, _) | Step::Deliver(pid, _) => held_with(content, *pid),
        Step::KernelAbort(_) => &[],
    }
}

/// What the transaction of a process holds; none if it is in none.
fn held_with<'a>(content: &'a Content, pid: Pid) -> &'a [Sending]
    ensures { HoldsBy (slot_at content.now.marks pid.0) result.now (held_of content.now) }
{
    match content.marks.get(pid) {
        Some(mark) => held_by(content, mark.starter),
        None => &[],
    }
}
