//! What a step asks of a pipe, on a machine before it.
ghost use Rattle.std.specs.Prelude.{◌≡◌};
ghost use Rattle.tx_content.specs.Content.{view_of};
ghost use Rattle.tx_model.specs.View.{present};
ghost use Rattle.tx_picture.specs.Drawings.{transfer_of};
ghost use Rattle.tx_picture.specs.Transfers.{access_of, held_in, pipe_named};

use crate::passages::{Access, Transfer};
use tx_base::{Call, Pid, PipeNo, Step};
use tx_core::{Machine, maker};

/// The step of a row, as pipes see it.
pub(crate) fn transfer_of(machine: &Machine, step: &Step, row: u16) -> Transfer
    ensures { result ≡ transfer_of (view_of machine.now) step.now row }
{
    let process = maker(step);
    Transfer {
        process,
        row,
        starter: machine.txn_of(process),
        access: access_of(machine, step),
    }
}

/// The pipe that a step writes to, or reads from with what the pipe holds before it.
fn access_of(machine: &Machine, step: &Step) -> Option<Access>
    ensures { result ≡ access_of (present (view_of machine.now)) step.now }
{
    match step {
        Step::Call(process, Call::Write(fd, _, _)) => {
            let pipe = pipe_named(machine, *process, *fd)?;
            Some(Access::Puts(pipe))
        }
        Step::Call(process, Call::Read(fd, _, _)) => {
            let pipe = pipe_named(machine, *process, *fd)?;
            Some(Access::Takes(pipe, held_in(machine, pipe)))
        }
        _ => None,
    }
}

/// The pipe of which a descriptor of the process is an end.
fn pipe_named(machine: &Machine, process: Pid, fd: i64) -> Option<PipeNo>
    ensures { result ≡ pipe_named (present (view_of machine.now)) process.0 fd }
{
    let parts = machine.parts();
    let proc = parts.proc(process)?;
    let description = proc.descriptors.look(fd).ok()?;
    let opened = parts.descs.get(description)?;
    Some(opened.desc.pipe)
}

/// How many bytes the pipe holds.
fn held_in(machine: &Machine, pipe: PipeNo) -> u64
    ensures { result ≡ held_in (present (view_of machine.now)) pipe }
{
    match machine.parts().pipes.get(pipe) {
        Some(pipe) => pipe.len() as u64,
        None => 0,
    }
}
