//! The step that a program names for a process.
ghost use Rattle.std.specs.Option.{option_copied};
ghost use Rattle.std.specs.Prelude.{◌≡◌, None, Some, slice_get};
ghost use Rattle.tx_content.specs.Content.{view_of};
ghost use Rattle.tx_model.specs.FreeNumbers.{free_numbers};
ghost use Rattle.tx_base.specs.declared.names.Regs.{Regs};
ghost use Rattle.tx_model.specs.View.{View, present};
ghost use Rattle.tx_proc.specs.Parts.{process_in, process_of};
ghost use Rattle.tx_workers.specs.Named.{chosen, instructed, named_for, running};

use crate::offers::offered;
use tx_base::{Call, Pid, Regs, Step};
use tx_core::Machine;
use tx_lines::{Instruction, Program};
use tx_proc::Proc;

/// The process of a number, where there is one and it runs.
pub(crate) fn running(machine: &Machine, pid: Pid) -> Option<&Proc>
    ensures { process_in (option_copied result)
        ≡ running ((present (view_of machine.now)).procs pid.0) }
{
    let proc = machine.parts().proc(pid)?;
    match proc.status {
        Some(_) => None,
        None => Some(proc),
    }
}

/// The step that the program names for a process that runs: the delivery of a signal that may be
/// delivered now, or else its next call. Nothing where that call chooses a number and none is free,
/// and for process 1 past the last instruction; another process exits there.
pub(crate) fn named(program: &Program, machine: &Machine, pid: Pid, proc: &Proc) -> Option<Step>
    ensures { result ≡ named_for program.now.instructions.items (view_of machine.now) pid.0
        (Some (process_of proc.now)) }
{
    if let Some(signo) = offered(proc, machine.marks().get(pid)) {
        return Some(Step::Deliver(pid, signo));
    }
    let call = instructed(program, machine, pid, &proc.regs)?;
    Some(Step::Call(pid, call))
}

/// The call of a process with those registers.
fn instructed(program: &Program, machine: &Machine, pid: Pid, regs: &Regs) -> Option<Call>
    ensures { result ≡ instructed (view_of machine.now) pid.0 regs.now
        (slice_get program.now.instructions.items regs.now.point) }
{
    match instruction_at(program, regs.point) {
        Some(instruction) => choose(machine, pid, instruction.filled(&regs.slots)),
        None => exit(pid),
    }
}

/// The instruction at a point.
fn instruction_at(program: &Program, point: u32) -> Option<&Instruction>
    ensures { option_copied result ≡ slice_get program.now.instructions.items point }
{
    program.instructions.get(point as usize)
}

/// The exit of a process past the last instruction. Process 1 stays there.
fn exit(pid: Pid) -> Option<Call>
    ensures { (V : View) (regs : Regs) → result ≡ instructed V pid.0 regs None }
{
    if pid.0 == 1 {
        return None;
    }
    Some(Call::Exit(0))
}

/// The call with the numbers that it chooses: the least that are free. Nothing where none is.
fn choose(machine: &Machine, pid: Pid, call: Call) -> Option<Call>
    ensures { result ≡ chosen (free_numbers (view_of machine.now) pid.0) call }
{
    match call {
        Call::Fork(_) => machine.free_numbers(pid).proc.map(Call::Fork),
        Call::Pipe(..) => {
            let free = machine.free_numbers(pid);
            let pipe = free.pipe?;
            let (read, write) = free.descs?;
            Some(Call::Pipe(pipe, read, write))
        }
        other => Some(other),
    }
}
