//! Reads the text of a program.
ghost use Rattle.std.specs.Prelude.{◌≡◌, ◌≤◌, ◌++◌, ◌⊎◌, ℕ, IfErr, IfOk, OnOk, Some, length, map};
ghost use Rattle.tx_lines.specs.Programs as spec;
ghost use Rattle.tx_lines.specs.Programs.{instructions_of, linked_line, IsFirstUser, IsUser, ReadsProgram};
ghost use Rattle.tx_lines.specs.declared.faults.Fault.TheVariants.{NoLabel, NoMemory};

use crate::faults::Fault;
use crate::instructions::{Instruction, Line, Name};
use crate::programs::Program;
use crate::read::header::TextKind;
use crate::read::heads::first_header;
use crate::read::program_lines::{FIRST_LINE, read_lines};
use indexmap::IndexMap;
use std::alloc::Global;
use tx_base::{Action, Call};

/// The program whose text this is. The first line at fault decides: `TooLong` where it has more
/// than 512 bytes, or is an instruction after 1,024 or a label after 256; and else `NotALine`
/// where it has no end, or is none of the grammar's, or a label of a name that was met before.
/// After all lines it is `NoLabel` where an instruction uses a label that is not defined. A
/// refused growth is `NoMemory`.
pub fn read_program_text(alloc: Global, text: &[u8]) -> Result<Program, Fault>
    ensures { ReadsProgram text.now result }
{
    let (header, left) = first_header(TextKind::Program, text)?;
    let (lines, labels) = read_lines(alloc, header.version, left)?;
    let instructions = link(alloc, lines.as_slice(), &labels)?;
    Ok(Program {
        header,
        instructions,
        labels,
    })
}

/// The instructions among some lines, each with the number that its label names.
///
/// `NoLabel` at the first line whose instruction uses a label that is not defined, and `NoMemory`
/// where a growth is refused.
pub fn link(
    alloc: Global,
    lines: &[Line],
    labels: &IndexMap<Name, u32>,
) -> Result<Vec<Instruction>, Fault>
    requires { length lines.now ≤ 1280 }
    ensures linked { IfOk result (λ v.
        map (spec.linked labels.now.entries) (instructions_of lines.now) ≡ map Some v.items) }
    ensures fault { IfErr result (λ fault.
        (fault ≡ NoMemory) ⊎ ((number : ℕ) × (fault ≡ NoLabel number)
        × IsFirstUser labels.now.entries lines.now number)) }
{
    let mut instructions = Vec::new(alloc);
    for at in 0..lines.len() {
        push_linked(
            at as u64 + FIRST_LINE,
            &lines[at],
            labels,
            &mut instructions,
        )?;
    }
    Ok(instructions)
}

/// Appends the instruction of the line of that number, if it has one, with the number that its
/// label names.
fn push_linked(
    number: u64,
    line: &Line,
    labels: &IndexMap<Name, u32>,
    instructions: &mut Vec<Instruction>,
) -> Result<(), Fault>
    ensures more { OnOk result
        (map Some instructions.new.items ≡ map Some instructions.old.items
        ++ linked_line labels.now.entries line.now) }
    ensures fault { IfErr result (λ fault.
        (fault ≡ NoMemory) ⊎ ((fault ≡ NoLabel number) × IsUser labels.now.entries line.now)) }
{
    let Line::Instruction(instruction) = line else {
        return Ok(());
    };
    let Some(made) = linked(instruction, labels) else {
        return Err(Fault::NoLabel { line: number });
    };
    if instructions.push(made).is_err() {
        return Err(Fault::NoMemory);
    }
    Ok(())
}

/// The instruction with the number that its label names, where it has one. Nothing where that
/// label is not defined.
fn linked(instruction: &Instruction, labels: &IndexMap<Name, u32>) -> Option<Instruction>
    ensures { result ≡ spec.linked labels.now.entries instruction.now }
{
    let Some(name) = instruction.label() else {
        return Some(instruction.copy());
    };
    let point = *labels.get(name)?;
    let mut made = instruction.copy();
    made.call = with_point(&instruction.call, point);
    Some(made)
}

/// The call with another point, where it has one.
fn with_point(call: &Call, point: u32) -> Call
    ensures { result ≡ spec.with_point point call.now }
{
    match call {
        Call::Jump(_, when) => Call::Jump(point, *when),
        Call::Sigaction(signo, action) => Call::Sigaction(
            *signo,
            action_with_point(*action, point),
        ),
        _ => call.copy(),
    }
}

/// The action with another point, where it has one.
fn action_with_point(action: Action, point: u32) -> Action
    ensures { result ≡ spec.action_with_point point action }
{
    match action {
        Action::Catch { mask, .. } => Action::Catch { point, mask },
        _ => action,
    }
}
