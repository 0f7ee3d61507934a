//! A program: what the processes of a kernel run.
ghost use Rattle.std.specs.Prelude.{◌≡◌, IfOk};
ghost use Rattle.tx_lines.specs.Ends.{IsFresh};
ghost use Rattle.tx_lines.specs.Programs.{IsSameProgram, ReadsProgramFrom};

use crate::ends::flow::Source;
use crate::ends::whole::read_whole;
use crate::faults::Fault;
use crate::instructions::{Instruction, Name};
use crate::read::header::Header;
use crate::read::program_text::read_program_text;
use indexmap::IndexMap;
use std::alloc::Global;
use tx_base::NoMemory;

/// What all processes run, each from the first instruction on.
#[derive(Drop)]
pub struct Program {
    /// The version of its text, and how many processes there are at the start.
    pub header: Header,
    /// A point is a number of these, from 0.
    pub instructions: Vec<Instruction>,
    /// The labels in the order met, each with the number of the instruction after it.
    pub labels: IndexMap<Name, u32>,
}

impl Program {
    /// An equal program.
    pub fn copy(&self, alloc: Global) -> Result<Program, NoMemory>
        ensures { IfOk result (IsSameProgram self.now) }
    {
        let labels = self.labels.clone()?;
        let instructions = copy_instructions(alloc, self.instructions.as_slice())?;
        Ok(Program {
            header: self.header,
            instructions,
            labels,
        })
    }
}

/// A list of equal instructions.
fn copy_instructions(
    alloc: Global,
    instructions: &[Instruction],
) -> Result<Vec<Instruction>, NoMemory>
    ensures { IfOk result (λ copy. copy.items ≡ instructions.now) }
{
    let mut copy = Vec::with_capacity(alloc, instructions.len())?;
    for instruction in instructions {
        copy.push(instruction.copy()).map_err(|_| NoMemory)?;
    }
    Ok(copy)
}

/// Reads the text of a program to its end: the program, or why there is none, as
/// `read_program_text` reports it. A text of more than 1,048,576 bytes is `TooLong` at line 0. A
/// failure of the source, and its 1,001st interruption, is `Reader`.
pub fn read_program<S: Source>(alloc: Global, source: &mut S) -> Result<Program, Fault>
    requires { IsFresh (S.counts source.old) }
    ensures { ReadsProgramFrom (S.left source.old) (S.counts source.old) result
        (S.counts source.new) }
{
    let text = read_whole(alloc, source)?;
    read_program_text(alloc, text.as_slice())
}
