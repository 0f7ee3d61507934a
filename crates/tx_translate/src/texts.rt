//! Reads what a text of any version means, line by line.
ghost use Rattle.std.specs.Prelude.{IfOk, IfSome};
ghost use Rattle.tx_translate.specs.MeantTexts.{MeansText};

use crate::first_lines::begun_schedule;
use crate::programs::program_in;
use crate::walks::commands_after;
use std::alloc::Global;
use tx_base::NoMemory;
use tx_lines::{Program, Schedule, Walk};

/// What a text means, by its kind.
#[derive(Drop)]
pub enum Text {
    Schedule(Schedule),
    Walk(Walk),
    Program(Program),
}

/// What a text of any version means: a schedule, one with commands, or a program. Each line is
/// read once, and nothing is translated as a whole. Nothing where the text means none of these.
/// The only error is a refused growth of memory.
pub fn read_text(alloc: Global, text: &[u8]) -> Result<Option<Text>, NoMemory>
    ensures { IfOk result (λ found. IfSome found (MeansText text.now)) }
{
    let Some((schedule, left)) = begun_schedule(alloc, text)? else {
        return Ok(program_in(alloc, text)?.map(Text::Program));
    };
    if left.split().is_none() {
        return Ok(Some(Text::Schedule(schedule)));
    }
    let commands = commands_after(alloc, schedule.header.version, left)?;
    Ok(commands.map(|commands| Text::Walk(Walk { schedule, commands })))
}
