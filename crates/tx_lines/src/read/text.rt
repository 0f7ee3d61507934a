//! Reads the text of a schedule, line by line.
ghost use Rattle.std.specs.Prelude.{◌≡◌, ◌+◌, ◌<◌, ◌⊎◌, IfErr, MatchResult, OnOk, length};
ghost use Rattle.tx_lines.specs.Lines.{step_text};
ghost use Rattle.tx_lines.specs.Schedule.{steps_text, Adds, AreSteps, FaultsAmong, FaultsAtStep, FaultsBy, FitsStepOf, IsNoStep, ReadsSchedule};
ghost use Rattle.tx_lines.specs.declared.faults.Fault.TheVariants.{NoMemory, NotALine};

use crate::faults::Fault;
use crate::read::header::{TextKind, Version};
use crate::read::heads::first_header;
use crate::read::lines::{LINES, next_line};
use crate::read::schedule::Schedule;
use crate::read::steps::read_step_into;
use std::alloc::Global;
use tx_base::Step;

/// How many bytes the line of a step has at least, with its end, as `1 map 0`.
const STEP_BYTES: usize = 8;

/// The number of the first line of a step.
const FIRST_STEP: u64 = 2;

/// The schedule whose text this is. The first line at fault decides: `TooLong` where it has more
/// than 512 bytes or comes after 4,096 steps, and else `NotALine` where it has no end or is none
/// of the grammar's. A refused growth is `NoMemory`.
pub fn read_schedule(alloc: Global, text: &[u8]) -> Result<Schedule, Fault>
    ensures { ReadsSchedule text.now result }
{
    let (header, left) = first_header(TextKind::Schedule, text)?;
    let steps = read_steps(alloc, header.version, left)?;
    Ok(Schedule { header, steps })
}

/// The steps in the lines of a text of that version, after its header.
fn read_steps(alloc: Global, version: Version, text: &[u8]) -> Result<Vec<Step>, Fault>
    ensures { MatchResult result (λ r. AreSteps version r.items × (text.now ≡ steps_text r.items))
        (FaultsBy (FaultsAmong step_text (AreSteps version) (FaultsAtStep version) text.now)) }
{
    let mut steps = Vec::with_capacity(alloc, LINES.min(text.len() / STEP_BYTES))?;
    let mut left = text;
    while !left.is_empty() {
        let (line, rest) = next_line(FIRST_STEP, steps.len(), left)?;
        push_step(version, line, &mut steps)?;
        left = rest;
    }
    Ok(steps)
}

/// Reads the step of a line of a text of that version, and appends it.
///
/// `NotALine` where the line spells none, and `NoMemory` where a growth is refused.
#[inline(always)] // a call of its own costs each line of a schedule 30 instructions
pub fn push_step(version: Version, line: &[u8], steps: &mut Vec<Step>) -> Result<(), Fault>
    requires { length steps.old.items < 4096 }
    ensures added { OnOk result
        (Adds step_text (FitsStepOf version) line.now steps.old.items steps.new.items) }
    ensures fault { IfErr result (λ fault.
        (fault ≡ NoMemory) ⊎ ((fault ≡ NotALine (length steps.old.items + 2))
        × IsNoStep version line.now)) }
{
    let count = steps.len();
    if steps.push(Step::blank()).is_err() {
        return Err(Fault::NoMemory);
    }
    if !read_step_into(version, line, &mut steps[count]) {
        return Err(Fault::NotALine {
            line: count as u64 + FIRST_STEP,
        });
    }
    Ok(())
}
