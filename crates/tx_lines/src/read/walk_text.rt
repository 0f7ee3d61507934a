//! Reads the text of a debugger: the lines of a schedule, the line `debug`, and the lines of
//! commands.
ghost use Rattle.std.specs.Prelude.{◌≡◌, ◌≢◌, ◌+◌, ◌<◌, ◌≤◌, ◌↔◌, IfErr, IfOk, IsTrue, MatchResult};
ghost use Rattle.tx_lines.specs.Lines.{step_text};
ghost use Rattle.tx_lines.specs.Schedule.{lines_of, AreSteps, FaultsAmong, FaultsBy, IsLine};
ghost use Rattle.tx_lines.specs.Walks.{before_commands, command_text, debug_line, AreCommands, FaultsAtCommand, FaultsBeforeCommands, IsPastSteps, FaultsUnreadBefore, ReadsWalk};

use crate::faults::Fault;
use crate::read::command::{Command, read_command};
use crate::read::header::{TextKind, Version};
use crate::read::heads::first_header;
use crate::read::lines::{LINES, line_of, next_line, take_line};
use crate::read::schedule::Schedule;
use crate::read::text::push_step;
use crate::read::walk::Walk;
use std::alloc::Global;
use tx_base::Step;

/// The schedule and the commands whose text this is. The first line at fault decides: `TooLong`
/// where it has more than 512 bytes, or comes after 4,096 steps and is not `debug`, or after 4,096
/// commands; and else `NotALine` where it has no end or is none of the grammar's, also at the line
/// after the last one where no line is `debug`. A refused growth is `NoMemory`.
pub fn read_walk(alloc: Global, text: &[u8]) -> Result<Walk, Fault>
    ensures { ReadsWalk text.now result }
{
    let (header, left) = first_header(TextKind::Schedule, text)?;
    let (steps, left) = steps_before_commands(alloc, header.version, left)?;
    let commands = read_commands(alloc, header.version, steps.len() as u64 + 3, left)?;
    Ok(Walk {
        schedule: Schedule { header, steps },
        commands,
    })
}

/// The steps before the line `debug`, and the text after that line.
fn steps_before_commands(
    alloc: Global,
    version: Version,
    text: &[u8],
) -> Result<(Vec<Step>, &[u8]), Fault>
    ensures { MatchResult result
        (λ r. AreSteps version r.0.items × (text.now ≡ before_commands r.0.items r.1.now))
        (FaultsBy (FaultsAmong step_text (AreSteps version) (FaultsBeforeCommands version)
        text.now)) }
{
    let mut steps = Vec::new(alloc);
    let mut left = text;
    loop {
        let (line, rest) = line_before_commands(steps.len(), left)?;
        if is_debug(line) {
            return Ok((steps, rest));
        }
        push_step(version, line, &mut steps)?;
        left = rest;
    }
}

/// The first line of what is left of a text after so many steps, where no line was `debug`, and
/// the text after that line.
fn line_before_commands(count: usize, left: &[u8]) -> Result<(&[u8], &[u8]), Fault>
    requires { count ≤ 4096 }
    ensures line { IfOk result (λ r. IsLine left.now r.0.now r.1.now) }
    ensures few { IfOk result (λ r. r.0.now ≢ debug_line → count < 4096) }
    ensures fault { IfErr result (FaultsUnreadBefore count left.now) }
{
    let number = count as u64 + 2;
    if count == LINES && is_past_steps(left) {
        return Err(Fault::TooLong { line: number });
    }
    line_of(number, left)
}

/// Whether there is a line that is not `debug`.
fn is_past_steps(left: &[u8]) -> bool
    ensures { IsTrue result ↔ IsPastSteps 4096 left.now }
{
    let (line, _rest) = take_line(left);
    !left.is_empty() && !is_debug(line)
}

/// Whether a line is the one between the steps and the commands.
fn is_debug(line: &[u8]) -> bool
    ensures { IsTrue result ↔ (line.now ≡ debug_line) }
{
    line == b"debug".as_slice()
}

/// The commands in the lines of a text of that version, of which the first has that number.
fn read_commands(
    alloc: Global,
    version: Version,
    number: u64,
    text: &[u8],
) -> Result<Vec<Command>, Fault>
    requires { number ≤ 4099 }
    ensures { MatchResult result
        (λ r. AreCommands version r.items × (text.now ≡ lines_of command_text r.items))
        (FaultsBy (FaultsAmong command_text (AreCommands version) (FaultsAtCommand version number)
        text.now)) }
{
    let mut commands = Vec::new(alloc);
    let mut left = text;
    while !left.is_empty() {
        let (line, rest) = next_line(number, commands.len(), left)?;
        let Some(command) = read_command(version, line) else {
            return Err(Fault::NotALine {
                line: commands.len() as u64 + number,
            });
        };
        if commands.push(command).is_err() {
            return Err(Fault::NoMemory);
        }
        left = rest;
    }
    Ok(commands)
}
