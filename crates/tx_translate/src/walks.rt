//! Reads the schedule and the commands that a text of any version means.
ghost use Rattle.std.specs.Prelude.{◌≡◌, ◌∷◌, ◌++◌, IfOk, IfSome, true};
ghost use Rattle.tx_lines.specs.Schedule.{lines_of};
ghost use Rattle.tx_lines.specs.Walks.{command_text, debug_line, AreCommands, FitsCommand};
ghost use Rattle.tx_translate.specs.MeantLines.{left_of, line_of};
ghost use Rattle.tx_translate.specs.MeantWalks.{MeansWalkOf};

use crate::meant::Meant;
use crate::meant_lines::{MeantLines, OwnLine};
use crate::plain::is_third;
use crate::room::Room;
use crate::texts::{Text, read_text};
use std::alloc::{AllocError, Global};
use tx_lines::{Command, Fault, LINES, Version, Walk, read_command, read_walk as read_second};

/// The schedule and the commands that a text means, or the fault of the text. A text of version 3
/// is read line by line; where it is at fault, what it means is made as a text, in which the fault
/// is found.
pub fn read_walk(alloc: Global, text: &[u8]) -> Result<Walk, Fault>
    ensures { MeansWalkOf text.now result }
{
    if is_third(text)
        && let Some(Text::Walk(walk)) = read_text(alloc, text)?
    {
        return Ok(walk);
    }
    let meant = Meant::by(alloc, text)?;
    match read_second(alloc, meant.as_bytes()) {
        Ok(walk) => Ok(walk),
        Err(fault) => Err(meant.own_fault(fault)),
    }
}

/// The commands of that version that lines mean after the one before commands. Nothing where the
/// first is not that one, one of the others means no command, or there are too many.
pub fn commands_after(
    alloc: Global,
    version: Version,
    lines: MeantLines<'_>,
) -> Result<Option<Vec<Command>>, AllocError>
    ensures { IfOk result (λ found. IfSome found (λ commands. AreCommands version commands.items
        × (left_of lines.entry ≡ debug_line ++ 10 ∷ lines_of command_text commands.items))) }
{
    let mut room = Room::new();
    let (line, rest) = lines.cut();
    if line.is_ended && line.is_debug(&mut room) {
        commands_in(alloc, version, rest)
    } else {
        Ok(None)
    }
}

/// The commands of that version that lines mean. Nothing where one means none, or there are too
/// many.
fn commands_in(
    alloc: Global,
    version: Version,
    lines: MeantLines<'_>,
) -> Result<Option<Vec<Command>>, AllocError>
    ensures { IfOk result (λ found. IfSome found (λ commands. AreCommands version commands.items
        × (left_of lines.entry ≡ lines_of command_text commands.items))) }
{
    let mut commands = Vec::new(alloc);
    let mut room = Room::new();
    let mut left = lines;
    while let Some((line, rest)) = left.split() {
        let Some(command) = command_of(version, line, &mut room) else {
            return Ok(None);
        };
        if commands.len() >= LINES {
            return Ok(None);
        }
        commands.push(command)?;
        left = rest;
    }
    Ok(Some(commands))
}

/// The command of that version that a line means. Nothing where it means none, or has no end.
fn command_of(version: Version, line: OwnLine<'_>, room: &mut Room) -> Option<Command>
    ensures found { IfSome result (λ command. line_of line.entry ≡ command_text command) }
    ensures fits { IfSome result (FitsCommand version) }
    ensures ended { IfSome result (λ command. line.entry.is_ended ≡ true) }
{
    if !line.is_ended {
        return None;
    }
    read_command(version, line.meaning(room))
}
