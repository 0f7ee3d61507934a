//! The line of version 2 that a single line means.
ghost use Rattle.std.specs.Prelude.{◌≡◌, option_map};
ghost use Rattle.tx_lines.specs.declared.read.header.TextKind.TheVariants.{Schedule};
ghost use Rattle.tx_translate.specs.Lines.{plain_line};
ghost use Rattle.tx_translate.specs.OwnLines.{without_return};
ghost use Rattle.tx_translate.specs.declared.stage.Stage.TheVariants.{Within};

use crate::lines::before_return;
use crate::plain_lines::line_meaning;
use crate::room::Room;
use crate::stage::Stage;
use tx_lines::TextKind;

/// The line of version 2 that a line of version 3 means after the header of a schedule; nothing
/// where it has no word, or gives a name to a process. A byte 13 at its end is no part of it. What
/// is wrong stays as it is, a line of more than 512 bytes as a whole. A line that is spelled
/// otherwise replaces what was in the room.
pub fn plain_line<'a>(room: &'a mut Room, line: &'a [u8]) -> Option<&'a [u8]>
    ensures { option_map (λ meaning. meaning.now) result
        ≡ plain_line (Within Schedule) (without_return line.now) }
{
    line_meaning(room, Stage::Within(TextKind::Schedule), before_return(line))
}
