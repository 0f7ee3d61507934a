//! Reads the commands of a debugger.
ghost use Rattle.std.specs.Prelude.{◌≡◌, ◌<◌, ◌^◌, ◌++◌, ℕ, codes, IfSome, Some};
ghost use Rattle.std.specs.Fmt.{decimal};
ghost use Rattle.tx_lines.specs.Walks.{command_text, FitsCommand};
ghost use Rattle.tx_lines.specs.declared.read.command.Command.{Command};
ghost use Rattle.tx_lines.specs.declared.read.header.Version.TheVariants.{Two};
ghost use Rattle.tx_lines.specs.declared.read.header.Version.{Version as TheVersion};

use crate::read::header::Version;
use crate::read::small::read_position;
use crate::read::split::after_front;

/// A command of a debugger.
#[derive(Clone, Copy)]
pub enum Command {
    /// To take back the newest entry that is made.
    Back,
    /// To make the next entry again.
    Forward,
    /// To go to the position after so many entries.
    Goto(u64),
    /// To print the state at the position.
    State,
    /// To list the entries with the steps of a transaction put directly before the entry that
    /// commits it, which has that number, and to say whether it may count as one moment. Of
    /// version 2.
    Moved(u64),
}

/// The command of that version that a line spells. Nothing where it is another line.
#[inline(always)] // it has few callers, and each line of a walk needs it
pub fn read_command(version: Version, line: &[u8]) -> Option<Command>
    ensures found { IfSome result (λ c. line.now ≡ command_text c) }
    ensures fits { IfSome result (FitsCommand version) }
    ensures only { (c : Command) → FitsCommand version c → line.now ≡ command_text c →
        result ≡ Some c }
{
    if line == b"back".as_slice() {
        return Some(Command::Back);
    }
    if line == b"forward".as_slice() {
        return Some(Command::Forward);
    }
    if line == b"state".as_slice() {
        return Some(Command::State);
    }
    if let Some(number) = moved(version, line) {
        return Some(Command::Moved(number));
    }
    goto(line)
}

/// The command that goes to a position, where a line spells one.
fn goto(line: &[u8]) -> Option<Command>
    ensures found { IfSome result (λ c. line.now ≡ command_text c) }
    ensures fits { (version : TheVersion) → IfSome result (FitsCommand version) }
    ensures only { (position : ℕ) → position < 2 ^ 63 →
        line.now ≡ codes "goto " ++ decimal position → result ≡ Some (Command.Goto position) }
{
    let word = after_front(b"goto ", line)?;
    let position = read_position(word)?;
    Some(Command::Goto(position))
}

/// The number of the entry that a line of version 2 asks about, where it commits a transaction.
fn moved(version: Version, line: &[u8]) -> Option<u64>
    ensures found { IfSome result (λ number. line.now ≡ codes "moved " ++ decimal number) }
    ensures fits { IfSome result (λ number. (version ≡ Two) × (number < 2 ^ 63)) }
    ensures only { (number : ℕ) → version ≡ Two → number < 2 ^ 63 →
        line.now ≡ codes "moved " ++ decimal number → result ≡ Some number }
{
    let Version::Two = version else {
        return None;
    };
    let word = after_front(b"moved ", line)?;
    read_position(word)
}
