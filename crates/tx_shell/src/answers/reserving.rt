//! Makes room to keep what a walk takes back.
ghost use Rattle.std.specs.Prelude.{◌≡◌};

use tx_journal::Session;
use tx_lines::Command;

/// Makes room to keep what a command takes back, so that a walk forward exchanges it. Where that is
/// refused, a walk forward makes each step again.
pub fn reserve_walk(session: &mut Session, command: Command)
    ensures { session.new ≡ session.old }
{
    let position = match command {
        Command::Back => session.position().saturating_sub(1),
        Command::Goto(position) => position as usize,
        Command::Forward | Command::State | Command::Moved(_) => return,
    };
    let _room = session.reserve_forward(position);
}
