//! Answers the lines of a terminal, one by one.
ghost use Rattle.tx_shell.specs.Events.{IsServed};
ghost use Rattle.tx_shell.specs.Standings.{standing_of};

pub mod console;
pub mod taking;
pub mod terminal;

use crate::sessions::terminal::{Got, Terminal};
use crate::shell::Shell;
use std::alloc::Global;
use thiserror::Error;
use tx_base::NoMemory;
use tx_translate::Room;

/// How many lines a session may have.
const LINES: u64 = 4_294_967_296;

/// Why a session ended before its lines did. It prints as the fault of a text does.
#[derive(Clone, Copy, PartialEq, Eq, Debug, Error)]
pub enum ServeFault {
    /// There were more lines than a session may have.
    #[error("F3 line 0")]
    TooMany,
    /// No line could be read.
    #[error("F4")]
    Reader,
    /// An answer could not be shown whole.
    #[error("F5")]
    Writer,
    /// A growth of memory was refused.
    #[error("F6")]
    NoMemory,
}

/// Answers each line of a terminal before the next one is read, up to the end of the lines or a
/// line that asks for the end.
///
/// `Reader` and `Writer` where the terminal fails, `NoMemory` where a growth is refused, and
/// `TooMany` after 4,294,967,296 lines: what came and went up to there is a session too.
pub fn serve<T: Terminal>(
    alloc: Global,
    shell: &mut Shell,
    terminal: &mut T,
) -> Result<(), ServeFault>
    ensures { IsServed (standing_of shell.old) (standing_of shell.new) (T.traffic terminal.old)
        (T.traffic terminal.new) result }
{
    let mut line = Vec::new(alloc);
    let mut room = Room::new();
    let mut text = String::new(alloc);
    for number in 0..LINES {
        match terminal.line(shell.position(), &mut line) {
            Got::Line => {}
            Got::End => return Ok(()),
            Got::Failed => return Err(ServeFault::Reader),
        }
        match shell.answer(alloc, &mut room, line.as_slice(), &mut text) {
            Ok(true) => {}
            Ok(false) => return Ok(()),
            Err(NoMemory) => return Err(ServeFault::NoMemory),
        }
        if !terminal.show(text.as_bytes()) {
            return Err(ServeFault::Writer);
        }
    }
    Err(ServeFault::TooMany)
}
