//! Does what a command of the debugger says.
ghost use Rattle.std.specs.Prelude.{◌≡◌, IfOk, OnErr, OnOk};
ghost use Rattle.tx_journal.specs.Entries.{history_of};
ghost use Rattle.tx_journal.specs.Moved.{moved_at};
ghost use Rattle.tx_journal.specs.Sessions.{position_of, start_of, IsBetween, SameJournal};
ghost use Rattle.tx_lines.specs.declared.read.command.Command.TheVariants as command;
ghost use Rattle.tx_script.specs.Debug.{command_response, commit_response, position_after, responded_in};

use crate::responses::Response;
use std::alloc::Global;
use tx_base::NoMemory;
use tx_journal::{AtStart, ForwardFault, GotoFault, MovedFault, Session};
use tx_lines::Command;

/// Does what a command says, and gives its response.
///
/// NoMemory where a growth is refused: the position is then the old one, or is between that and
/// the one to which the command leads.
#[inline(always)] // each command needs it, and a call of its own costs 30
pub fn walk(alloc: Global, session: &mut Session, command: Command) -> Result<Response, NoMemory>
    ensures response { IfOk result (λ response. responded_in response
        ≡ command_response (start_of session.old) (history_of session.old.entries)
        (position_of session.old) command) }
    ensures moved { OnOk result
        (position_of session.new
        ≡ position_after (history_of session.old.entries) (position_of session.old) command) }
    ensures stopped { OnErr result
        (IsBetween (position_of session.old) (position_of session.new)
        (position_after (history_of session.old.entries) (position_of session.old) command)) }
    ensures journal { SameJournal session.new session.old }
{
    match command {
        Command::Back => Ok(back(session)),
        Command::Forward => forward(alloc, session),
        Command::Goto(position) => goto(alloc, session, position),
        Command::State => Ok(Response::State),
        Command::Moved(number) => moved(alloc, session, number),
    }
}

/// Takes the newest entry back that is made.
fn back(session: &mut Session) -> Response
    ensures response { responded_in result
        ≡ command_response (start_of session.old) (history_of session.old.entries)
        (position_of session.old) command.Back }
    ensures moved { position_of session.new
        ≡ position_after (history_of session.old.entries) (position_of session.old) command.Back }
    ensures journal { SameJournal session.new session.old }
{
    match session.back() {
        Ok(()) => Response::Position,
        Err(AtStart) => Response::NoStart,
    }
}

/// Makes the next entry again.
fn forward(alloc: Global, session: &mut Session) -> Result<Response, NoMemory>
    ensures response { IfOk result (λ response. responded_in response
        ≡ command_response (start_of session.old) (history_of session.old.entries)
        (position_of session.old) command.Forward) }
    ensures moved { OnOk result
        (position_of session.new
        ≡ position_after (history_of session.old.entries) (position_of session.old)
        command.Forward) }
    ensures stopped { OnErr result
        (IsBetween (position_of session.old) (position_of session.new)
        (position_after (history_of session.old.entries) (position_of session.old)
        command.Forward)) }
    ensures journal { SameJournal session.new session.old }
{
    match session.forward(alloc) {
        Ok(()) => {
            // It is within the journal, so there was a next entry.
            let _position = session.position();
            Ok(Response::Position)
        }
        Err(ForwardFault::AtEnd) => Ok(Response::NoEnd),
        Err(ForwardFault::NoMemory) => Err(NoMemory),
    }
}

/// Goes to a position.
#[inline(never)] // inlined, its loops would have the registers of each command
fn goto(alloc: Global, session: &mut Session, position: u64) -> Result<Response, NoMemory>
    ensures response { IfOk result (λ response. responded_in response
        ≡ command_response (start_of session.old) (history_of session.old.entries)
        (position_of session.old) (command.Goto position)) }
    ensures moved { OnOk result
        (position_of session.new
        ≡ position_after (history_of session.old.entries) (position_of session.old)
        (command.Goto position)) }
    ensures stopped { OnErr result
        (IsBetween (position_of session.old) (position_of session.new)
        (position_after (history_of session.old.entries) (position_of session.old)
        (command.Goto position))) }
    ensures journal { SameJournal session.new session.old }
{
    match session.goto(alloc, position as usize) {
        Ok(()) => Ok(Response::Position),
        Err(GotoFault::Beyond) => Ok(Response::NoPlace),
        Err(GotoFault::NoMemory) => Err(NoMemory),
    }
}

/// Puts the steps of a transaction together, where the entry of that number commits one.
fn moved(alloc: Global, session: &Session, number: u64) -> Result<Response, NoMemory>
    ensures { IfOk result (λ response. responded_in response
        ≡ commit_response (moved_at (start_of session.now) (history_of session.now.entries)
        number)) }
{
    match session.moved(alloc, number as usize) {
        Ok(moved) => Ok(Response::Moved(Box::new(alloc, moved)?)),
        Err(MovedFault::NotCommit) => Ok(Response::NoCommit),
        Err(MovedFault::NoMemory) => Err(NoMemory),
    }
}
