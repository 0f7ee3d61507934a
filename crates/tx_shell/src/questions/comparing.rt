//! Compares the states at two positions.
ghost use Rattle.std.specs.Prelude.{◌≡◌, ◌≤◌, IfOk, OnErr, OnOk, length, option_map, string_bytes};
ghost use Rattle.tx_journal.specs.Entries.{history_of};
ghost use Rattle.tx_journal.specs.Sessions.{position_of, start_of, IsBetween, SameJournal};
ghost use Rattle.tx_shell.specs.Comparisons.{are_there, compared_at, differing_between, IsAmong};

use crate::answers::count_steps;
use crate::answers::reserving::reserve_walk;
use crate::questions::differences::put_all_differing;
use std::alloc::Global;
use tx_base::NoMemory;
use tx_journal::{GotoFault, Session, all_pieces, print_pieces};
use tx_lines::Command;

/// By which lines the state at a position differs from that at another one, where both are there.
/// It goes to both and back, so it costs the steps between them, and the texts of both states.
///
/// NoMemory where a growth is refused: the position is then among the old one and those two.
pub fn compare(
    alloc: Global,
    session: &mut Session,
    from: usize,
    to: usize,
) -> Result<Option<String>, NoMemory>
    ensures lines { IfOk result (λ found. option_map string_bytes found
        ≡ differing_between (start_of session.old) (history_of session.old.entries) from to) }
    ensures stays { OnOk result (position_of session.new ≡ position_of session.old) }
    ensures among { IsAmong (position_of session.old)
        (compared_at (history_of session.old.entries) from to (position_of session.old) from)
        (compared_at (history_of session.old.entries) from to (position_of session.old) to)
        (position_of session.new) }
    ensures journal { SameJournal session.new session.old }
{
    if !are_there(session, from, to) {
        return Ok(None);
    }
    let at = session.position();
    go(alloc, session, from)?;
    let pieces = all_pieces(alloc, session.machine())?;
    let before = print_pieces(alloc, session.machine(), pieces.as_slice())?;
    go(alloc, session, to)?;
    let after = print_pieces(alloc, session.machine(), pieces.as_slice())?;
    go(alloc, session, at)?;
    let mut lines = String::new(alloc);
    put_all_differing(&mut lines, before.as_slice(), after.as_slice())?;
    Ok(Some(lines))
}

/// Whether both positions are there.
fn are_there(session: &Session, from: usize, to: usize) -> bool
    ensures { result ≡ are_there (history_of session.now.entries) from to }
{
    let count = count_steps(session);
    from <= count && to <= count
}

/// Goes to a position, which must be there, and keeps what it takes back, where there is room.
///
/// NoMemory where a growth is refused: the position is then between the old one and that.
fn go(alloc: Global, session: &mut Session, position: usize) -> Result<(), NoMemory>
    requires { position ≤ length session.old.entries }
    ensures moved { OnOk result (position_of session.new ≡ position) }
    ensures stopped { OnErr result
        (IsBetween (position_of session.old) (position_of session.new) position) }
    ensures journal { SameJournal session.new session.old }
{
    reserve_walk(session, Command::Goto(position as u64));
    match session.goto(alloc, position) {
        Ok(()) => Ok(()),
        Err(GotoFault::NoMemory) => Err(NoMemory),
        Err(GotoFault::Beyond) => unreachable!(),
    }
}
