//! Answers what would be, and leaves everything as it is.
ghost use Rattle.std.specs.Prelude.{◌≡◌, IfOk, option_map, string_bytes};
ghost use Rattle.tx_journal.specs.Entries.{history_of};
ghost use Rattle.tx_journal.specs.Sessions.{made_of, start_of};
ghost use Rattle.tx_journal.specs.Trials.{answer_there, shown_at, shown_with};
ghost use Rattle.tx_shell.specs.Differences.{differing_without, views_differing};

use crate::questions::differences::put_all_differing;
use std::alloc::Global;
use tx_base::{NoMemory, Pid, Reply, Step};
use tx_journal::{Session, print_pieces};

/// How the state would differ after an abort of the live transaction of a starter. Nothing where it
/// has none.
///
/// NoMemory where a growth is refused.
pub fn without(
    alloc: Global,
    session: &mut Session,
    starter: u16,
) -> Result<Option<String>, NoMemory>
    ensures answer { IfOk result (λ differences. option_map string_bytes differences
        ≡ differing_without (start_of session.old) (history_of (made_of session.old)) starter) }
    ensures same { session.new ≡ session.old }
{
    if !session.machine().is_live(Pid(starter)) {
        return Ok(None);
    }
    let (_reply, lines) = try_at(alloc, session, &Step::KernelAbort(Pid(starter)))?;
    Ok(Some(lines))
}

/// The reply that a step would get at the position, and how the state after it would differ. It
/// prints only the pieces of the state that the step may change.
///
/// NoMemory where a growth is refused.
pub fn try_at(
    alloc: Global,
    session: &mut Session,
    step: &Step,
) -> Result<(Reply, String), NoMemory>
    ensures reply { IfOk result (λ r. r.0 ≡ answer_there session.old step.now) }
    ensures lines { IfOk result (λ r. string_bytes r.1
        ≡ views_differing (shown_at session.old) (shown_with session.old step.now)) }
    ensures same { session.new ≡ session.old }
{
    let pieces = session.pieces_reached(alloc, step)?;
    let before = print_pieces(alloc, session.machine(), pieces.as_slice())?;
    let (reply, after) = session.trial(alloc, step, pieces.as_slice())?;
    let mut lines = String::new(alloc);
    put_all_differing(&mut lines, before.as_slice(), after.as_slice())?;
    Ok((reply, lines))
}
