//! Sessions that the tests begin with.
ghost use Rattle.std.specs.Prelude.{IfOk};
ghost use Rattle.tx_journal.specs.Sessions.{IsAtEnd};

use std::alloc::Global;
use tx_base::{NoMemory, Step};
use tx_journal::Session;
use tx_lines::{Fault, read_schedule};

/// A session in which the steps of the schedule are made that a text spells.
pub(crate) fn session_after(alloc: Global, text: &str) -> Result<Session, Fault>
    ensures { IfOk result IsAtEnd }
{
    let schedule = read_schedule(alloc, text.as_bytes())?;
    Ok(session_of(alloc, schedule.header.count, schedule.steps.as_slice())?)
}

/// A session from so many processes, 1 to 64, in which the steps are made.
pub(crate) fn session_of(alloc: Global, count: u16, steps: &[Step]) -> Result<Session, NoMemory>
    ensures { IfOk result IsAtEnd }
{
    let mut session = Session::boot(alloc, count.clamp(1, 64))?;
    let _refused = make_steps(alloc, &mut session, steps);
    Ok(session)
}

/// Makes the steps, each once. Answers the place of the last that wanted memory.
pub(crate) fn make_steps(alloc: Global, session: &mut Session, steps: &[Step]) -> Option<usize>
    requires { IsAtEnd session.old }
    ensures { IsAtEnd session.new }
{
    let mut refused = None;
    for (i, step) in steps.iter().enumerate() {
        if wants_memory(alloc, session, step) {
            refused = Some(i);
        }
    }
    refused
}

/// Makes a step, by worker 1. Answers whether it wanted memory.
fn wants_memory(alloc: Global, session: &mut Session, step: &Step) -> bool
    requires { IsAtEnd session.old }
    ensures { IsAtEnd session.new }
{
    session.step(alloc, 1, step).wants_memory()
}
