//! Makes the steps of a schedule in a session.
ghost use Rattle.std.specs.Prelude.{◌≡◌, IfErr, IfOk, OnOk};
ghost use Rattle.tx_journal.specs.Entries.{history_of};
ghost use Rattle.tx_journal.specs.Sessions.{start_of, IsAtEnd, SameBoot};
ghost use Rattle.tx_lines.specs.Lines.{FitsHeader};
ghost use Rattle.tx_lines.specs.declared.faults.Fault.TheVariants.{NoMemory};
ghost use Rattle.tx_model.specs.Answer.{answer};
ghost use Rattle.tx_model.specs.Schedules.{history_with, history_of as history_after};
ghost use Rattle.tx_model.specs.View.{view};
ghost use Rattle.tx_script.specs.Made.{IsMade};

use std::alloc::Global;
use tx_base::{Reply, Step};
use tx_journal::Session;
use tx_lines::{Fault, Schedule};

/// The worker that makes the steps of a schedule, and of a session.
pub const WORKER: u16 = 1;

/// A session in which the steps of a schedule are made, with room to walk over them. The only
/// fault is `NoMemory`.
pub fn walked(alloc: Global, schedule: Schedule) -> Result<Session, Fault>
    requires { FitsHeader schedule.header }
    ensures made { IfOk result (IsMade schedule.header schedule.steps.items) }
    ensures fault { IfErr result (λ fault. fault ≡ NoMemory) }
{
    let Schedule { header, mut steps } = schedule;
    let mut session = Session::boot_by(alloc, header)?;
    session.reserve(steps.len())?;
    make_steps(alloc, &mut session, steps.as_mut_slice())?;
    // Where it is refused, a walk forward makes each step again.
    let _room = session.reserve_forward(0);
    Ok(session)
}

/// Makes the steps at the end of the journal, and moves those there that are accepted.
fn make_steps(alloc: Global, session: &mut Session, steps: &mut [Step]) -> Result<(), Fault>
    requires { IsAtEnd session.old }
    ensures history { OnOk result (history_of session.new.entries
        ≡ history_after (start_of session.old) (history_of session.old.entries) steps.old) }
    ensures boot { SameBoot session.new session.old }
    ensures at_end { IsAtEnd session.new }
    ensures fault { IfErr result (λ fault. fault ≡ NoMemory) }
{
    let mut reply = Reply::Ended;
    for i in 0..steps.len() {
        make_step(alloc, session, &mut steps[i], &mut reply)?;
    }
    Ok(())
}

/// Makes a step at the end of the journal, moves it there if it is accepted, and puts its reply in
/// its place.
pub fn make_step(
    alloc: Global,
    session: &mut Session,
    step: &mut Step,
    reply: &mut Reply,
) -> Result<(), Fault>
    requires { IsAtEnd session.old }
    ensures answer { OnOk result (reply.new
        ≡ answer (view (start_of session.old) (history_of session.old.entries)) step.old) }
    ensures history { OnOk result (history_of session.new.entries
        ≡ history_with (history_of session.old.entries) step.old reply.new) }
    ensures boot { SameBoot session.new session.old }
    ensures at_end { IsAtEnd session.new }
    ensures fault { IfErr result (λ fault. fault ≡ NoMemory) }
{
    let _machine = session.machine();
    session.enter(alloc, WORKER, step, reply);
    if reply.wants_memory() {
        return Err(Fault::NoMemory);
    }
    Ok(())
}
