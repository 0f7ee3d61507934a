//! Makes the steps of a schedule, and keeps the reply to each.
ghost use Rattle.std.specs.Prelude.{◌≡◌, ◌++◌, [], List, IfErr, IfOk, OnOk};
ghost use Rattle.tx_base.specs.declared.steps.Accepted.{Accepted};
ghost use Rattle.tx_core.specs.Runs.{IsAfter};
ghost use Rattle.tx_lines.specs.Lines.{FitsHeader};
ghost use Rattle.tx_lines.specs.declared.faults.Fault.TheVariants.{NoMemory};
ghost use Rattle.tx_content.specs.Content.{view_of};
ghost use Rattle.tx_model.specs.Answer.{answer};
ghost use Rattle.tx_model.specs.Schedules.{answers_of, history_of, history_with};
ghost use Rattle.tx_model.specs.State.{State};
ghost use Rattle.tx_script.specs.Report.{last_view, start_state};

use crate::machines::boot;
use std::alloc::Global;
use tx_base::{Reply, Step};
use tx_content::Inverse;
use tx_core::Machine;
use tx_lines::{Fault, Schedule};

/// The replies to the steps of a schedule, and the machine that they leave.
#[derive(Drop)]
pub struct Answered {
    /// The reply to each step, in order.
    pub replies: Vec<Reply>,
    pub machine: Machine,
}

/// Makes all steps of a schedule. The only fault is `NoMemory`.
pub fn make_all(alloc: Global, schedule: &Schedule) -> Result<Answered, Fault>
    requires { FitsHeader schedule.now.header }
    ensures replies { IfOk result (λ made. made.replies.items
        ≡ answers_of (start_state schedule.now.header) [] schedule.now.steps.items) }
    ensures view { IfOk result (λ made. view_of made.machine
        ≡ last_view schedule.now.header schedule.now.steps.items) }
    ensures fault { IfErr result (λ fault. fault ≡ NoMemory) }
{
    let mut machine = boot(alloc, schedule.header)?;
    let mut replies = Vec::with_capacity(alloc, schedule.steps.len())?;
    make_steps(alloc, &mut replies, &mut machine, schedule.steps.as_slice())?;
    Ok(Answered { replies, machine })
}

/// Makes the steps, and appends the reply to each.
fn make_steps(
    alloc: Global,
    replies: &mut Vec<Reply>,
    machine: &mut Machine,
    steps: &[Step],
) -> Result<(), Fault>
    ensures replies { OnOk result
        ((start : State) (earlier : List Accepted) → IsAfter start earlier machine.old →
        replies.new.items ≡ replies.old.items ++ answers_of start earlier steps.now) }
    ensures after { OnOk result
        ((start : State) (earlier : List Accepted) → IsAfter start earlier machine.old →
        IsAfter start (history_of start earlier steps.now) machine.new) }
    ensures fault { IfErr result (λ fault. fault ≡ NoMemory) }
{
    let mut inverse = Inverse::blank();
    for i in 0..steps.len() {
        let mut reply = Reply::Ended;
        make_step(alloc, machine, &steps[i], &mut reply, &mut inverse)?;
        if replies.push(reply).is_err() {
            return Err(Fault::NoMemory);
        }
    }
    Ok(())
}

/// Makes a step, which is never taken back, and puts its reply and its inverse into their places.
/// The only fault is `NoMemory`.
pub fn make_step(
    alloc: Global,
    machine: &mut Machine,
    step: &Step,
    reply: &mut Reply,
    inverse: &mut Inverse,
) -> Result<(), Fault>
    ensures answer { OnOk result (reply.new ≡ answer (view_of machine.old) step.now) }
    ensures after { OnOk result
        ((start : State) (earlier : List Accepted) → IsAfter start earlier machine.old →
        IsAfter start (history_with earlier step.now reply.new) machine.new) }
    ensures fault { IfErr result (λ fault. fault ≡ NoMemory) }
{
    let _accepted = machine.step_into(alloc, step, reply, inverse);
    if reply.wants_memory() {
        return Err(Fault::NoMemory);
    }
    Ok(())
}
