//! Runs of schedules.
ghost use Rattle.std.specs.Prelude.{◌≡◌, ◌<◌, ◌≤◌, ◌++◌, ◌∷◌, [], List, IfOk, IfSome, OnOk, OnErr, length, reverse};
ghost use Rattle.tx_base.specs.declared.steps.Accepted.{Accepted as TheAccepted};
ghost use Rattle.tx_base.specs.declared.steps.Step.{Step as TheStep};
ghost use Rattle.tx_core.specs.Runs.{RunsFrom, steps_made};
ghost use Rattle.tx_content.specs.Content.{view_of};
ghost use Rattle.tx_model.specs.Answer.{Lawful, Agreement};
ghost use Rattle.tx_model.specs.Schedules.{history_of};
ghost use Rattle.tx_model.specs.State.{State, boot_state};
ghost use Rattle.tx_model.specs.View.{view};
ghost use Rattle.tx_moment.specs.Moments.{HasMoments};

use crate::machine::Machine;
use std::alloc::Global;
use tx_base::{Accepted, NoMemory, Step};
use tx_laws::erasure;
use tx_moment::one_moment;

/// A run: the machine as the schedule leaves it, and the accepted steps with their replies, the
/// oldest first.
#[derive(Drop)]
pub struct Ran {
    pub machine: Machine,
    pub history: Vec<Accepted>,
}

/// What is kept of a run, up to the step that was refused memory.
#[derive(Drop)]
pub struct Kept {
    /// The run of the steps that were made: those before the one where it stopped, or all.
    pub ran: Ran,
    /// The number of the step where it stopped, counted from 0. None where all were made.
    pub stopped: Option<usize>,
}

/// Runs a schedule on a machine of 64 process numbers, of which the first few run.
///
/// `NoMemory` if a step answers that, or if its place in the history is refused. The run is then
/// lost: `run_kept` keeps it.
pub fn run(alloc: Global, count: u16, steps: &[Step]) -> Result<Ran, NoMemory>
    requires low { 1 ≤ count }
    requires high { count ≤ 64 }
    ensures history { IfOk result (λ ran.
        reverse ran.history.items ≡ history_of (boot_state 64 count) [] steps.now) }
    ensures lawful { IfOk result (λ ran. Lawful (boot_state 64 count) (reverse ran.history.items)) }
    ensures view { IfOk result (λ ran.
        view_of ran.machine ≡ view (boot_state 64 count) (reverse ran.history.items)) }
    ensures agreement { IfOk result (λ ran.
        (later earlier : List TheAccepted) → reverse ran.history.items ≡ later ++ earlier →
        Agreement (boot_state 64 count) earlier) }
    ensures moments { IfOk result (λ ran.
        HasMoments (boot_state 64 count) (reverse ran.history.items)) }
{
    // The laws that the agreement and the moments need.
    erasure();
    one_moment();
    run_whole(alloc, Machine::boot(alloc, count)?, steps)
}

/// Runs a schedule on a wide machine, of 256 process numbers: as `run`.
pub fn run_wide(alloc: Global, count: u16, steps: &[Step]) -> Result<Ran, NoMemory>
    requires low { 1 ≤ count }
    requires high { count ≤ 256 }
    ensures history { IfOk result (λ ran.
        reverse ran.history.items ≡ history_of (boot_state 256 count) [] steps.now) }
    ensures lawful { IfOk result (λ ran.
        Lawful (boot_state 256 count) (reverse ran.history.items)) }
    ensures view { IfOk result (λ ran.
        view_of ran.machine ≡ view (boot_state 256 count) (reverse ran.history.items)) }
    ensures agreement { IfOk result (λ ran.
        (later earlier : List TheAccepted) → reverse ran.history.items ≡ later ++ earlier →
        Agreement (boot_state 256 count) earlier) }
    ensures moments { IfOk result (λ ran.
        HasMoments (boot_state 256 count) (reverse ran.history.items)) }
{
    // The laws that the agreement and the moments need.
    erasure();
    one_moment();
    run_whole(alloc, Machine::boot_wide(alloc, count)?, steps)
}

/// Runs a schedule as `run` does, on a machine with processes 1 to `count`, which is 1 to 64, and
/// keeps what was run if memory is refused: for a caller that shows it, or goes on from there.
///
/// `stopped` is then the number, counted from 0, of the step that answered `NoMemory` or whose
/// place in the history was refused. That step changed nothing, and `ran` is the run of the steps
/// before it.
///
/// `NoMemory` only if the machine is refused, before the first step.
pub fn run_kept(alloc: Global, count: u16, steps: &[Step]) -> Result<Kept, NoMemory>
    requires low { 1 ≤ count }
    requires high { count ≤ 64 }
    ensures history { IfOk result (λ kept.
        reverse kept.ran.history.items
        ≡ history_of (boot_state 64 count) [] (steps_made kept.stopped steps.now)) }
    ensures lawful { IfOk result (λ kept.
        Lawful (boot_state 64 count) (reverse kept.ran.history.items)) }
    ensures view { IfOk result (λ kept.
        view_of kept.ran.machine
        ≡ view (boot_state 64 count) (reverse kept.ran.history.items)) }
    ensures agreement { IfOk result (λ kept.
        (later earlier : List TheAccepted) → reverse kept.ran.history.items ≡ later ++ earlier →
        Agreement (boot_state 64 count) earlier) }
    ensures moments { IfOk result (λ kept.
        HasMoments (boot_state 64 count) (reverse kept.ran.history.items)) }
    ensures stopped { IfOk result (λ kept.
        IfSome kept.stopped (λ number. number < length steps.now)) }
{
    // The laws that the agreement and the moments need.
    erasure();
    one_moment();
    Ok(run_on(alloc, Machine::boot(alloc, count)?, steps))
}

/// Runs a schedule on a booted machine to its end. Answers `NoMemory` where it stops before that.
fn run_whole(alloc: Global, machine: Machine, steps: &[Step]) -> Result<Ran, NoMemory>
    ensures { IfOk result (λ ran.
        (start : State) → view_of machine ≡ view start [] →
        RunsFrom start steps.now ran.machine ran.history.items) }
{
    let kept = run_on(alloc, machine, steps);
    match kept.stopped {
        None => Ok(kept.ran),
        Some(_) => Err(NoMemory),
    }
}

/// Runs a schedule on a booted machine, up to the step that is refused memory.
fn run_on(alloc: Global, mut machine: Machine, steps: &[Step]) -> Kept
    ensures run { (start : State) → view_of machine ≡ view start [] →
        RunsFrom start (steps_made result.stopped steps.now) result.ran.machine
        result.ran.history.items }
    ensures stopped { IfSome result.stopped (λ number. number < length steps.now) }
{
    let mut history = Vec::new(alloc);
    for (i, step) in steps.iter().enumerate() {
        if run_step(alloc, &mut machine, &mut history, step).is_err() {
            let ran = Ran { machine, history };
            return Kept {
                ran,
                stopped: Some(i),
            };
        }
    }
    let ran = Ran { machine, history };
    Kept { ran, stopped: None }
}

/// Makes one more step of a schedule, and records it if it was accepted. Its place in the history
/// is reserved first, so that no step is made that can't be recorded.
///
/// `NoMemory` if that place is refused, or memory is refused to the step. The machine and the
/// history are then as they were.
fn run_step(
    alloc: Global,
    machine: &mut Machine,
    history: &mut Vec<Accepted>,
    step: &Step,
) -> Result<(), NoMemory>
    ensures run { OnOk result ((start : State) (made : List TheStep) →
        RunsFrom start made machine.old history.old.items →
        RunsFrom start (made ++ step.now ∷ []) machine.new history.new.items) }
    ensures machine { OnErr result (machine.new ≡ machine.old) }
    ensures history { OnErr result (history.new.items ≡ history.old.items) }
{
    history.reserve(1)?;
    let (reply, inverse) = machine.step(alloc, step);
    if inverse.is_some() {
        let step = step.copy();
        history.push_reserved(Accepted { step, reply });
        return Ok(());
    }
    if reply.wants_memory() {
        return Err(NoMemory);
    }
    Ok(())
}
