//! The processes that forks make: a number that is forked again is that of another process.
ghost use Rattle.std.specs.Prelude.{◌≡◌, ◌++◌, IfErr, IfOk, OnOk, map};
ghost use Rattle.tx_lines.specs.Lines.{FitsHeader};
ghost use Rattle.tx_lines.specs.declared.faults.Fault.TheVariants.{NoMemory};
ghost use Rattle.tx_picture.specs.Names.{birth_by, births_for, births_from, instance, is_birth};
ghost use Rattle.tx_translate.specs.Written.{name_at};

use crate::ties::{Tie, tie_of};
use std::alloc::{AllocError, Global};
use tx_base::{Pid, Reply, Step};
use tx_lines::{Fault, Schedule};
use tx_script::make_all;
use tx_translate::Named;

/// A process that a fork makes.
#[derive(Clone, Copy)]
pub(crate) struct Birth {
    /// The number of the step. Steps count from 1.
    pub step: usize,
    pub process: Pid,
}

/// The processes that the steps of a schedule make. Where there is no name none is found.
///
/// The only fault is `NoMemory`.
pub(crate) fn births_for(
    alloc: Global,
    schedule: &Schedule,
    names: &[Named<'_>],
) -> Result<Vec<Birth>, Fault>
    requires { FitsHeader schedule.now.header }
    ensures births { IfOk result (λ births. births.items ≡ births_for (map name_at names.now)
        schedule.now.header schedule.now.steps.items) }
    ensures fault { IfErr result (λ fault. fault ≡ NoMemory) }
{
    if names.is_empty() {
        return Ok(Vec::new(alloc));
    }
    let made = make_all(alloc, schedule)?;
    let births = births_of(alloc, schedule.steps.as_slice(), made.replies.as_slice())?;
    Ok(births)
}

/// The processes that the steps make which were answered so.
fn births_of(alloc: Global, steps: &[Step], replies: &[Reply]) -> Result<Vec<Birth>, AllocError>
    ensures { IfOk result (λ births. births.items ≡ births_from 1 steps.now replies.now) }
{
    let mut births = Vec::new(alloc);
    for i in 0..steps.len().min(replies.len()) {
        note_birth(&mut births, i + 1, tie_of(&steps[i], &replies[i]))?;
    }
    Ok(births)
}

/// Appends the process that a step of that number makes, where it is a fork that was accepted.
fn note_birth(births: &mut Vec<Birth>, step: usize, tie: Option<Tie>) -> Result<(), AllocError>
    ensures { OnOk result (births.new.items ≡ births.old.items ++ birth_by step tie) }
{
    match tie {
        Some(Tie::Child(process)) => {
            births.push(Birth { step, process })?;
            Ok(())
        }
        None | Some(Tie::Holder(_) | Tie::Signal(_)) => Ok(()),
    }
}

/// Which of the processes of a number is there after so many steps, where so many processes are
/// there at the start. One that is there at the start has 0. Those that forks make count from 1; so
/// does one that no fork makes and that is not there at the start.
pub(crate) fn instance(start: u16, births: &[Birth], process: Pid, position: usize) -> usize
    ensures { result ≡ instance start births.now process.0 position }
{
    let made = births
        .iter()
        .filter(|birth| is_birth(birth, process, position))
        .count();
    if process.0 <= start {
        made
    } else {
        made.max(1)
    }
}

/// Whether a process was made by one of so many steps, under that number.
fn is_birth(birth: &Birth, process: Pid, position: usize) -> bool
    ensures { result ≡ is_birth process.0 position birth.now }
{
    birth.process == process && birth.step <= position
}
