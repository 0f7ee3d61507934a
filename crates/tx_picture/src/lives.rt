//! The processes that the names of a schedule are for.
ghost use Rattle.std.specs.Prelude.{◌≡◌, IfOk, OnOk, map};
ghost use Rattle.std.specs.List.{list_any};
ghost use Rattle.tx_picture.specs.Names.{is_life, life_of, lives_from, with_life};
ghost use Rattle.tx_translate.specs.Written.{name_at};

use crate::births::{Birth, instance};
use std::alloc::{AllocError, Global};
use tx_base::Pid;
use tx_translate::Named;

/// A process that a name is for.
#[derive(Clone, Copy)]
pub(crate) struct Life {
    pub process: Pid,
    /// Which of the processes of that number it is.
    pub instance: usize,
    /// The place of its name among those of the schedule.
    pub name: usize,
}

/// The processes that names are for, where so many processes are there at the start. Of several
/// names for one process the last one counts.
pub(crate) fn lives_of(
    alloc: Global,
    start: u16,
    births: &[Birth],
    names: &[Named<'_>],
) -> Result<Vec<Life>, AllocError>
    ensures { IfOk result (λ lives.
        lives.items ≡ lives_from start births.now 0 (map name_at names.now)) }
{
    let mut lives = Vec::new(alloc);
    let mut left = names.len();
    while left > 0 {
        left -= 1;
        note_life(&mut lives, life_of(start, births, left, names[left]))?;
    }
    Ok(lives)
}

/// The process that a name is for, which has that place.
fn life_of(start: u16, births: &[Birth], place: usize, named: Named<'_>) -> Life
    ensures { result ≡ life_of start births.now place (name_at named.entry) }
{
    let process = named.naming.process;
    Life {
        process,
        instance: instance(start, births, process, named.position),
        name: place,
    }
}

/// A process that a name is for, unless it has one.
fn note_life(lives: &mut Vec<Life>, life: Life) -> Result<(), AllocError>
    ensures { OnOk result (lives.new.items ≡ with_life lives.old.items life) }
{
    if !is_noted(lives.as_slice(), life) {
        lives.push(life)?;
    }
    Ok(())
}

/// Whether a process has a name.
fn is_noted(lives: &[Life], life: Life) -> bool
    ensures { result ≡ list_any (is_life life.process.0 life.instance) lives.now }
{
    lives
        .iter()
        .any(|known| is_life(known, life.process, life.instance))
}

/// Whether it is that one of the processes of a number.
pub(crate) fn is_life(life: &Life, process: Pid, instance: usize) -> bool
    ensures { result ≡ is_life process.0 instance life.now }
{
    life.process == process && life.instance == instance
}
