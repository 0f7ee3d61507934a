//! What is written beside rows and above columns: the steps as their author wrote them, and the
//! names of processes.
ghost use Rattle.std.specs.Option.{option_copied};
ghost use Rattle.std.specs.Prelude.{◌≡◌, ◌≤◌, ◌++◌, IfErr, IfOk, OnOk, find, option_map};
ghost use Rattle.tx_lines.specs.Lines.{FitsHeader};
ghost use Rattle.tx_lines.specs.declared.faults.Fault.TheVariants.{NoMemory};
ghost use Rattle.tx_picture.specs.Captions.{captioned_as, captioned_in, instance_of, is_anew, line_of, name_of, short};
ghost use Rattle.tx_picture.specs.Names.{is_life};
ghost use Rattle.tx_translate.specs.Written.{notes_as};

use crate::births::{Birth, births_for, instance};
use crate::lives::{Life, is_life, lives_of};
use std::alloc::{AllocError, Global};
use tx_base::Pid;
use tx_lines::{Fault, Schedule};
use tx_translate::Written;

/// What is written beside rows and above columns.
#[derive(Drop)]
pub(crate) struct Captions<'a> {
    /// What the author of the schedule wrote.
    pub written: Written<'a>,
    /// How many processes are there at the start.
    pub start: u16,
    /// The processes that forks make.
    pub births: Vec<Birth>,
    /// The processes that have names.
    pub lives: Vec<Life>,
}

/// What is written beside a schedule whose author wrote that. The only fault is `NoMemory`.
pub(crate) fn captions_of<'a>(
    alloc: Global,
    schedule: &Schedule,
    written: Written<'a>,
) -> Result<Captions<'a>, Fault>
    requires { FitsHeader schedule.now.header }
    ensures captions { IfOk result (λ captions. captioned_as captions ≡ captioned_in
        (notes_as written.entry) schedule.now.header schedule.now.steps.items) }
    ensures fault { IfErr result (λ fault. fault ≡ NoMemory) }
{
    let start = schedule.header.count;
    let names = written.names.as_slice();
    let births = births_for(alloc, schedule, names)?;
    let lives = lives_of(alloc, start, births.as_slice(), names)?;
    Ok(Captions {
        written,
        start,
        births,
        lives,
    })
}

impl<'a> Captions<'a> {
    /// The line of a step as its author wrote it. Nothing in a text of the first two versions.
    pub fn line_of(&self, step: usize) -> Option<&'a [u8]>
        ensures { option_map (λ line. line.now) result ≡ line_of (captioned_as self.now) step }
    {
        self.written.lines.as_slice().get(step).copied()
    }

    /// The name of the process of a number that is there after so many steps.
    pub fn name_of(&self, process: Pid, position: usize) -> Option<&'a [u8]>
        ensures { option_map (λ name. name.now) result
            ≡ name_of (captioned_as self.now) process.0 position }
    {
        let life = self.life_of(process, position)?;
        let named = self.written.names.as_slice().get(life.name)?;
        Some(named.naming.name)
    }

    /// The process of a number that is there after so many steps, where it has a name.
    fn life_of(&self, process: Pid, position: usize) -> Option<&Life>
        ensures { option_copied result ≡ find (is_life process.0
            (instance_of (captioned_as self.now) process.0 position)) self.now.lives.items }
    {
        let instance = self.instance_of(process, position);
        self.lives
            .as_slice()
            .iter()
            .find(|life| is_life(life, process, instance))
    }

    /// Which of the processes of a number is there after so many steps.
    fn instance_of(&self, process: Pid, position: usize) -> usize
        ensures { result ≡ instance_of (captioned_as self.now) process.0 position }
    {
        instance(self.start, self.births.as_slice(), process, position)
    }

    /// Whether the process of a number that is there after so many steps is another one than before
    /// the first step, or than the first one.
    pub fn is_anew(&self, process: Pid, position: usize) -> bool
        ensures { result ≡ is_anew (captioned_as self.now) process.0 position }
    {
        self.instance_of(process, position) != self.instance_of(process, 0)
    }
}

/// Appends a word as it is shown: where it has more than so many bytes the first ones, and two
/// dots.
pub(crate) fn put_short(shown: &mut Vec<u8>, word: &[u8], most: usize) -> Result<(), AllocError>
    requires { 2 ≤ most }
    ensures { OnOk result (shown.new.items ≡ shown.old.items ++ short most word.now) }
{
    if word.len() <= most {
        return shown.extend_from_slice(word);
    }
    shown.extend_from_slice(&word[..most - 2])?;
    shown.extend_from_slice(b"..")
}
