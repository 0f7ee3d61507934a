//! Keeps which steps were refused.
ghost use Rattle.std.specs.Option.{option_copied};
ghost use Rattle.std.specs.Prelude.{◌≡◌, IfOk, None, Some, length, option_map, replicate};
ghost use Rattle.tx_base.specs.Slots.{slot_at};
ghost use Rattle.tx_model.specs.State.{is_between};
ghost use Rattle.tx_shell.specs.Answers.{own_with};
ghost use Rattle.tx_shell.specs.Names.{maker};

use crate::names::maker_of;
use std::alloc::Global;
use tx_base::{NoMemory, Pid, Slots, Step, WIDE_PROCESSES};

/// Which steps were refused. It takes its memory at the start.
#[derive(Drop)]
pub struct Refused {
    /// The last of all that had to be made and were refused.
    pub last: Option<Step>,
    /// Of each process its last step, where that was refused.
    own: Slots<Step>,
}

impl Refused {
    /// No step.
    ///
    /// NoMemory where a growth is refused.
    pub fn new(alloc: Global) -> Result<Refused, NoMemory>
        ensures last { IfOk result (λ refused. refused.last ≡ None) }
        ensures own { IfOk result (λ refused. refused.own ≡ replicate 256 None) }
    {
        Ok(Refused {
            last: None,
            own: Slots::new(alloc, WIDE_PROCESSES)?,
        })
    }

    /// The last step of a process, where that was refused.
    pub fn own(&self, process: Pid) -> Option<&Step>
        ensures { option_copied result ≡ slot_at self.now.own process.0 }
    {
        self.own.get(process)
    }

    /// Keeps a step that was refused.
    #[inline(never)] // inlined, each step would fill its place
    pub fn keep(&mut self, step: &Step)
        ensures last { self.new.last ≡ Some step.now }
        ensures own { self.new.own ≡ own_with (maker step.now) (Some step.now) self.old.own }
    {
        self.last = Some(step.copy());
        let Some(process) = maker_of(step) else {
            return;
        };
        if self.has_slot(process) {
            self.own.put(process, step.copy());
        }
    }

    /// Drops the last step of a process that was refused.
    pub fn let_go(&mut self, process: Option<Pid>)
        ensures last { self.new.last ≡ self.old.last }
        ensures own { self.new.own
            ≡ own_with (option_map (λ process. process.0) process) None self.old.own }
    {
        let Some(process) = process else {
            return;
        };
        if self.has_slot(process) {
            let _step = self.own.take(process);
        }
    }

    /// Whether a process has a slot.
    fn has_slot(&self, process: Pid) -> bool
        ensures { result ≡ is_between (length self.now.own) process.0 }
    {
        1 <= process.0 && process.0 as usize <= self.own.width()
    }
}
