//! The parts of the kernel.
ghost use Rattle.std.specs.Option.{option_copied};
ghost use Rattle.std.specs.Prelude.{◌≡◌, ◌≤◌, [], IfOk};
ghost use Rattle.tx_base.specs.Slots.{slot_at};
ghost use Rattle.tx_model.specs.State.{boot_state};

use crate::pipes::PipeTable;
use std::alloc::Global;
use tx_base::{NoMemory, Pid};
use tx_desc::{Descs, none_named_at_first};
use tx_proc::{BoxedProc, Proc, ProcTable};

/// The parts of the kernel: what each number of a process, of a description and of
/// a pipe has.
pub struct Parts {
    pub procs: ProcTable,
    pub descs: Descs,
    pub pipes: PipeTable,
}

// Not derived: that would be proved again wherever one is dropped.
impl Drop for Parts {
    fn drop(self) {
        let Parts {
            procs: _procs,
            descs: _descs,
            pipes: _pipes,
        } = self;
    }
}

impl Parts {
    ghost use Rattle.tx_change.specs.Counts.{CountsAgree};
    ghost use Rattle.tx_change.specs.Laws.{HaveAllPlaces};
    ghost use Rattle.tx_change.specs.States.{state_of};

    /// So many process numbers, of which the first few have processes that run at point 0, and
    /// nothing else. Process 1 is the parent of the others. Own rule.
    ///
    /// There must be as many numbers as processes. NoMemory where a growth is refused.
    pub fn boot(alloc: Global, width: u16, count: u16) -> Result<Parts, NoMemory>
        requires { count ≤ width }
        ensures state { IfOk result (λ parts.
            state_of (λ starter. []) parts ≡ boot_state width count) }
        ensures places { IfOk result (λ parts. HaveAllPlaces parts) }
        ensures counts { IfOk result (λ parts. CountsAgree parts) }
    {
        none_named_at_first();
        let mut procs = ProcTable::new(alloc, width)?;
        for done in 0..count {
            let boxed = BoxedProc::new(alloc, Proc::booted(Pid(done + 1)))?;
            procs.put(Pid(done + 1), boxed);
        }
        Ok(Parts {
            procs,
            descs: Descs::new(),
            pipes: PipeTable::new(),
        })
    }

    /// The process of a number; nothing where there is none, or no such number.
    pub fn proc(&self, pid: Pid) -> Option<&Proc>
        ensures { option_copied result ≡ slot_at self.now.procs pid.0 }
    {
        self.procs.get(pid)
    }
}
