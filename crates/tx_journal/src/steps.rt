//! Steps of a session.
ghost use Rattle.std.specs.Prelude.{◌≡◌, ◌≢◌, ◌⊎◌, ◌↔◌, ◌++◌, ◌∷◌, [], IsOk, OnErr, OnOk, true};
ghost use Rattle.tx_base.specs.declared.steps.Reply.TheVariants.{No};
ghost use Rattle.tx_core.specs.Runs.{kernel_abort_on};
ghost use Rattle.tx_journal.specs.Entries.{entry_by, history_of};
ghost use Rattle.tx_journal.specs.Sessions.{IsAtEnd, SameBoot, start_of};
ghost use Rattle.tx_content.specs.Content.{view_of};
ghost use Rattle.tx_model.specs.Answer.{IsAccepted, answer};
ghost use Rattle.tx_model.specs.Membership.{is_live};
ghost use Rattle.tx_moment.specs.Moments.{HasMoments};
ghost use Rattle.tx_step.specs.Steps.{IsKernelAbort, IsXabort};

use crate::laws::laws;
use crate::making::{abort, record};
use crate::session::Session;
use std::alloc::Global;
use tx_base::{Pid, Refusal, Reply, Step};
use tx_core::NoTransaction;

impl Session {
    /// Makes a step of a worker at the end of the journal, as `Machine::step` does. If it is
    /// accepted, the journal then has its entry; if it is refused, nothing changed.
    ///
    /// `NoMemory` may come where another reason would refuse it, since the place of its entry is
    /// reserved first; but never to a member's sys_xabort, nor to the kernel's abort.
    pub fn step(&mut self, alloc: Global, worker: u16, step: &Step) -> Reply
        requires { IsAtEnd self.old }
        ensures answer { (result ≡ No Refusal.NoMemory)
            ⊎ (answer (view_of self.old.machine) step.now ≡ result) }
        ensures accepted { IsAccepted result →
            self.new.entries ≡ self.old.entries
            ++ record { step = step.now; worker = worker; reply = result } ∷ [] }
        ensures refused { (IsAccepted result → ⊥) → self.new ≡ self.old }
        ensures boot { SameBoot self.new self.old }
        ensures at_end { IsAtEnd self.new }
        ensures xabort { IsXabort self.old.machine step.now → result ≢ No Refusal.NoMemory }
        ensures kernel { IsKernelAbort step.now → result ≢ No Refusal.NoMemory }
        ensures moments { HasMoments (start_of self.new) (history_of self.new.entries) }
    {
        let mut reply = Reply::Ended;
        self.step_into(alloc, worker, step, &mut reply);
        reply
    }

    /// Makes a step as `step` does, and puts its reply into the caller's place: for a caller that
    /// makes many, since a reply is large.
    pub fn step_into(&mut self, alloc: Global, worker: u16, step: &Step, reply: &mut Reply)
        requires { IsAtEnd self.old }
        ensures answer { (reply.new ≡ No Refusal.NoMemory)
            ⊎ (answer (view_of self.old.machine) step.now ≡ reply.new) }
        ensures accepted { IsAccepted reply.new →
            self.new.entries ≡ self.old.entries
            ++ record { step = step.now; worker = worker; reply = reply.new } ∷ [] }
        ensures refused { (IsAccepted reply.new → ⊥) → self.new ≡ self.old }
        ensures boot { SameBoot self.new self.old }
        ensures at_end { IsAtEnd self.new }
        ensures xabort { IsXabort self.old.machine step.now → reply.new ≢ No Refusal.NoMemory }
        ensures kernel { IsKernelAbort step.now → reply.new ≢ No Refusal.NoMemory }
        ensures moments { HasMoments (start_of self.new) (history_of self.new.entries) }
    {
        let mut own = step.copy();
        self.enter(alloc, worker, &mut own, reply);
    }

    /// Makes a step as `step_into` does, and moves it into its entry if it is accepted: for a
    /// caller that no longer needs it, since a step is large too. A refused step stays where it is.
    #[inline(always)] // a call of its own would cost each line of a session its arguments
    pub fn enter(&mut self, alloc: Global, worker: u16, step: &mut Step, reply: &mut Reply)
        requires { IsAtEnd self.old }
        ensures answer { (reply.new ≡ No Refusal.NoMemory)
            ⊎ (answer (view_of self.old.machine) step.old ≡ reply.new) }
        ensures accepted { IsAccepted reply.new →
            self.new.entries ≡ self.old.entries
            ++ record { step = step.old; worker = worker; reply = reply.new } ∷ [] }
        ensures refused { (IsAccepted reply.new → ⊥) → self.new ≡ self.old }
        ensures stays { (IsAccepted reply.new → ⊥) → step.new ≡ step.old }
        ensures boot { SameBoot self.new self.old }
        ensures at_end { IsAtEnd self.new }
        ensures xabort { IsXabort self.old.machine step.old → reply.new ≢ No Refusal.NoMemory }
        ensures kernel { IsKernelAbort step.old → reply.new ≢ No Refusal.NoMemory }
        ensures moments { HasMoments (start_of self.new) (history_of self.new.entries) }
    {
        laws();
        let _made = record(
            alloc,
            &mut self.machine,
            &mut self.journal,
            worker,
            step,
            reply,
        );
        self.is_lawful();
    }

    /// Aborts the live transaction of a starter as the kernel does, at the end of the journal, as
    /// `Machine::kernel_abort` does, and adds its entry. It takes no memory.
    ///
    /// `NoTransaction` if the starter has no live transaction; nothing has changed then.
    pub fn kernel_abort(&mut self, worker: u16, starter: Pid) -> Result<(), NoTransaction>
        requires { IsAtEnd self.old }
        ensures ok { OnOk result (self.new.entries
            ≡ self.old.entries ++ entry_by worker (kernel_abort_on self.old.machine starter) ∷ []) }
        ensures live { IsOk result ↔ (is_live (view_of self.old.machine).table starter.0 ≡ true) }
        ensures refused { OnErr result (self.new ≡ self.old) }
        ensures boot { SameBoot self.new self.old }
        ensures at_end { IsAtEnd self.new }
    {
        laws();
        abort(&mut self.machine, &mut self.journal, worker, starter)
    }
}
