//! The machine, as its steps change it.
ghost use Rattle.std.specs.Prelude.{◌≡◌, ◌≢◌, ◌≤◌, ◌↔◌, ◌⊎◌, ◌+◌, [], List, true, false, length, vec_capacity, IfOk, OnErr, OnOk, IsOk, IfSome, IsSome, IsNone, IsTrue};
ghost use Rattle.tx_base.specs.declared.steps.Reply.TheVariants.{Aborted, No};
ghost use Rattle.tx_base.specs.declared.steps.Step.TheVariants.{KernelAbort};
ghost use Rattle.tx_core.specs.Machines.{IsMachine as IsTheMachine, IsWidth};
ghost use Rattle.tx_change.specs.Stacks.{below_top};
ghost use Rattle.tx_change.specs.declared.change.Change.{Change};
ghost use Rattle.tx_core.specs.Runs.{Continues, kernel_abort_on};
ghost use Rattle.tx_core.specs.Undo.{LeadsBack, LeadsOn};
ghost use Rattle.tx_content.specs.Content.{view_of};
ghost use Rattle.tx_content.specs.Crossings.{moved_over, HoldsBack, HoldsForward};
ghost use Rattle.tx_content.specs.Inverses.{Undoes};
ghost use Rattle.tx_content.specs.Redone.{EndsWhole, IsTakenBack};
ghost use Rattle.tx_content.specs.declared.content.Content.{Content as TheContent};
ghost use Rattle.tx_model.specs.Answer.{answer, IsAccepted};
ghost use Rattle.tx_model.specs.Events.{process_of};
ghost use Rattle.tx_model.specs.Membership.{is_live};
ghost use Rattle.tx_model.specs.State.{boot_state};
ghost use Rattle.tx_model.specs.View.{kernel_status, view};
ghost use Rattle.tx_step.specs.Steps.{IsKernelAbort, IsStep, IsXabort, Takes};

use crate::laws::laws;
use std::alloc::Global;
use std::marker::Model;
use thiserror::Error;
use tx_base::{NoMemory, PROCESSES, Pid, Refusal, Reply, Step, WIDE_PROCESSES};
use tx_change::Change;
use tx_content::{Content, Crossing, Inverse};
use tx_step::{Answered, put_reply, take_call, take_delivery, take_kernel_abort};

/// There is no live transaction of that starter.
#[derive(Clone, Copy, Debug, Error)]
#[error("no live transaction")]
pub struct NoTransaction;

/// A kernel that takes steps, one after another.
#[derive(Drop)]
pub struct Machine {
    pub(crate) content: Content,
}

impl Model for Machine {
    ghost use Rattle.tx_core.specs.Machines.{IsMachine};
    ghost use Rattle.tx_content.specs.declared.content.Content.{Content as TheContent};

    ghost Value = { TheContent };

    ghost view = { λ machine. machine.content };

    ghost invariant = { λ machine. IsMachine machine.content };
}

impl Machine {
    /// Makes a step. Answers its reply, and its inverse if it was accepted.
    ///
    /// A refused step changes nothing. `NoMemory` comes only where nothing else refuses the step,
    /// and never to a member's sys_xabort or to the kernel's abort.
    ///
    /// The inverse changes only what the step names: objects of its footprint, the processes that
    /// its sends go to, and, where it ends a transaction, what that one reserved.
    pub fn step(&mut self, alloc: Global, step: &Step) -> (Reply, Option<Inverse>)
        ensures answer { (result.0 ≡ No Refusal.NoMemory)
            ⊎ (answer (view_of self.old) step.now ≡ result.0) }
        ensures memory { result.0 ≡ No Refusal.NoMemory →
            IsAccepted (answer (view_of self.old) step.now) }
        ensures refused { IsNone result.1 → self.new ≡ self.old }
        ensures inverse { IsSome result.1 ↔ IsAccepted result.0 }
        ensures accepted { IfSome result.1 (λ inverse.
            IsStep self.old step.now result.0 inverse self.new) }
        ensures back { IfSome result.1 (LeadsBack self.new) }
        ensures history { IsAccepted result.0 →
            Continues self.old (record { step = step.now; reply = result.0 }) self.new }
        ensures xabort { IsXabort self.old step.now → result.0 ≢ No Refusal.NoMemory }
        ensures kernel { IsKernelAbort step.now → result.0 ≢ No Refusal.NoMemory }
    {
        let mut reply = Reply::Ended;
        let mut inverse = Inverse::blank();
        if self.step_into(alloc, step, &mut reply, &mut inverse) {
            (reply, Some(inverse))
        } else {
            (reply, None)
        }
    }

    /// Makes a step as `step` does, and puts its reply and its inverse into the caller's places:
    /// for a caller that makes many, since both are large. Answers whether the step was accepted;
    /// if not, the place of the inverse has nothing of use. An inverse that was there is dropped,
    /// but its room, if not large, serves the next steps.
    pub fn step_into(
        &mut self,
        alloc: Global,
        step: &Step,
        reply: &mut Reply,
        inverse: &mut Inverse,
    ) -> bool
        ensures answer { (reply.new ≡ No Refusal.NoMemory)
            ⊎ (answer (view_of self.old) step.now ≡ reply.new) }
        ensures memory { reply.new ≡ No Refusal.NoMemory →
            IsAccepted (answer (view_of self.old) step.now) }
        ensures refused { result ≡ false → self.new ≡ self.old }
        ensures inverse { IsTrue result ↔ IsAccepted reply.new }
        ensures accepted { IsTrue result → IsStep self.old step.now reply.new inverse.new self.new }
        ensures back { IsTrue result → LeadsBack self.new inverse.new }
        ensures history { IsAccepted reply.new →
            Continues self.old (record { step = step.now; reply = reply.new }) self.new }
        ensures xabort { IsXabort self.old step.now → reply.new ≢ No Refusal.NoMemory }
        ensures kernel { IsKernelAbort step.now → reply.new ≢ No Refusal.NoMemory }
    {
        laws();
        match self.take(alloc, step, inverse) {
            Ok(answered) => {
                put_reply(reply, &self.content, maker(step), answered, inverse);
                true
            }
            Err(refusal) => {
                *reply = Reply::No(refusal);
                false
            }
        }
    }

    /// Makes a step. Answers its short answer, or why it was refused, and puts its inverse into its
    /// place.
    fn take(
        &mut self,
        alloc: Global,
        step: &Step,
        inverse: &mut Inverse,
    ) -> Result<Answered, Refusal>
        ensures takes { Takes self.old step.now result inverse.new self.new }
        ensures back { OnOk result (LeadsBack self.new inverse.new) }
    {
        match step {
            Step::Call(pid, call) => take_call(&mut self.content, alloc, *pid, call, inverse),
            Step::Deliver(pid, signo) => {
                take_delivery(&mut self.content, alloc, *pid, *signo, inverse)
            }
            Step::KernelAbort(starter) => {
                match take_kernel_abort(&mut self.content, *starter, inverse) {
                    Some(status) => Ok(Answered::Aborted(status)),
                    None => Err(Refusal::NoTransaction),
                }
            }
        }
    }

    /// Aborts the live transaction of a starter: all that its members' steps changed is as it was,
    /// and the starter is at the point after its sys_xbegin with the negative status: 203 if the
    /// transaction is doomed, else 202. It takes no memory. Own rule.
    ///
    /// `NoTransaction` if the starter has no live transaction; nothing has changed then.
    pub fn kernel_abort(&mut self, starter: Pid) -> Result<Inverse, NoTransaction>
        ensures ok { IfOk result (λ inverse.
            IsStep self.old (KernelAbort starter)
            (Aborted (kernel_status (view_of self.old) starter.0)) inverse self.new) }
        ensures back { IfOk result (LeadsBack self.new) }
        ensures none { IsOk result ↔ (is_live (view_of self.old).table starter.0 ≡ true) }
        ensures err { OnErr result (self.new ≡ self.old) }
        ensures history { OnOk result
            (Continues self.old (kernel_abort_on self.old starter) self.new) }
    {
        laws();
        let mut inverse = Inverse::blank();
        match take_kernel_abort(&mut self.content, starter, &mut inverse) {
            Some(_status) => Ok(inverse),
            None => Err(NoTransaction),
        }
    }

    /// Takes back the step with this inverse, on the machine as that step left it. It takes no
    /// memory and is never refused.
    pub fn undo(&mut self, inverse: Inverse)
        requires { LeadsBack self.old inverse }
        ensures { (before : TheContent) → Undoes self.old inverse before → self.new ≡ before }
    {
        self.content.undo(inverse);
    }

    /// Takes back the step that this leads back over, as `undo` does, and exchanges it in place:
    /// then it leads forward. The changes of a step inside and of a commit go onto the stack, which
    /// must have room for them: see `Crossing::moved`. It takes no memory and is never refused.
    pub fn take_back(&mut self, crossing: &mut Crossing, stack: &mut Vec<Change>)
        requires leads { HoldsBack crossing.old (LeadsBack self.old) }
        requires room { length stack.old.items + moved_over crossing.old ≤ vec_capacity stack.old }
        ensures before { (before : TheContent) →
            HoldsBack crossing.old (λ inverse. Undoes self.old inverse before) →
            self.new ≡ before }
        ensures again { HoldsForward crossing.new (λ undone.
            HoldsBack crossing.old (EndsWhole self.old) →
            IsTakenBack self.new undone stack.new.items self.old stack.old.items) }
        ensures moved { moved_over crossing.new ≡ moved_over crossing.old }
        ensures long { length stack.new.items ≡ length stack.old.items + moved_over crossing.old }
        ensures capacity { vec_capacity stack.new ≡ vec_capacity stack.old }
    {
        self.content.take_back(crossing, stack);
    }

    /// The machine is as steps leave it. It does nothing.
    pub fn is_kept(&self)
        ensures { IsTheMachine self.now }
    {
        let _content = &self.content;
    }

    /// Makes the step again that this leads forward over, on the machine as it was before it: by
    /// exchange, without a plan or a check. It is exchanged in place: then it leads back. The
    /// changes of a step inside and of a commit come off the stack. It takes no memory but room
    /// that such a step had in its transaction.
    ///
    /// `NoMemory` where that is refused; all is then as it was.
    pub fn redo(&mut self, crossing: &mut Crossing, stack: &mut Vec<Change>) -> Result<(), NoMemory>
        requires { HoldsForward crossing.old
            (λ undone. LeadsOn self.old undone stack.old.items) }
        ensures made { (after : TheContent) (rest : List Change) →
            HoldsForward crossing.old
            (λ undone. IsTakenBack self.old undone stack.old.items after rest) →
            OnOk result (self.new ≡ after) }
        ensures undoes { OnOk result
            (HoldsBack crossing.new (λ inverse. Undoes self.new inverse self.old)) }
        ensures back { OnOk result (HoldsBack crossing.new (LeadsBack self.new)) }
        ensures whole { OnOk result (HoldsBack crossing.new (EndsWhole self.new)) }
        ensures moved { moved_over crossing.new ≡ moved_over crossing.old }
        ensures stack { OnOk result
            (stack.new.items ≡ below_top (moved_over crossing.old) stack.old.items) }
        ensures capacity { vec_capacity stack.new ≡ vec_capacity stack.old }
        ensures err { OnErr result (self.new ≡ self.old) }
        ensures crossing_err { OnErr result (crossing.new ≡ crossing.old) }
        ensures stack_err { OnErr result (stack.new ≡ stack.old) }
    {
        self.content.redo(crossing, stack)
    }

    /// A machine with this many process numbers, of which the first few run.
    fn booted(alloc: Global, width: u16, count: u16) -> Result<Machine, NoMemory>
        requires low { 1 ≤ count }
        requires high { count ≤ width }
        requires width { IsWidth width }
        ensures view { IfOk result (λ machine. view_of machine ≡ view (boot_state width count) []) }
        ensures processes { IfOk result (λ machine. length machine.parts.procs ≡ width) }
    {
        laws();
        let content = Content::boot(alloc, width, count)?;
        Ok(Machine { content })
    }

    /// A machine with processes 1 to `count` of 64. They run at point 0 with nothing else; the
    /// parent of 1 is 0, that of the others is 1.
    pub fn boot(alloc: Global, count: u16) -> Result<Machine, NoMemory>
        requires low { 1 ≤ count }
        requires high { count ≤ 64 }
        ensures view { IfOk result (λ machine. view_of machine ≡ view (boot_state 64 count) []) }
        ensures processes { IfOk result (λ machine. length machine.parts.procs ≡ 64) }
    {
        Machine::booted(alloc, PROCESSES, count)
    }

    /// A wide machine: as `boot`, with processes 1 to `count` of 256.
    pub fn boot_wide(alloc: Global, count: u16) -> Result<Machine, NoMemory>
        requires low { 1 ≤ count }
        requires high { count ≤ 256 }
        ensures view { IfOk result (λ machine. view_of machine ≡ view (boot_state 256 count) []) }
        ensures processes { IfOk result (λ machine. length machine.parts.procs ≡ 256) }
    {
        Machine::booted(alloc, WIDE_PROCESSES, count)
    }
}

/// The process whose step it is, or the starter whose transaction the kernel aborts.
pub fn maker(step: &Step) -> Pid
    ensures { result.0 ≡ process_of step.now }
{
    match step {
        Step::Call(pid, _) => *pid,
        Step::Deliver(pid, _) => *pid,
        Step::KernelAbort(starter) => *starter,
    }
}
