//! The calls on the signals of their process: actions, the mask, what is pending, and the return from
//! a caught signal.
ghost use Rattle.std.specs.Prelude.{◌≡◌, [], pos, IfOk, OnOk, OnErr, if◌then◌else◌};
ghost use Rattle.tx_kernel.specs.Actors.{IsActor, effect_by};
ghost use Rattle.tx_kernel.specs.Own.{PlansOwn, PlansPart};
ghost use Rattle.tx_kernel.specs.Plans.{Extends};
ghost use Rattle.tx_kernel.specs.Returns.{with_slots};
ghost use Rattle.tx_model.specs.Book.{sigaction, sigpending, sigprocmask, sigreturn};
ghost use Rattle.tx_model.specs.Forms.{changes};
ghost use Rattle.tx_model.specs.Signals.{without_signal, queued_others, with_action};
ghost use Rattle.tx_model.specs.Words.{is_ignored};

use crate::actor::Actor;
use crate::planned::Outcome;
use bitflags::Flags;
use std::alloc::Global;
use tx_base::{Action, Errno, How, NoMemory, Regs, SIGKILL, SLOTS, SigSet, Signo};
use tx_change::Log;
use tx_proc::{Answer, BoxedFrame, Part, Register};
use tx_signal::{is_bad, is_ignored, known, maskable_action, masked, without};

impl Actor<'_> {
    /// Sets what is done about a signal (POSIX.1-2017, XSH, sigaction()). Ignoring it discards it
    /// where it is pending.
    ///
    /// EINVAL where the number is no signal's, or is SIGKILL's, or a catch point is over 65,535.
    pub(crate) fn plan_sigaction(
        &self,
        signo: i64,
        action: Action,
        log: &mut Log,
    ) -> Result<Outcome, NoMemory>
        ensures ok { IfOk result (λ outcome. PlansOwn self.now log.old log.new outcome
            (effect_by self.now (sigaction signo action))) }
        ensures err { OnErr result (Extends log.old log.new) }
    {
        let Some(signo) = known(signo) else {
            return self.plan_error(Errno::InvalidArgument, log);
        };
        if signo == SIGKILL || is_bad(action) {
            return self.plan_error(Errno::InvalidArgument, log);
        }
        self.plan_action(signo, action, log)
    }

    /// Plans a valid action, and the answer 0.
    fn plan_action(&self, signo: Signo, action: Action, log: &mut Log) -> Result<Outcome, NoMemory>
        ensures ok { IfOk result (λ outcome. PlansOwn self.now log.old log.new outcome
            (effect_by self.now (λ c. changes (pos 0)
            (with_action signo.0 action
            (if is_ignored signo.0 action then without_signal signo.0 c.process else c.process))
            []))) }
        ensures err { OnErr result (Extends log.old log.new) }
    {
        self.push_ignored(signo, action, log)?;
        self.push(Part::Action(signo, maskable_action(action)), log)?;
        self.push_answer(0, log)?;
        Ok(Outcome::Done(0))
    }

    /// Appends the exchanges that discard the signal, if it is ignored.
    fn push_ignored(&self, signo: Signo, action: Action, log: &mut Log) -> Result<(), NoMemory>
        ensures ok { OnOk result
            (PlansPart self.now log.old log.new (λ me.
            if is_ignored signo.0 action then without_signal signo.0 me else me)) }
        ensures err { OnErr result (Extends log.old log.new) }
    {
        if is_ignored(signo, action) {
            return self.push_discarded(signo, log);
        }
        Ok(())
    }

    /// Appends the exchanges that discard every pending occurrence of the signal.
    fn push_discarded(&self, signo: Signo, log: &mut Log) -> Result<(), NoMemory>
        ensures ok { OnOk result (PlansPart self.now log.old log.new (without_signal signo.0)) }
        ensures err { OnErr result (Extends log.old log.new) }
    {
        self.push_taken_out(signo, log)?;
        let standard = without(self.proc.pending.standard(), signo);
        self.push(Part::Pending(standard), log)?;
        Ok(())
    }

    /// Appends the exchanges that take each entry of the signal out of the queue.
    fn push_taken_out(&self, signo: Signo, log: &mut Log) -> Result<(), NoMemory>
        ensures ok { OnOk result
            (PlansPart self.now log.old log.new (λ me.
            record me { queued = queued_others signo.0 me.queued })) }
        ensures err { OnErr result (Extends log.old log.new) }
    {
        let mut place = 0;
        for entry in self.proc.pending.queued() {
            if entry.signo == signo {
                self.push(Part::Queued(place, None), log)?;
            } else {
                place += 1;
            }
        }
        Ok(())
    }

    /// Changes the mask (POSIX.1-2017, XSH, sigprocmask()).
    pub(crate) fn plan_sigprocmask(
        &self,
        how: How,
        set: SigSet,
        log: &mut Log,
    ) -> Result<Outcome, NoMemory>
        ensures ok { IfOk result (λ outcome. PlansOwn self.now log.old log.new outcome
            (effect_by self.now (sigprocmask how set))) }
        ensures err { OnErr result (Extends log.old log.new) }
    {
        self.push(Part::Mask(masked(how, set, self.proc.mask)), log)?;
        self.push_answer(0, log)?;
        Ok(Outcome::Done(0))
    }

    /// Answers the signals that are pending and blocked, as a number (POSIX.1-2017, XSH,
    /// sigpending()).
    pub(crate) fn plan_sigpending(&self, log: &mut Log) -> Result<Outcome, NoMemory>
        requires { IsActor self.now }
        ensures ok { IfOk result (λ outcome. PlansOwn self.now log.old log.new outcome
            (effect_by self.now sigpending)) }
        ensures err { OnErr result (log.new ≡ log.old) }
    {
        let blocked = self.proc.pending.signals().intersection(self.proc.mask);
        let outcome = self.plan_answer(blocked.bits() as i64, log)?;
        Ok(outcome)
    }

    /// Goes back to where the newest caught signal was caught, with its registers and mask. Own
    /// rule.
    ///
    /// EINVAL where no caught signal is unfinished.
    pub(crate) fn plan_sigreturn(&self, alloc: Global, log: &mut Log) -> Result<Outcome, NoMemory>
        requires { IsActor self.now }
        ensures ok { IfOk result (λ outcome. PlansOwn self.now log.old log.new outcome
            (effect_by self.now sigreturn)) }
        ensures err { OnErr result (Extends log.old log.new) }
    {
        let Some(frame) = self.proc.frames.newest() else {
            return self.plan_error(Errno::InvalidArgument, log);
        };
        let _few = self.proc.frames.len();
        self.push_slots(&frame.registers.slots, log)?;
        self.push(Part::Mask(frame.mask), log)?;
        let none = BoxedFrame::new(alloc, None)?;
        self.push(Part::Frame(none), log)?;
        let Regs { point, ret, .. } = frame.registers;
        log.push_answer(self.pid, Answer { point, ret })?;
        Ok(Outcome::Done(ret))
    }

    /// Appends the exchanges that put these slots in place, but for those that have their value
    /// already.
    fn push_slots(&self, slots: &[i64; SLOTS], log: &mut Log) -> Result<(), NoMemory>
        requires { IsActor self.now }
        ensures ok { OnOk result (PlansPart self.now log.old log.new (with_slots slots.now)) }
        ensures err { OnErr result (Extends log.old log.new) }
    {
        for number in 0..SLOTS {
            let value = slots[number];
            if value != self.proc.regs.slots[number] {
                self.push(Part::Register(Register { number, value }), log)?;
            }
        }
        Ok(())
    }
}
