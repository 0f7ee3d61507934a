//! The delivery of a pending signal (POSIX.1-2017, XSH, Signal Generation and Delivery).
ghost use Rattle.std.specs.Prelude.{◌≡◌, ◌≢◌, ◌<◌, false, [], if◌then◌else◌, IfOk, IfErr, OnOk, OnErr};
ghost use Rattle.tx_base.specs.declared.steps.Reply.TheVariants as reply;
ghost use Rattle.tx_kernel.specs.Actors.{IsActor, effect_by, inside_of, me_of, names_by};
ghost use Rattle.tx_kernel.specs.Own.{PlansOwn, PlansPart};
ghost use Rattle.tx_kernel.specs.Plans.{Extends, Plans, RefusedBy};
ghost use Rattle.tx_model.specs.Deliveries.{action_at, at_catch_point, is_deferred, without_delivered, reaction, delivery, delivery_page};
ghost use Rattle.tx_model.specs.Words.{is_fatal, is_full};
ghost use Rattle.tx_model.specs.Forms.{stands};
ghost use Rattle.tx_model.specs.Processes.{ending_objects};
ghost use Rattle.tx_model.specs.Signals.{disposition};

use crate::actor::Actor;
use crate::laws::laws;
use crate::planned::{Outcome, Planned};
use bitflags::Flags;
use std::alloc::Global;
use tx_base::{Action, NoMemory, Refusal, SIGKILL, SigSet, Signo};
use tx_change::Log;
use tx_proc::{Answer, BoxedFrame, Part};
use tx_signal::{Frame, is_ignored, is_realtime, with, without};

/// Where the process goes on when the signal is caught.
#[derive(Clone, Copy)]
struct Catch {
    point: u32,
    /// The signals that are also blocked.
    mask: SigSet,
    /// What the signal brings.
    value: i64,
}

impl Actor<'_> {
    /// Delivers a pending signal to the process, by its action: it is ignored, it is caught, or it
    /// ends the process (POSIX.1-2017, XSH, Signal Actions).
    ///
    /// Refuses with NotDeliverable where the signal is not pending, or the mask blocks it, or it is
    /// a realtime signal and one of a lower number is pending that the mask does not block; with
    /// Deferred where the transaction defers it, which SIGKILL never is; with FramesFull where it
    /// is caught and four caught signals are unfinished; and with NoMemory. A refusal may leave
    /// more in the log.
    pub(crate) fn plan_taken(
        &self,
        alloc: Global,
        signo: Signo,
        log: &mut Log,
    ) -> Result<Planned, Refusal>
        requires { IsActor self.now }
        ensures ok { IfOk result (λ planned.
            Plans self.now log.old log.new planned (effect_by self.now (delivery signo.0))
            (names_by self.now (delivery_page signo.0).names)) }
        ensures refused { IfErr result (λ why.
            RefusedBy self.now why (effect_by self.now (delivery signo.0))) }
        ensures log { OnErr result (Extends log.old log.new) }
    {
        let Some(value) = self.proc.pending.delivered(signo, self.proc.mask) else {
            return Err(Refusal::NotDeliverable);
        };
        if self.is_deferred(signo) {
            return Err(Refusal::Deferred);
        }
        self.plan_acted(alloc, signo, value, log)
    }

    /// Whether the transaction defers the delivery, never that of SIGKILL. Own rule.
    pub(crate) fn is_deferred(&self, signo: Signo) -> bool
        ensures { result ≡ is_deferred (inside_of self.now.inside) signo.0 }
    {
        match self.inside {
            Some(inside) => inside.defers && signo != SIGKILL,
            None => false,
        }
    }

    /// Plans the delivery by the signal's action. The process must not be process 1.
    fn plan_acted(
        &self,
        alloc: Global,
        signo: Signo,
        value: i64,
        log: &mut Log,
    ) -> Result<Planned, Refusal>
        requires actor { IsActor self.now }
        requires other { self.now.pid.0 ≢ 1 }
        ensures ok { IfOk result (λ planned. Plans self.now log.old log.new planned
            (effect_by self.now (λ c.
            reaction signo.0 value (disposition signo.0 (action_at signo.0 c.process))
            (record c { process = without_delivered signo.0 c.process })))
            (names_by self.now (λ c.
            if is_fatal signo.0 (action_at signo.0 c.process) then ending_objects c else []))) }
        ensures refused { IfErr result (λ why. RefusedBy self.now why
            (effect_by self.now (λ c.
            reaction signo.0 value (disposition signo.0 (action_at signo.0 c.process))
            (record c { process = without_delivered signo.0 c.process })))) }
        ensures log { OnErr result (Extends log.old log.new) }
    {
        laws();
        self.parts.descs.sized();
        let action = self.proc.actions.get(signo);
        if is_ignored(signo, action) {
            let outcome = self.plan_ignored(signo, log)?;
            return Ok(Planned::quiet(outcome));
        }
        let Action::Catch { point, mask } = action else {
            return self.plan_ending(alloc, 256 + signo.0 as u16, log);
        };
        if self.proc.frames.is_full() {
            return Err(Refusal::FramesFull);
        }
        let outcome = self.plan_caught(alloc, signo, Catch { point, mask, value }, log)?;
        Ok(Planned::quiet(outcome))
    }

    /// Plans the delivery of a signal that is ignored: it is only no longer pending.
    fn plan_ignored(&self, signo: Signo, log: &mut Log) -> Result<Outcome, NoMemory>
        ensures ok { IfOk result (λ outcome. PlansOwn self.now log.old log.new outcome
            (effect_by self.now (λ c. stands
            (without_delivered signo.0 c.process) (reply.Done c.process.registers.ret)))) }
        ensures err { OnErr result (log.new ≡ log.old) }
    {
        self.push_relieved(signo, log)?;
        Ok(Outcome::Done(self.proc.regs.ret))
    }

    /// Plans the delivery of a signal that is caught: the registers and the mask are saved, the
    /// signal and those of the catch are blocked, and the answer is the signal's value.
    fn plan_caught(
        &self,
        alloc: Global,
        signo: Signo,
        catch: Catch,
        log: &mut Log,
    ) -> Result<Outcome, NoMemory>
        requires number { signo.0 < 64 }
        requires room { is_full (me_of self.now) ≡ false }
        ensures ok { IfOk result (λ outcome. PlansOwn self.now log.old log.new outcome
            (effect_by self.now (λ c. stands
            (at_catch_point signo.0 catch.value catch.point catch.mask
            (without_delivered signo.0 c.process)) (reply.Done catch.value)))) }
        ensures err { OnErr result (Extends log.old log.new) }
    {
        let Catch { point, mask, value } = catch;
        let saved = Frame {
            registers: self.proc.regs,
            mask: self.proc.mask,
        };
        let frame = BoxedFrame::new(alloc, Some(saved))?;
        self.push_relieved(signo, log)?;
        let blocked = with(self.proc.mask.union(mask), signo);
        self.push(Part::Mask(blocked), log)?;
        self.push(Part::Frame(frame), log)?;
        log.push_answer(self.pid, Answer { point, ret: value })?;
        Ok(Outcome::Done(value))
    }

    /// Appends the exchange that takes the signal out of what is pending: for a realtime one, its
    /// first entry.
    fn push_relieved(&self, signo: Signo, log: &mut Log) -> Result<(), NoMemory>
        ensures ok { OnOk result (PlansPart self.now log.old log.new (without_delivered signo.0)) }
        ensures err { OnErr result (log.new ≡ log.old) }
    {
        if !is_realtime(signo) {
            let standard = without(self.proc.pending.standard(), signo);
            return self.push(Part::Pending(standard), log);
        }
        let _few = self.proc.pending.queued();
        if let Some(place) = self.proc.pending.place_of(signo) {
            self.push(Part::Queued(place, None), log)?;
        }
        Ok(())
    }
}
