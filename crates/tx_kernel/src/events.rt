//! What a process does in a step, and the plan of it.
ghost use Rattle.std.specs.Prelude.{◌≡◌, IfErr, IfOk, OnErr};
ghost use Rattle.tx_base.specs.declared.steps.Refusal.TheVariants.{NoMemory};
ghost use Rattle.tx_kernel.specs.Actors.{IsActor, inside_of};
ghost use Rattle.tx_kernel.specs.Acts.{PlansEvent, RefusesEvent, event_of};
ghost use Rattle.tx_kernel.specs.Plans.{quiet};
ghost use Rattle.tx_model.specs.Events.{Note};

use crate::actor::Actor;
use crate::laws::laws;
use crate::planned::{Outcome, Sends};
use std::alloc::Global;
use tx_base::{Call, Refusal, Signo};
use tx_change::Log;

/// What a process does in a step.
#[derive(Clone, Copy)]
pub enum Act<'a> {
    /// It makes a call.
    Call(&'a Call),
    /// It takes a pending signal.
    Delivery(Signo),
    /// It is at its next point with this answer, and nothing else: so a call of transactions ends.
    Answer(i64),
}

impl Actor<'_> {
    /// Plans what the process does, as `plan_call` and `plan_delivery` do: appends its exchanges to
    /// the log, with those of its post, and puts what it sends into its place. Nothing is changed.
    ///
    /// Refuses as these do, and an answer only with NoMemory. The log is then as it was.
    pub fn plan(
        &self,
        alloc: Global,
        act: &Act,
        log: &mut Log,
        sends: &mut Sends,
    ) -> Result<Outcome, Refusal>
        requires { IsActor self.now }
        ensures ok { IfOk result (λ outcome.
            PlansEvent self.now log.old log.new
            (record { outcome = outcome; sends = sends.new })
            (event_of (inside_of self.now.inside) self.now.pid act.now)) }
        ensures refused { IfErr result (RefusesEvent self.now.parts.now self.now.inside
            (event_of (inside_of self.now.inside) self.now.pid act.now)) }
        ensures err { OnErr result (log.new ≡ log.old) }
    {
        match act {
            Act::Call(call) => self.plan_call(alloc, call, log, sends),
            Act::Delivery(signo) => self.plan_delivery(alloc, *signo, log, sends),
            Act::Answer(ret) => {
                *sends = Sends::Nothing;
                self.plan_note(*ret, log)
            }
        }
    }

    /// Plans only an answer. Refuses only with NoMemory; the log is then as it was.
    fn plan_note(&self, ret: i64, log: &mut Log) -> Result<Outcome, Refusal>
        requires { IsActor self.now }
        ensures ok { IfOk result (λ outcome.
            PlansEvent self.now log.old log.new (quiet outcome) (Note self.now.pid.0 ret)) }
        ensures memory { IfErr result (λ why. why ≡ NoMemory) }
        ensures err { OnErr result (log.new ≡ log.old) }
    {
        laws();
        self.parts.descs.sized();
        Ok(self.plan_answer(ret, log)?)
    }
}
