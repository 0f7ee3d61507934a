//! Answers that change nothing else.
ghost use Rattle.std.specs.Prelude.{◌≡◌, ◌++◌, ◌∷◌, [], List, pos, IfOk, IfErr, OnOk, OnErr};
ghost use Rattle.tx_base.specs.declared.steps.Refusal.TheVariants as refusal;
ghost use Rattle.tx_change.specs.declared.change.Change.TheVariants.{Part as SetPart};
ghost use Rattle.tx_kernel.specs.Actors.{IsActor, effect_by};
ghost use Rattle.tx_kernel.specs.Own.{ComesTo, IsPlainPart, PlansOwn, answer_after};
ghost use Rattle.tx_kernel.specs.Plans.{Extends, Plans, quiet};
ghost use Rattle.tx_model.specs.Forms.{Rule, answers, changes, fails};
ghost use Rattle.tx_signal.specs.Parts.{answer_of};
ghost use Rattle.tx_model.specs.State.{Object, State};
ghost use Rattle.tx_proc.specs.Parts.{revised};
ghost use Rattle.tx_proc.specs.declared.proc.Part.TheVariants.{Answer as SetAnswer};

use crate::actor::Actor;
use crate::laws::laws;
use crate::planned::Outcome;
use tx_base::{Errno, NoMemory, Refusal};
use tx_change::{Change, Log};
use tx_proc::{Answer, Part};

/// The answer for the result of a post.
pub(crate) fn answer_of(posted: Result<(), Errno>) -> i64
    ensures { result ≡ answer_of posted }
{
    match posted {
        Ok(()) => 0,
        Err(errno) => errno.answer(),
    }
}

impl Actor<'_> {
    /// Appends a new part of the process. If memory is refused, the log is as it was.
    #[inline(always)] // a part is large, and would be copied once more
    pub(crate) fn push(&self, part: Part, log: &mut Log) -> Result<(), NoMemory>
        ensures ok { OnOk result (log.new ≡ log.old ++ SetPart self.now.pid part ∷ []) }
        ensures err { OnErr result (log.new ≡ log.old) }
    {
        log.push(Change::Part(self.pid, part))
    }

    /// Appends the answer at the next point. If memory is refused, the log is as it was.
    pub(crate) fn push_answer(&self, ret: i64, log: &mut Log) -> Result<(), NoMemory>
        ensures ok { OnOk result
            (log.new ≡ log.old ++ SetPart self.now.pid (SetAnswer (answer_after ret self.now))
            ∷ []) }
        ensures err { OnErr result (log.new ≡ log.old) }
    {
        log.push_answer(self.pid, Answer::at(self.proc.regs.point, ret))
    }

    /// Plans only an answer. If memory is refused, the log is as it was.
    pub(crate) fn plan_answer(&self, ret: i64, log: &mut Log) -> Result<Outcome, NoMemory>
        ensures ok { IfOk result (λ outcome. PlansOwn self.now log.old log.new outcome
            (effect_by self.now (λ c. answers ret))) }
        ensures err { OnErr result (log.new ≡ log.old) }
    {
        self.push_answer(ret, log)?;
        Ok(Outcome::Done(ret))
    }

    /// Plans a new part of the process that names nothing, and this answer.
    #[inline(always)] // a part is large, and would be copied once more
    pub(crate) fn plan_part(
        &self,
        part: Part,
        answer: u16,
        log: &mut Log,
    ) -> Result<Outcome, NoMemory>
        requires { IsPlainPart part }
        ensures page { (page : Rule) →
            ComesTo self.now page (λ c. changes (pos answer) (revised part c.process) []) →
            IfOk result (λ outcome.
            PlansOwn self.now log.old log.new outcome (effect_by self.now page)) }
        ensures err { OnErr result (Extends log.old log.new) }
    {
        let answer = answer as i64;
        self.push(part, log)?;
        self.push_answer(answer, log)?;
        Ok(Outcome::Done(answer))
    }

    /// Plans only an error as the answer. If memory is refused, the log is as it was.
    pub(crate) fn plan_error(&self, errno: Errno, log: &mut Log) -> Result<Outcome, NoMemory>
        ensures ok { IfOk result (λ outcome. PlansOwn self.now log.old log.new outcome
            (effect_by self.now (λ c. fails errno))) }
        ensures page { (page : Rule) → ComesTo self.now page (λ c. fails errno) →
            IfOk result (λ outcome.
            PlansOwn self.now log.old log.new outcome (effect_by self.now page)) }
        ensures err { OnErr result (log.new ≡ log.old) }
    {
        self.plan_answer(errno.answer(), log)
    }

    /// Plans only this answer, as a whole step. If memory is refused, the log is as it was.
    pub(crate) fn plan_done(&self, ret: i64, log: &mut Log) -> Result<Outcome, Refusal>
        requires { IsActor self.now }
        ensures ok { IfOk result (λ outcome.
            (objects : State → List Object) → Plans self.now log.old log.new (quiet outcome)
            (effect_by self.now (λ c. answers ret)) objects) }
        ensures refused { IfErr result (λ why. why ≡ refusal.NoMemory) }
        ensures log { OnErr result (log.new ≡ log.old) }
    {
        laws();
        self.parts.descs.sized();
        Ok(self.plan_answer(ret, log)?)
    }

    /// Plans only an error as the answer, as a whole step. If memory is refused, the log is as it
    /// was.
    pub(crate) fn plan_failure(&self, errno: Errno, log: &mut Log) -> Result<Outcome, Refusal>
        requires { IsActor self.now }
        ensures ok { IfOk result (λ outcome.
            (objects : State → List Object) → Plans self.now log.old log.new (quiet outcome)
            (effect_by self.now (λ c. fails errno)) objects) }
        ensures refused { IfErr result (λ why. why ≡ refusal.NoMemory) }
        ensures log { OnErr result (log.new ≡ log.old) }
    {
        self.plan_done(errno.answer(), log)
    }
}
