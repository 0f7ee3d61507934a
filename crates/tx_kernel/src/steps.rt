//! The plan of a whole step: what it writes, its post, and its answer.
ghost use Rattle.std.specs.Prelude.{◌≡◌, ◌<◌, List, IfOk, OnOk, OnErr};
ghost use Rattle.tx_change.specs.declared.change.Change.{Change as TheChange};
ghost use Rattle.tx_kernel.specs.Plans.{Extends, HasSignal, Plans, sending_of};
ghost use Rattle.tx_kernel.specs.Posts.{PlansPost};
ghost use Rattle.tx_kernel.specs.Steps.{PlansStep};
ghost use Rattle.tx_model.specs.Effects.{Effect};
ghost use Rattle.tx_model.specs.State.{Object, State};

use crate::actor::Actor;
use crate::laws::laws;
use crate::planned::{Planned, Sends};
use crate::posts::plan_at;
use tx_base::{Errno, NoMemory, Sending};
use tx_change::{Change, Log};

impl Actor<'_> {
    /// Appends what a post exchanges, if anything, and gives its answer. If memory is refused, the
    /// log is as it was.
    pub(crate) fn push_post(
        &self,
        sending: &Sending,
        log: &mut Log,
    ) -> Result<Result<(), Errno>, NoMemory>
        requires { sending.now.signo.0 < 64 }
        ensures ok { IfOk result (λ answer.
            PlansPost self.now.parts.now log.old log.new (sending_of sending.now) answer) }
        ensures err { OnErr result (log.new ≡ log.old) }
    {
        match plan_at(self.parts, sending) {
            Ok(Some(part)) => {
                log.push(Change::Part(sending.target, part))?;
                Ok(Ok(()))
            }
            Ok(None) => Ok(Ok(())),
            Err(errno) => Ok(Err(errno)),
        }
    }

    /// Appends the post of a planned step, if it makes one: the log then has the plan of the whole
    /// step. If memory is refused, the log has more at its end.
    pub(crate) fn push_sends(&self, planned: &Planned, log: &mut Log) -> Result<(), NoMemory>
        requires { HasSignal planned.now.sends }
        ensures ok { OnOk result
            ((before : List TheChange) (rule : State → Effect) (objects : State → List Object) →
            Plans self.now before log.old planned.now rule objects →
            PlansStep self.now before log.new planned.now.outcome planned.now.sends rule
            objects) }
        ensures log { OnErr result (Extends log.old log.new) }
    {
        laws();
        match &planned.sends {
            Sends::Nothing => Ok(()),
            Sends::AtOnce(sending) => {
                let _answer = self.push_post(sending, log)?;
                Ok(())
            }
            Sends::AtCommit(_) => Ok(()),
        }
    }
}
