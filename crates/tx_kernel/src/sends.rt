//! Signals that a process sends (POSIX.1-2017, XSH, kill() and sigqueue()).
ghost use Rattle.std.specs.Prelude.{◌≡◌, ◌<◌, ℕ, ℤ, List, option_map, IfOk, IfSome, OnErr};
ghost use Rattle.tx_kernel.specs.Actors.{CountsHeld, IsActor, effect_by, names_by};
ghost use Rattle.tx_kernel.specs.Plans.{Extends, HasSignal};
ghost use Rattle.tx_kernel.specs.Sends.{IsHandedOut, PlansPosted, sends_by, sent};
ghost use Rattle.tx_kernel.specs.Steps.{PlansStep};
ghost use Rattle.tx_change.specs.States.{state_of};
ghost use Rattle.tx_model.specs.Book.{sigqueue, sendable};
ghost use Rattle.tx_model.specs.Processes.{held_objects};
ghost use Rattle.tx_model.specs.State.{Sending as TheSending};
ghost use Rattle.tx_signal.specs.Numbers.{number_of};

use crate::actor::Actor;
use crate::answers::answer_of;
use crate::laws::laws;
use crate::planned::{Outcome, Planned, Sends};
use tx_base::{CLOSED_INSIDE, Errno, HELD_SENDS, NoMemory, Sending, Signo};
use tx_change::Log;
use tx_signal::known;

/// What a call that sends a signal comes to.
#[derive(Clone, Copy)]
pub(crate) enum Send {
    /// Nothing is sent, and this is the answer.
    Answers(i64),
    /// It is posted, and the answer of the post is the answer.
    Posts(Sending),
    /// It is held until the transaction commits, and the answer is 0.
    Holds(Sending),
}

impl Send {
    /// The signal that it sends.
    pub(crate) fn sends(&self) -> Sends
        ensures { result ≡ sends_by self.now }
    {
        match self {
            Send::Answers(_) => Sends::Nothing,
            Send::Posts(sending) => Sends::AtOnce(*sending),
            Send::Holds(sending) => Sends::AtCommit(*sending),
        }
    }
}

/// The signal that a program computed, or 0, which only asks; none if there is no such signal.
pub fn sendable(number: i64) -> Option<Signo>
    ensures number { option_map number_of result ≡ sendable number }
    ensures low { IfSome result (λ signo. signo.0 < 40) }
{
    if number == 0 {
        return Some(Signo(0));
    }
    known(number)
}

impl Actor<'_> {
    /// What a sigqueue comes to, or with the value 0 a kill. It takes no memory.
    pub(crate) fn decide_send(&self, target: i64, signo: i64, value: i64) -> Send
        requires { IsActor self.now }
        ensures signal { HasSignal (sends_by result) }
        ensures effect { (held : ℕ → List TheSending) → CountsHeld self.now.inside held →
            effect_by self.now (sigqueue target signo value) (state_of held self.now.parts.now)
            ≡ effect_by self.now (sent result) (state_of held self.now.parts.now) }
    {
        let Some(signo) = sendable(signo) else {
            return Send::Answers(Errno::InvalidArgument.answer());
        };
        let Some(target) = self.numbered(target) else {
            return Send::Answers(Errno::NoSuchProcess.answer());
        };
        self.hand_out(Sending {
            target,
            signo,
            value,
            from: Some((self.proc.cred.real_user, self.proc.cred.effective_user)),
        })
    }

    /// Posts a signal, but holds one from a member to a process that is none. Own rule: signal 0 is
    /// closed there, and 32 may be held.
    fn hand_out(&self, sending: Sending) -> Send
        requires { sending.signo.0 < 64 }
        ensures signal { HasSignal (sends_by result) }
        ensures effect { (target signo value : ℤ) (held : ℕ → List TheSending) →
            IsHandedOut self.now sending target signo value → CountsHeld self.now.inside held →
            effect_by self.now (sigqueue target signo value) (state_of held self.now.parts.now)
            ≡ effect_by self.now (sent result) (state_of held self.now.parts.now) }
    {
        let Some(inside) = self.inside else {
            return Send::Posts(sending);
        };
        if inside.has_member(sending.target) {
            return Send::Posts(sending);
        }
        if sending.signo.0 == 0 {
            return Send::Answers(-(CLOSED_INSIDE as i64));
        }
        if inside.held < HELD_SENDS {
            Send::Holds(sending)
        } else {
            Send::Answers(Errno::TryAgain.answer())
        }
    }

    /// Sends a process a signal with a value, and answers what its post answers, or 0 if it is held
    /// (POSIX.1-2017, XSH, sigqueue(), and with the value 0 kill()).
    ///
    /// Answers InvalidArgument where there is no such signal, then NoSuchProcess where the number
    /// is not 1 to the width; inside a transaction, to a process that is no member, -200 for signal
    /// 0 and TryAgain where 32 are held; and what a post answers. If memory is refused, the log has
    /// more at its end.
    pub(crate) fn plan_send(
        &self,
        target: i64,
        signo: i64,
        value: i64,
        log: &mut Log,
    ) -> Result<Planned, NoMemory>
        requires { IsActor self.now }
        ensures ok { IfOk result (λ planned.
            PlansStep self.now log.old log.new planned.outcome planned.sends
            (effect_by self.now (sigqueue target signo value))
            (names_by self.now (λ c. held_objects c.inside))) }
        ensures log { OnErr result (Extends log.old log.new) }
    {
        laws();
        self.parts.descs.sized();
        match self.decide_send(target, signo, value) {
            Send::Answers(ret) => {
                let outcome = self.plan_answer(ret, log)?;
                Ok(Planned::quiet(outcome))
            }
            Send::Posts(sending) => {
                let outcome = self.plan_posted(&sending, log)?;
                Ok(Planned {
                    outcome,
                    sends: Sends::AtOnce(sending),
                })
            }
            Send::Holds(sending) => {
                let outcome = self.plan_answer(0, log)?;
                Ok(Planned {
                    outcome,
                    sends: Sends::AtCommit(sending),
                })
            }
        }
    }

    /// Plans a post, and its answer as that of the process. If memory is refused, the log has more
    /// at its end.
    fn plan_posted(&self, sending: &Sending, log: &mut Log) -> Result<Outcome, NoMemory>
        requires actor { IsActor self.now }
        requires signal { sending.now.signo.0 < 64 }
        ensures ok { IfOk result (λ outcome.
            PlansPosted self.now log.old log.new sending.now outcome) }
        ensures err { OnErr result (Extends log.old log.new) }
    {
        laws();
        let answer = self.push_post(sending, log)?;
        let ret = answer_of(answer);
        self.push_answer(ret, log)?;
        Ok(Outcome::Done(ret))
    }
}
