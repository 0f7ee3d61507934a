//! What a step sends, before it is planned and without memory.
ghost use Rattle.std.specs.Prelude.{◌≡◌, ℤ};
ghost use Rattle.tx_kernel.specs.Actors.{IsActor, effect_by, inside_of, me_of};
ghost use Rattle.tx_kernel.specs.Sends.{IsSentBy};
ghost use Rattle.tx_model.specs.Book.{exit};
ghost use Rattle.tx_model.specs.Words.{call_effect, is_fatal};
ghost use Rattle.tx_model.specs.Deliveries.{delivered_value, ends_by, delivery};

use crate::actor::Actor;
use crate::planned::Sends;
use tx_base::{Action, Call, SIGCHLD, Signo};
use tx_laws::own_calls;

impl Actor<'_> {
    /// The signal that a call sends, with the ids of the sender now. Nothing is sent.
    ///
    /// It is asked before the plan, which may still refuse: the signal is then one that would be sent.
    pub fn sends_of_call(&self, call: &Call) -> Sends
        requires { IsActor self.now }
        ensures { IsSentBy self.now result (λ S.
            call_effect (inside_of self.now.inside) self.now.pid.0 call.now (me_of self.now) S) }
    {
        own_calls();
        match call {
            Call::Kill(target, signo) => self.decide_send(*target, *signo, 0).sends(),
            Call::Sigqueue(target, signo, value) => {
                self.decide_send(*target, *signo, *value).sends()
            }
            Call::Exit(_) => self.sends_of_exit(),
            Call::Write(fd, address, count) => self.sends_of_write(*fd, *address, *count),
            _ => Sends::Nothing,
        }
    }

    /// The signal that an exit sends.
    fn sends_of_exit(&self) -> Sends
        ensures { (status : ℤ) → IsSentBy self.now result (effect_by self.now (exit status)) }
    {
        if self.pid.0 == 1 {
            return Sends::Nothing;
        }
        self.tells_parent()
    }

    /// The signal that a delivery sends: if it ends the process, its parent is notified.
    pub fn sends_of_delivery(&self, signo: Signo) -> Sends
        requires { IsActor self.now }
        ensures { IsSentBy self.now result (effect_by self.now (delivery signo.0)) }
    {
        if !self.is_ended_by(signo) {
            return Sends::Nothing;
        }
        self.tells_parent()
    }

    /// Whether a delivery of the signal now ends the process: it may be delivered, the transaction does
    /// not defer it, and its action ends the process. It takes no memory.
    pub fn is_ended_by(&self, signo: Signo) -> bool
        ensures { result ≡ ends_by (inside_of self.now.inside) signo.0 (me_of self.now)
            (delivered_value signo.0 (me_of self.now)) }
    {
        let Some(_value) = self.proc.pending.delivered(signo, self.proc.mask) else {
            return false;
        };
        !self.is_deferred(signo) && is_fatal(signo, self.proc.actions.get(signo))
    }
}

/// Whether the delivery of the signal ends a process with this action.
fn is_fatal(signo: Signo, action: Action) -> bool
    ensures { result ≡ is_fatal signo.0 action }
{
    match action {
        Action::Usual => signo != SIGCHLD,
        Action::Ignore => false,
        Action::Catch { .. } => false,
    }
}
