//! Why a step is refused, before it is planned and without memory.
ghost use Rattle.std.specs.Prelude.{◌≡◌, ◌≢◌, ℕ, List, false, length, IfNone, IfSome};
ghost use Rattle.tx_change.specs.States.{state_of};
ghost use Rattle.tx_kernel.specs.Actors.{CountsHeld, IsActor, effect_by, inside_of, me_of};
ghost use Rattle.tx_kernel.specs.Refusals.{IsMade, TellsWait, lacks_frame, number_refusal};
ghost use Rattle.tx_model.specs.Answer.{is_bad_choice, is_choice_in_use};
ghost use Rattle.tx_model.specs.Words.{chosen_in, call_effect};
ghost use Rattle.tx_model.specs.Book.{read, waitpid, write};
ghost use Rattle.tx_model.specs.Deliveries.{action_at, delivery};
ghost use Rattle.tx_model.specs.Effects.{idle};
ghost use Rattle.tx_model.specs.Signals.{disposition};
ghost use Rattle.tx_model.specs.State.{Sending as TheSending};

use crate::actor::Actor;
use crate::descriptors::is_bad_pipe;
use crate::transfers::{Reading, Writing};
use tx_base::{Action, Call, Refusal, Signo};
use tx_laws::own_calls;

impl Actor<'_> {
    /// Why the rule of a call refuses it, if it does: NumberTaken where a fork or a pipe chooses a
    /// number that is in use, and Wait where a read, a write or a waitpid waits. It takes no memory.
    ///
    /// A call that its rule does not refuse is made, if there is memory and it chooses good
    /// numbers: `refusal_of_numbers` says whether it does.
    pub fn refusal_of_call(&self, call: &Call) -> Option<Refusal>
        requires { IsActor self.now }
        ensures refused { IfSome result (λ why.
            (held : ℕ → List TheSending) → CountsHeld self.now.inside held →
            call_effect (inside_of self.now.inside) self.now.pid.0 call.now (me_of self.now)
            (state_of held self.now.parts.now) ≡ idle why) }
        ensures accepted { IfNone result
            ((held : ℕ → List TheSending) → CountsHeld self.now.inside held →
            IsMade (call_effect (inside_of self.now.inside) self.now.pid.0 call.now (me_of self.now)
            (state_of held self.now.parts.now))) }
        ensures memory { IfSome result (λ why. why ≢ Refusal.NoMemory) }
    {
        if self.has_number_in_use(call) {
            return Some(Refusal::NumberTaken);
        }
        if self.waits(call) {
            return Some(Refusal::Wait);
        }
        None
    }

    /// Why a number that the call chooses is refused, if one is: BadNumber where one is out of range
    /// or chosen twice, then NumberTaken where one is in use. It takes no memory.
    pub fn refusal_of_numbers(&self, call: &Call) -> Option<Refusal>
        requires { IsActor self.now }
        ensures { (held : ℕ → List TheSending) →
            result ≡ number_refusal (length self.now.parts.now.procs)
            (state_of held self.now.parts.now) (chosen_in call.now) }
    {
        if self.has_bad_number(call) {
            return Some(Refusal::BadNumber);
        }
        if self.has_number_in_use(call) {
            return Some(Refusal::NumberTaken);
        }
        None
    }

    /// Why the rule of a delivery refuses it, if it does: NotDeliverable where the signal is not
    /// pending, or the mask blocks it, or it is a realtime signal and one of a lower number is pending
    /// that the mask does not block; then Deferred where the transaction defers it; then FramesFull
    /// where it is caught and four caught signals are unfinished. It takes no memory.
    ///
    /// A delivery that its rule does not refuse is made, if there is memory.
    pub fn refusal_of_delivery(&self, signo: Signo) -> Option<Refusal>
        requires { IsActor self.now }
        ensures refused { IfSome result (λ why.
            (held : ℕ → List TheSending) → CountsHeld self.now.inside held →
            effect_by self.now (delivery signo.0) (state_of held self.now.parts.now) ≡ idle why) }
        ensures accepted { IfNone result
            ((held : ℕ → List TheSending) → CountsHeld self.now.inside held →
            IsMade (effect_by self.now (delivery signo.0) (state_of held self.now.parts.now))) }
        ensures memory { IfSome result (λ why. why ≢ Refusal.NoMemory) }
    {
        let Some(_value) = self.proc.pending.delivered(signo, self.proc.mask) else {
            return Some(Refusal::NotDeliverable);
        };
        if self.is_deferred(signo) {
            return Some(Refusal::Deferred);
        }
        if self.lacks_frame(signo) {
            return Some(Refusal::FramesFull);
        }
        None
    }

    /// Whether a number that the call chooses is out of range, or one is chosen twice.
    fn has_bad_number(&self, call: &Call) -> bool
        ensures { result ≡ is_bad_choice (length self.now.parts.now.procs) (chosen_in call.now) }
    {
        match call {
            Call::Fork(child) => self.is_bad_child(*child),
            Call::Pipe(pipe, read, write) => is_bad_pipe(*pipe, *read, *write),
            _ => false,
        }
    }

    /// Whether a number that the call chooses is in use.
    fn has_number_in_use(&self, call: &Call) -> bool
        ensures { (held : ℕ → List TheSending) →
            result ≡ is_choice_in_use (state_of held self.now.parts.now) (chosen_in call.now) }
    {
        match call {
            Call::Fork(child) => !self.parts.procs.free(*child),
            Call::Pipe(pipe, read, write) => self.has_pipe_in_use(*pipe, *read, *write),
            _ => false,
        }
    }

    /// Whether a call waits. No number that it chooses may be in use.
    fn waits(&self, call: &Call) -> bool
        requires actor { IsActor self.now }
        requires free { (held : ℕ → List TheSending) →
            is_choice_in_use (state_of held self.now.parts.now) (chosen_in call.now) ≡ false }
        ensures { TellsWait self.now result (λ S.
            call_effect (inside_of self.now.inside) self.now.pid.0 call.now (me_of self.now) S) }
    {
        own_calls();
        match call {
            Call::Waitpid(number, nohang) => self.waits_for_child(*number, *nohang),
            Call::Read(fd, address, count) => self.waits_to_read(*fd, *address, *count),
            Call::Write(fd, address, count) => self.waits_to_write(*fd, *address, *count),
            _ => false,
        }
    }

    /// Whether a waitpid waits: without `nohang`, for a child that runs.
    fn waits_for_child(&self, number: i64, nohang: bool) -> bool
        requires { IsActor self.now }
        ensures { TellsWait self.now result (effect_by self.now (waitpid number nohang)) }
    {
        let Some(child) = self.child(number) else {
            return false;
        };
        match child.status {
            Some(_) => false,
            None => !nohang,
        }
    }

    /// Whether a read waits.
    fn waits_to_read(&self, fd: i64, address: i64, count: i64) -> bool
        requires { IsActor self.now }
        ensures { TellsWait self.now result (effect_by self.now (read fd address count)) }
    {
        match self.reading(fd, address, count) {
            Ok(Reading::Waits) => true,
            Ok(Reading::Nothing) => false,
            Ok(Reading::Takes(_, _)) => false,
            Err(_) => false,
        }
    }

    /// Whether a write waits.
    fn waits_to_write(&self, fd: i64, address: i64, count: i64) -> bool
        requires { IsActor self.now }
        ensures { TellsWait self.now result (effect_by self.now (write fd address count)) }
    {
        match self.writing(fd, address, count) {
            Ok(Writing::Waits) => true,
            Ok(Writing::Nothing) => false,
            Ok(Writing::Breaks) => false,
            Ok(Writing::Puts(_, _)) => false,
            Err(_) => false,
        }
    }

    /// Whether the signal is caught while four caught signals are unfinished.
    fn lacks_frame(&self, signo: Signo) -> bool
        ensures { result ≡ lacks_frame (disposition signo.0 (action_at signo.0 (me_of self.now)))
            (me_of self.now) }
    {
        match self.proc.actions.get(signo) {
            Action::Usual => false,
            Action::Ignore => false,
            Action::Catch { .. } => self.proc.frames.is_full(),
        }
    }
}
