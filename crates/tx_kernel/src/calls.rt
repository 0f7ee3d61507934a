//! The plan of any call, by its kind.
ghost use Rattle.std.specs.Prelude.{◌≡◌, ◌⊎◌, true, IfOk, IfErr, OnErr};
ghost use Rattle.tx_kernel.specs.Actors.{IsActor, effect_by, inside_of, me_of, names_by};
ghost use Rattle.tx_kernel.specs.Calls.{sends_nothing};
ghost use Rattle.tx_kernel.specs.Own.{PlansOwn};
ghost use Rattle.tx_kernel.specs.Plans.{Extends, IsBadChoice, IsGoodChoice, Plans, RefusedBy, quiet};
ghost use Rattle.tx_kernel.specs.Steps.{PlansStep};
ghost use Rattle.tx_laws.specs.OwnCalls.{concerns_itself_alone};
ghost use Rattle.tx_model.specs.Words.{chosen_in, call_effect, call_objects};
ghost use Rattle.tx_model.specs.Book.{page_of_call};
ghost use Rattle.tx_model.specs.Deliveries.{delivery, delivery_page};

use crate::actor::Actor;
use crate::laws::laws;
use crate::planned::{Outcome, Sends};
use std::alloc::Global;
use tx_base::{Call, Errno, NoMemory, QUEUED, Refusal, SLOTS, Signo};
use tx_change::Log;

impl Actor<'_> {
    /// Plans a call that concerns only its own process. A call of transactions answers EINVAL.
    fn plan_own(&self, alloc: Global, call: &Call, log: &mut Log) -> Result<Outcome, NoMemory>
        requires { IsActor self.now }
        ensures ok { concerns_itself_alone call.now ≡ true →
            IfOk result (λ outcome. PlansOwn self.now log.old log.new outcome
            (effect_by self.now (page_of_call call.now).outcome)) }
        ensures log { OnErr result (Extends log.old log.new) }
    {
        match call {
            Call::Map(page) => self.plan_map(alloc, *page, log),
            Call::Unmap(page) => self.plan_unmap(*page, log),
            Call::Protect(page, writable) => self.plan_protect(*page, *writable, log),
            Call::Store(address, bytes) => self.plan_store(alloc, *address, bytes, log),
            Call::Load(address) => self.plan_load(*address, log),
            Call::Getpid => self.plan_getpid(log),
            Call::Getppid => self.plan_getppid(log),
            Call::Setuid(user) => self.plan_setuid(*user, log),
            Call::Seteuid(user) => self.plan_seteuid(*user, log),
            Call::Setgid(group) => self.plan_setgid(*group, log),
            Call::Setegid(group) => self.plan_setegid(*group, log),
            Call::Sigaction(signo, action) => self.plan_sigaction(*signo, *action, log),
            Call::Sigprocmask(how, set) => self.plan_sigprocmask(*how, *set, log),
            Call::Sigpending => self.plan_sigpending(log),
            Call::Sigreturn => self.plan_sigreturn(alloc, log),
            Call::ConsoleWrite(address, count) => self.plan_console_write(*address, *count, log),
            Call::Jump(point, when) => self.plan_jump(*point, *when, log),
            Call::Keep(slot) => self.plan_keep(*slot, log),
            _ => self.plan_error(Errno::InvalidArgument, log),
        }
    }

    /// Plans a call that sends nothing.
    ///
    /// Refuses as the call's own plan does. A refusal may leave more in the log.
    fn plan_quiet(&self, alloc: Global, call: &Call, log: &mut Log) -> Result<Outcome, Refusal>
        requires { IsActor self.now }
        ensures ok { sends_nothing call.now ≡ true →
            IfOk result (λ outcome. Plans self.now log.old log.new (quiet outcome)
            (effect_by self.now (page_of_call call.now).outcome)
            (names_by self.now (page_of_call call.now).names)) }
        ensures refused { IfErr result (λ why.
            RefusedBy self.now why (effect_by self.now (page_of_call call.now).outcome)
            ⊎ IsBadChoice self.now why (chosen_in call.now)) }
        ensures numbers { IfOk result (λ outcome. IsGoodChoice self.now (chosen_in call.now)) }
        ensures log { OnErr result (Extends log.old log.new) }
    {
        laws();
        self.parts.descs.sized();
        match call {
            Call::Fork(child) => self.plan_fork(alloc, *child, log),
            Call::Waitpid(number, nohang) => self.plan_waitpid(*number, *nohang, log),
            Call::Pipe(pipe, read, write) => self.plan_pipe(alloc, *pipe, *read, *write, log),
            Call::Dup(fd) => self.plan_dup(*fd, log),
            Call::Dup2(fd, other) => self.plan_dup2(*fd, *other, log),
            Call::Close(fd) => self.plan_close(*fd, log),
            Call::SetNonblock(fd, on) => self.plan_nonblock(*fd, *on, log),
            Call::Read(fd, address, count) => self.plan_read(alloc, *fd, *address, *count, log),
            _ => Ok(self.plan_own(alloc, call, log)?),
        }
    }

    /// Plans any call, with its post, and puts what it sends into its place. A refusal may leave more
    /// in the log.
    fn plan_any(
        &self,
        alloc: Global,
        call: &Call,
        log: &mut Log,
        sends: &mut Sends,
    ) -> Result<Outcome, Refusal>
        requires { IsActor self.now }
        ensures ok { IfOk result (λ outcome.
            PlansStep self.now log.old log.new outcome sends.new
            (effect_by self.now (page_of_call call.now).outcome)
            (names_by self.now (page_of_call call.now).names)) }
        ensures refused { IfErr result (λ why.
            RefusedBy self.now why (effect_by self.now (page_of_call call.now).outcome)
            ⊎ IsBadChoice self.now why (chosen_in call.now)) }
        ensures numbers { IfOk result (λ outcome. IsGoodChoice self.now (chosen_in call.now)) }
        ensures log { OnErr result (Extends log.old log.new) }
    {
        match call {
            Call::Kill(target, signo) => {
                Ok(self.plan_send(*target, *signo, 0, log)?.put_sends(sends))
            }
            Call::Sigqueue(target, signo, value) => {
                Ok(
                    self.plan_send(*target, *signo, *value, log)?
                        .put_sends(sends),
                )
            }
            Call::Exit(status) => {
                let planned = self.plan_exit(alloc, *status, log)?;
                self.push_sends(&planned, log)?;
                Ok(planned.put_sends(sends))
            }
            Call::Write(fd, address, count) => {
                let planned = self.plan_write(alloc, *fd, *address, *count, log)?;
                self.push_sends(&planned, log)?;
                Ok(planned.put_sends(sends))
            }
            _ => {
                *sends = Sends::Nothing;
                self.plan_quiet(alloc, call, log)
            }
        }
    }

    /// Plans a call: appends its exchanges to the log, with those of its post and its answer, and
    /// gives the answer and puts what it sends into its place. A call of transactions answers EINVAL,
    /// as it does where it makes no sense. Nothing is changed.
    ///
    /// Refuses with BadNumber where a number that the call chooses is out of range or chosen twice,
    /// with NumberTaken where one is in use, with Wait where a read, a write or a waitpid waits,
    /// and with NoMemory. The log is then as it was; in the place of what it sends there may be
    /// anything.
    pub fn plan_call(
        &self,
        alloc: Global,
        call: &Call,
        log: &mut Log,
        sends: &mut Sends,
    ) -> Result<Outcome, Refusal>
        requires { IsActor self.now }
        ensures ok { IfOk result (λ outcome.
            PlansStep self.now log.old log.new outcome sends.new
            (λ S. call_effect (inside_of self.now.inside) self.now.pid.0 call.now (me_of self.now)
            S) (λ S. call_objects (inside_of self.now.inside) call.now self.now.pid.0
            (me_of self.now) S)) }
        ensures refused { IfErr result (λ why.
            RefusedBy self.now why
            (λ S. call_effect (inside_of self.now.inside) self.now.pid.0 call.now (me_of self.now)
            S) ⊎ IsBadChoice self.now why (chosen_in call.now)) }
        ensures numbers { IfOk result (λ outcome. IsGoodChoice self.now (chosen_in call.now)) }
        ensures err { OnErr result (log.new ≡ log.old) }
    {
        log.reserve(most_changes(call))?;
        let before = log.len();
        let outcome = self.plan_any(alloc, call, log, sends);
        if outcome.is_err() {
            log.truncate(before);
        }
        outcome
    }

    /// Plans the delivery of a pending signal, as `plan_call` does a call.
    ///
    /// Refuses with NotDeliverable, Deferred and FramesFull, as its rule does, and with NoMemory.
    /// What that leaves is as of `plan_call`.
    pub fn plan_delivery(
        &self,
        alloc: Global,
        signo: Signo,
        log: &mut Log,
        sends: &mut Sends,
    ) -> Result<Outcome, Refusal>
        requires { IsActor self.now }
        ensures ok { IfOk result (λ outcome.
            PlansStep self.now log.old log.new outcome sends.new
            (effect_by self.now (delivery signo.0))
            (names_by self.now (delivery_page signo.0).names)) }
        ensures refused { IfErr result (λ why.
            RefusedBy self.now why (effect_by self.now (delivery signo.0))) }
        ensures err { OnErr result (log.new ≡ log.old) }
    {
        let before = log.len();
        let outcome = self.plan_delivered(alloc, signo, log, sends);
        if outcome.is_err() {
            log.truncate(before);
        }
        outcome
    }

    /// Plans a delivery, with its post. A refusal may leave more in the log.
    fn plan_delivered(
        &self,
        alloc: Global,
        signo: Signo,
        log: &mut Log,
        sends: &mut Sends,
    ) -> Result<Outcome, Refusal>
        requires { IsActor self.now }
        ensures ok { IfOk result (λ outcome.
            PlansStep self.now log.old log.new outcome sends.new
            (effect_by self.now (delivery signo.0))
            (names_by self.now (delivery_page signo.0).names)) }
        ensures refused { IfErr result (λ why.
            RefusedBy self.now why (effect_by self.now (delivery signo.0))) }
        ensures log { OnErr result (Extends log.old log.new) }
    {
        let planned = self.plan_taken(alloc, signo, log)?;
        self.push_sends(&planned, log)?;
        Ok(planned.put_sends(sends))
    }
}

/// How many changes a call that makes more than four may make: their room is taken at once. A call
/// that may wait takes its room when that is decided, and so does one whose changes are counted
/// first.
fn most_changes(call: &Call) -> usize {
    match call {
        Call::Pipe(_, _, _) => 8,
        Call::Dup2(_, _) => 5,
        Call::Sigaction(_, _) => QUEUED + 3,
        Call::Sigreturn => SLOTS + 3,
        _ => 0,
    }
}
