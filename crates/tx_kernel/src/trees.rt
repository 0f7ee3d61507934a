//! The calls on children: fork, and the wait for a child that has ended.
ghost use Rattle.std.specs.Prelude.{◌≡◌, ◌≤◌, ◌⊎◌, pos, ◌∷◌, ◌++◌, [], length, option_map, IfOk, IfErr, OnOk, OnErr};
ghost use Rattle.tx_base.specs.declared.steps.Refusal.TheVariants.{NoMemory};
ghost use Rattle.tx_kernel.specs.Actors.{IsActor, effect_by, names_by};
ghost use Rattle.tx_base.specs.Slots.{slot_at};
ghost use Rattle.tx_change.specs.Counts.{desc_changes};
ghost use Rattle.tx_change.specs.Exchange.{IsPid, sizes_of};
ghost use Rattle.tx_kernel.specs.Plans.{Extends, IsBadChoice, IsGoodChoice, Plans, RefusedBy, quiet};
ghost use Rattle.tx_kernel.specs.Trees.{child_at, IsEndedChild};
ghost use Rattle.tx_model.specs.Answer.{ChoosesProcess, is_bad_choice};
ghost use Rattle.tx_model.specs.Book.{exit, fork, waitpid};
ghost use Rattle.tx_model.specs.Forms.{changes};
ghost use Rattle.tx_model.specs.Processes.{child_of, exit_status, pid_of};
ghost use Rattle.tx_model.specs.Words.{exit_objects, fork_objects, waitpid_objects, with_status};
ghost use Rattle.tx_model.specs.State.{Proc as TheProc, SetProc};

use crate::actor::Actor;
use crate::laws::laws;
use crate::planned::{Outcome, Planned};
use std::alloc::Global;
use tx_base::{Errno, NoMemory, Pid, Refusal};
use tx_change::{Change, Log};
use tx_desc::NewDesc;
use tx_proc::{BoxedProc, Part, Register};

/// A child of a process.
#[derive(Clone, Copy)]
pub(crate) struct Child {
    pid: Pid,
    /// None while it runs; else the status that it ended with.
    pub(crate) status: Option<u16>,
}

impl Actor<'_> {
    /// Makes a child of this number, a copy of the process without its pending signals, and answers
    /// the number; the child is answered 0 (POSIX.1-2017, XSH, fork()).
    ///
    /// Refuses with BadNumber where the number is not 1 to the width, with NumberTaken where a
    /// process has it, and with NoMemory. A refusal may leave more in the log.
    pub(crate) fn plan_fork(
        &self,
        alloc: Global,
        child: Pid,
        log: &mut Log,
    ) -> Result<Outcome, Refusal>
        requires { IsActor self.now }
        ensures ok { IfOk result (λ outcome. Plans self.now log.old log.new (quiet outcome)
            (effect_by self.now (fork child.0))
            (names_by self.now (λ c. fork_objects child.0 c.process))) }
        ensures refused { IfErr result (λ why.
            RefusedBy self.now why (effect_by self.now (fork child.0))
            ⊎ IsBadChoice self.now why (ChoosesProcess child.0)) }
        ensures numbers { IfOk result (λ outcome. IsGoodChoice self.now (ChoosesProcess child.0)) }
        ensures log { OnErr result (Extends log.old log.new) }
    {
        if self.is_bad_child(child) {
            return Err(Refusal::BadNumber);
        }
        if !self.parts.procs.free(child) {
            return Err(Refusal::NumberTaken);
        }
        Ok(self.plan_child(alloc, child, log)?)
    }

    /// Whether a child can't have the number: it is not 1 to the width.
    pub(crate) fn is_bad_child(&self, child: Pid) -> bool
        ensures { result ≡ is_bad_choice (length self.now.parts.now.procs)
            (ChoosesProcess child.0) }
    {
        child.0 == 0 || child.0 as usize > self.parts.procs.width()
    }

    /// Plans a child at a free number, the count of its names, and its number as the answer.
    fn plan_child(&self, alloc: Global, child: Pid, log: &mut Log) -> Result<Outcome, NoMemory>
        requires actor { IsActor self.now }
        requires number { IsPid (sizes_of self.now.parts.now) child.0 }
        requires free { slot_at self.now.parts.now.procs child.0 ≡ None }
        ensures ok { IfOk result (λ outcome. Plans self.now log.old log.new (quiet outcome)
            (effect_by self.now (λ c. changes
            (pos child.0) c.process (SetProc child.0 (Some (child_of c.number c.process)) ∷ [])))
            (names_by self.now (λ c. fork_objects child.0 c.process))) }
        ensures err { OnErr result (Extends log.old log.new) }
    {
        laws();
        self.parts.descs.sized();
        let descs = self.parts.descs.plan_raise_all(&self.proc.descriptors);
        let mut boxed = BoxedProc::new(alloc, self.proc.child(self.pid))?;
        boxed.share_pages(self.proc)?;
        log.reserve(descs.len() + 2)?;
        push_descs(descs.as_slice(), log)?;
        log.push(Change::Slot(child, Some(boxed)))?;
        self.push_answer(child.0 as i64, log)?;
        Ok(Outcome::Done(child.0 as i64))
    }

    /// Ends the process with this status modulo 256 (POSIX.1-2017, XSH, _exit()).
    ///
    /// Answers NotPermitted in process 1. Refuses only with NoMemory, which may leave more in the
    /// log.
    pub(crate) fn plan_exit(
        &self,
        alloc: Global,
        status: i64,
        log: &mut Log,
    ) -> Result<Planned, Refusal>
        requires { IsActor self.now }
        ensures ok { IfOk result (λ planned. Plans self.now log.old log.new planned
            (effect_by self.now (exit status))
            (names_by self.now exit_objects)) }
        ensures refused { IfErr result (λ why.
            RefusedBy self.now why (effect_by self.now (exit status))) }
        ensures log { OnErr result (Extends log.old log.new) }
    {
        if self.pid.0 == 1 {
            let outcome = self.plan_failure(Errno::NotPermitted, log)?;
            return Ok(Planned::quiet(outcome));
        }
        self.plan_ending(alloc, exit_status(status), log)
    }

    /// Answers the number of an ended child, which is removed, and keeps its status in slot 0; 0
    /// for one that runs, with `nohang` (POSIX.1-2017, XSH, waitpid()).
    ///
    /// Answers NoChild where the number is not that of a child of the process. Refuses with Wait
    /// where the child runs, without `nohang`, and with NoMemory. A refusal may leave more in the
    /// log.
    pub(crate) fn plan_waitpid(
        &self,
        number: i64,
        nohang: bool,
        log: &mut Log,
    ) -> Result<Outcome, Refusal>
        requires { IsActor self.now }
        ensures ok { IfOk result (λ outcome. Plans self.now log.old log.new (quiet outcome)
            (effect_by self.now (waitpid number nohang))
            (names_by self.now (λ c. waitpid_objects number c.state))) }
        ensures refused { IfErr result (λ why.
            RefusedBy self.now why (effect_by self.now (waitpid number nohang))) }
        ensures log { OnErr result (Extends log.old log.new) }
    {
        let Some(child) = self.child(number) else {
            return self.plan_failure(Errno::NoChild, log);
        };
        match child.status {
            Some(status) => Ok(self.plan_removal(child.pid, status, log)?),
            None if nohang => self.plan_done(0, log),
            None => Err(Refusal::Wait),
        }
    }

    /// The process number that a program computed; none if it is not 1 to the width.
    pub fn numbered(&self, number: i64) -> Option<Pid>
        requires { length self.now.parts.now.procs ≤ 256 }
        ensures { option_map (λ pid. pid.0) result
            ≡ pid_of (length self.now.parts.now.procs) number }
    {
        let width = self.parts.procs.width();
        if number < 1 || number > width as i64 {
            return None;
        }
        Some(Pid(number as u16))
    }

    /// The child of a number that a program computed; none if the number is not a child's.
    pub(crate) fn child(&self, number: i64) -> Option<Child>
        requires { length self.now.parts.now.procs ≤ 256 }
        ensures { result ≡ child_at self.now.pid.0 self.now.parts.now.procs
            (pid_of (length self.now.parts.now.procs) number) }
    {
        let pid = self.numbered(number)?;
        let child = self.parts.procs.get(pid)?;
        if child.parent != self.pid {
            return None;
        }
        Some(Child {
            pid,
            status: child.status,
        })
    }

    /// Plans the removal of a child that has ended with this status, the status in slot 0, and the
    /// child's number as the answer.
    fn plan_removal(&self, child: Pid, status: u16, log: &mut Log) -> Result<Outcome, NoMemory>
        requires actor { IsActor self.now }
        requires ended { IsEndedChild self.now child.0 status }
        ensures ok { IfOk result (λ outcome. Plans self.now log.old log.new (quiet outcome)
            (effect_by self.now (λ c. changes
            (pos child.0) (with_status status c.process) (SetProc child.0 None ∷ []))) (λ S.
            TheProc child.0 ∷ [])) }
        ensures err { OnErr result (Extends log.old log.new) }
    {
        laws();
        self.parts.descs.sized();
        log.push(Change::Slot(child, None))?;
        let slot = Register {
            number: 0,
            value: status as i64,
        };
        self.push(Part::Register(slot), log)?;
        self.push_answer(child.0 as i64, log)?;
        Ok(Outcome::Done(child.0 as i64))
    }
}

/// The status that an exit with this one leaves: its remainder by 256, not negative.
fn exit_status(status: i64) -> u16
    ensures { result ≡ exit_status status }
{
    status.rem_euclid(256) as u16
}

/// Appends the exchanges that put planned descriptions in place.
pub(crate) fn push_descs(news: &[NewDesc], log: &mut Log) -> Result<(), NoMemory>
    ensures ok { OnOk result (log.new ≡ log.old ++ desc_changes news.now) }
    ensures err { OnErr result (Extends log.old log.new) }
{
    for new in news {
        log.push(Change::Description(new.number, new.opened))?;
    }
    Ok(())
}
