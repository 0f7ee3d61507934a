//! The end of a process, by its exit or by a signal.
ghost use Rattle.std.specs.Prelude.{◌≡◌, ◌≢◌, ◌≤◌, ◌+◌, ◌++◌, length, slice_index_or, None, IfOk, IfErr, OnOk, OnErr};
ghost use Rattle.tx_base.specs.declared.steps.Refusal.TheVariants as refusal;
ghost use Rattle.tx_desc.specs.Plans.{AreNumbers};
ghost use Rattle.tx_kernel.specs.Actors.{IsActor, IsWhole, inside_of, effect_by, names_by};
ghost use Rattle.tx_kernel.specs.Endings.{OnlyRemoves, child_at, gone_changes, gone_at, orphan_changes, pipe_through, plain, plain_with, takes_out};
ghost use Rattle.tx_kernel.specs.Named.{described_by};
ghost use Rattle.tx_kernel.specs.Plans.{Extends, Plans, held_after, sent_at_once};
ghost use Rattle.tx_model.specs.Descriptors.{open_in, pipes_of};
ghost use Rattle.tx_model.specs.Processes.{children_below, ending, ending_objects, parent_notice, notice_now, notice_held};
ghost use Rattle.tx_model.specs.State.{State, with_writes};
ghost use Rattle.tx_model.specs.Forms.{does};

use crate::actor::Actor;
use crate::laws::laws;
use crate::planned::{Outcome, Planned, Sends};
use crate::trees::push_descs;
use std::alloc::Global;
use tx_base::{DESCRIPTORS, NoMemory, Pid, PipeNo, Refusal, SIGCHLD, Sending};
use tx_change::{Change, Log, PipePart};
use tx_desc::{Descs, NewDesc, named_by_processes};
use tx_proc::{BoxedProc, Part};

impl Actor<'_> {
    /// Ends the process with this status: its descriptors are closed, its children get process 1 as
    /// their parent, and its parent is notified (POSIX.1-2017, XSH, _exit()). It must not be
    /// process 1.
    ///
    /// Refuses only with NoMemory, which may leave more in the log.
    pub(crate) fn plan_ending(
        &self,
        alloc: Global,
        status: u16,
        log: &mut Log,
    ) -> Result<Planned, Refusal>
        requires actor { IsActor self.now }
        requires other { self.now.pid.0 ≢ 1 }
        ensures ok { IfOk result (λ planned.
            Plans self.now log.old log.new planned
            (effect_by self.now (λ c. does (ending status c))) (names_by self.now ending_objects)) }
        ensures refused { IfErr result (λ why. why ≡ refusal.NoMemory) }
        ensures log { OnErr result (Extends log.old log.new) }
    {
        laws();
        named_by_processes();
        self.parts.descs.sized();
        let descs = self.parts.descs.plan_drop_all(&self.proc.descriptors);
        let boxed = BoxedProc::new(alloc, self.proc.ended(status))?;
        let children = self.parts.procs.child_count(self.pid);
        log.reserve(children + 2 * DESCRIPTORS + 2)?;
        push_descs(descs.as_slice(), log)?;
        log.push(Change::Slot(self.pid, Some(boxed)))?;
        self.push_orphans(log)?;
        self.push_gone(descs.as_slice(), log)?;
        Ok(Planned {
            outcome: Outcome::Ended,
            sends: self.tells_parent(),
        })
    }

    /// Appends the changes that give the children of the process parent 1.
    fn push_orphans(&self, log: &mut Log) -> Result<(), NoMemory>
        requires few { length self.now.parts.now.procs ≤ 256 }
        requires number { self.now.pid.0 ≤ length self.now.parts.now.procs }
        ensures ok { OnOk result
            (log.new ≡ log.old ++ orphan_changes
            (children_below self.now.pid.0 (length self.now.parts.now.procs + 1)
            (plain self.now.parts.now))) }
        ensures err { OnErr result (Extends log.old log.new) }
    {
        if self.parts.procs.child_count(self.pid) == 0 {
            return Ok(());
        }
        for below in (0..self.parts.procs.width()).rev() {
            self.push_orphan(Pid(below as u16 + 1), log)?;
        }
        Ok(())
    }

    /// Appends the change that gives a process parent 1, if it is a child of the process.
    fn push_orphan(&self, child: Pid, log: &mut Log) -> Result<(), NoMemory>
        ensures ok { OnOk result
            (log.new ≡ log.old ++ orphan_changes
            (child_at self.now.pid.0 child.0 (plain self.now.parts.now))) }
        ensures err { OnErr result (log.new ≡ log.old) }
    {
        match self.parts.procs.parent_of(child) {
            Some(parent) if parent == self.pid => {
                log.push(Change::Part(child, Part::Parent(Pid(1))))
            }
            _ => Ok(()),
        }
    }

    /// Appends the changes that take out the pipes of the process's descriptors that no description
    /// names once these are in place.
    fn push_gone(&self, news: &[NewDesc], log: &mut Log) -> Result<(), NoMemory>
        requires whole { IsWhole self.now.parts.now }
        requires numbers { AreNumbers news.now }
        requires removes { OnlyRemoves news.now self.now.parts.now.descs }
        ensures ok { OnOk result (log.new ≡ log.old ++ gone_changes
            (pipes_of (open_in self.now.proc.now.descriptors) (plain self.now.parts.now))
            (plain_with news.now self.now.parts.now)) }
        ensures err { OnErr result (Extends log.old log.new) }
    {
        if !takes_out(news) {
            return Ok(());
        }
        self.proc.descriptors.sized();
        let after = self.parts.descs.with(news);
        for fd in 0..DESCRIPTORS {
            self.push_gone_at(fd, &after, log)?;
        }
        Ok(())
    }

    /// Appends the change that takes out the pipe of a descriptor, if it has one and none of these
    /// descriptions names it.
    fn push_gone_at(&self, fd: usize, after: &Descs, log: &mut Log) -> Result<(), NoMemory>
        ensures ok { OnOk result (log.new ≡ log.old ++ gone_at
            (pipe_through self.now.parts.now.descs
            (slice_index_or self.now.proc.now.descriptors fd None))
            (described_by self.now.parts.now after.now)) }
        ensures err { OnErr result (log.new ≡ log.old) }
    {
        match self.pipe_of(fd) {
            Some(pipe) if !after.names_pipe(pipe) => {
                log.push(Change::Pipe(pipe, PipePart::Whole(None)))
            }
            _ => Ok(()),
        }
    }

    /// The pipe of the description that a descriptor names; none if it is free.
    fn pipe_of(&self, fd: usize) -> Option<PipeNo>
        ensures { result ≡ pipe_through self.now.parts.now.descs
            (slice_index_or self.now.proc.now.descriptors fd None) }
    {
        let number = self.proc.descriptors.get(fd)?;
        let opened = self.parts.descs.get(number)?;
        Some(opened.desc.pipe)
    }

    /// What the end of the process sends: SIGCHLD to its parent, unless that is process 1. A parent
    /// that is no member of the transaction is notified when that commits. Own rule.
    pub(crate) fn tells_parent(&self) -> Sends
        ensures at_once { notice_now
            (parent_notice (inside_of self.now.inside) self.now.proc.now.parent.0)
            self.now.proc.now.parent.0 ≡ sent_at_once result }
        ensures at_commit { (S : State) →
            with_writes (notice_held
            (parent_notice (inside_of self.now.inside) self.now.proc.now.parent.0)
            self.now.proc.now.parent.0 S) S
            ≡ record S { held = held_after (inside_of self.now.inside) result S.held } }
    {
        let parent = self.proc.parent;
        if parent.0 == 1 {
            return Sends::Nothing;
        }
        let told = Sending {
            target: parent,
            signo: SIGCHLD,
            value: 0,
            from: None,
        };
        let Some(inside) = self.inside else {
            return Sends::AtOnce(told);
        };
        if inside.has_member(parent) {
            Sends::AtOnce(told)
        } else {
            Sends::AtCommit(told)
        }
    }
}

/// Whether one of these descriptions must go.
fn takes_out(news: &[NewDesc]) -> bool
    ensures { result ≡ takes_out news.now }
{
    news.iter().any(|new| new.opened.is_none())
}
