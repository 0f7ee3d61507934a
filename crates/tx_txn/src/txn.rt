//! A live transaction.
ghost use Rattle.std.specs.Prelude.{◌≡◌, ◌≤◌, ◌&&◌, ◌||◌, ℕ, true, false, not, if◌then◌else◌, Some, None, [], IfSome, IsSomeAnd, IsTrue, length, map};
ghost use Rattle.tx_base.specs.Slots.{slot_at};
ghost use Rattle.tx_change.specs.Exchange.{AreNamed, applied, exchanged, reverted, undone};
ghost use Rattle.tx_kernel.specs.Actors.{transaction_of};
ghost use Rattle.tx_model.specs.Book.{member_sends};
ghost use Rattle.tx_proc.specs.Parts.{pending_in};
ghost use Rattle.tx_model.specs.Membership.{is_of, mark_unless_of};
ghost use Rattle.tx_model.specs.State.{Object, Proc};
ghost use Rattle.tx_reserve.specs.Objects.{is_in};
ghost use Rattle.tx_reserve.specs.Reservations.{owner_of};
ghost use Rattle.tx_txn.specs.Marks.{IsCovered, ended_of, mark_of};
ghost use Rattle.tx_txn.specs.Logs.{with_pending_at};
ghost use Rattle.tx_txn.specs.Txns.{inside_at, none_held, Owns};
ghost use Rattle.tx_kernel.specs.Plans.{sending_of};

use crate::kept::Kept;
use crate::members::Members;
use crate::outbox::Outbox;
use std::alloc::Global;
use tx_base::{Mark, Pid, Slots};
use tx_change::{Log, Parts, appended};
use tx_kernel::Inside;
use tx_proc::Proc as Process;
use tx_reserve::{Objects, Reservations};

/// A live transaction: what leads back to where it began, and what it holds until it commits.
pub struct Txn {
    /// The process that began it, whose number names it.
    pub starter: Pid,
    /// Whether it defers deliveries to its members.
    pub defers: bool,
    /// What is kept of the starter.
    pub kept: Kept,
    /// The old parts of all that its members' steps changed, the oldest first.
    pub log: Log,
    /// What its members sent to others.
    pub outbox: Outbox,
    /// What its members' steps reserved.
    pub objects: Objects,
    /// Who its members were, if it has ended.
    pub members: Option<Members>,
}

// Not derived: that would be proved again wherever one is dropped.
impl Drop for Txn {
    fn drop(self) {
        let Txn {
            starter: _starter,
            defers: _defers,
            kept: _kept,
            log: _log,
            outbox: _outbox,
            objects: _objects,
            members: _members,
        } = self;
    }
}

impl Txn {
    /// A transaction that the process begins, with the old parts of its first step. It
    /// takes no memory.
    pub fn begin(alloc: Global, starter: Pid, defers: bool, proc: &Process, log: Log) -> Txn
        ensures starter { result.starter ≡ starter }
        ensures defers { result.defers ≡ defers }
        ensures ids { result.kept.ids ≡ proc.now.cred }
        ensures pending { result.kept.pending ≡ proc.now.pending }
        ensures log { result.log ≡ log }
        ensures outbox { result.outbox ≡ none_held }
        ensures objects { (o : Object) → is_in result.objects o ≡ false }
        ensures members { result.members ≡ None }
    {
        Txn {
            starter,
            defers,
            kept: Kept::of(proc),
            log,
            outbox: Outbox::new(alloc),
            objects: Objects::new(),
            members: None,
        }
    }

    /// Makes this one a transaction that the process begins, with no old parts. It takes no memory,
    /// and keeps the room of the log and of what was held.
    pub fn begin_again(&mut self, starter: Pid, defers: bool, proc: &Process)
        ensures starter { self.new.starter ≡ starter }
        ensures defers { self.new.defers ≡ defers }
        ensures ids { self.new.kept.ids ≡ proc.now.cred }
        ensures pending { self.new.kept.pending ≡ proc.now.pending }
        ensures log { self.new.log ≡ [] }
        ensures outbox { self.new.outbox ≡ none_held }
        ensures objects { (o : Object) → is_in self.new.objects o ≡ false }
        ensures members { self.new.members ≡ None }
    {
        self.clear();
        self.starter = starter;
        self.defers = defers;
        self.kept.keep(proc);
        self.objects = Objects::new();
        self.members = None;
    }

    /// Drops all that it owns, but keeps its room.
    pub fn clear(&mut self)
        ensures log { self.new.log ≡ [] }
        ensures outbox { self.new.outbox ≡ none_held }
    {
        self.log.truncate(0);
        self.outbox.clear();
    }

    /// Reserves what a step of a member names. Answers what was reserved before, which the owners
    /// must have as the starter's. Most often that is all that the step names, and there is nothing
    /// to do.
    pub fn reserve(&mut self, owners: &mut Reservations, objects: &Objects) -> Objects
        requires { Owns self.old.starter.0 owners.old self.old.objects }
        ensures before { result ≡ self.old.objects }
        ensures owners { (o : Object) →
            owner_of owners.new o
            ≡ (if is_in objects.now o then Some self.old.starter.0 else owner_of owners.old o) }
        ensures objects { (o : Object) →
            is_in self.new.objects o ≡ (is_in self.old.objects o || is_in objects.now o) }
        ensures rest { self.new ≡ record self.old { objects = self.new.objects } }
    {
        let before = self.objects;
        let fresh = objects.less(&before);
        if !fresh.is_empty() {
            let _taken = owners.take(self.starter, &fresh);
            self.objects = before.join(&fresh);
        }
        before
    }

    /// Gives up what was reserved since. Most often that is nothing.
    pub fn give_up(&mut self, owners: &mut Reservations, before: Objects)
        ensures owners { (o : Object) →
            owner_of owners.new o
            ≡ (if is_in self.old.objects o && not (is_in before o) then None
            else owner_of owners.old o) }
        ensures rest { self.new ≡ record self.old { objects = before } }
    {
        let since = self.objects.less(&before);
        if !since.is_empty() {
            owners.release(&since);
        }
        self.objects = before;
    }

    /// Reserves what was given up: these objects are its own then. Answers what was reserved
    /// before.
    pub fn take_again(&mut self, owners: &mut Reservations, objects: Objects) -> Objects
        ensures before { result ≡ self.old.objects }
        ensures owners { (o : Object) →
            owner_of owners.new o
            ≡ (if is_in objects o then Some self.old.starter.0 else owner_of owners.old o) }
        ensures rest { self.new ≡ record self.old { objects = objects } }
    {
        let before = self.objects;
        let _fresh = owners.take(self.starter, &objects);
        self.objects = objects;
        before
    }

    /// Ends the transaction, whose members are among its objects: its marks are taken out, and what
    /// it reserved is nobody's. It takes no memory, and goes only over its objects.
    pub fn end(&mut self, marks: &mut Slots<Mark>, owners: &mut Reservations)
        requires { IsCovered self.old.starter.0 marks.old self.old.objects }
        ensures marks { (n : ℕ) →
            slot_at marks.new n ≡ mark_unless_of self.old.starter.0 (slot_at marks.old n) }
        ensures length { length marks.new ≡ length marks.old }
        ensures owners { (o : Object) →
            owner_of owners.new o
            ≡ (if is_in self.old.objects o then None else owner_of owners.old o) }
        ensures joined { IsSomeAnd self.new.members (λ members.
            (n : ℕ) → is_in members.joined (Proc n)
            ≡ is_of self.old.starter.0 (slot_at marks.old n)) }
        ensures ended { IsSomeAnd self.new.members (λ members.
            (n : ℕ) → is_in members.ended (Proc n)
            ≡ ended_of self.old.starter.0 (slot_at marks.old n)) }
        ensures rest { self.new ≡ record self.old { members = self.new.members } }
    {
        self.members = Some(Members::take(marks, self.starter, &self.objects));
        owners.release(&self.objects);
    }

    /// Takes back the end: the marks of its members are put back, and what it reserved is its own.
    pub fn revive(&mut self, marks: &mut Slots<Mark>, owners: &mut Reservations)
        requires { IfSome self.old.members (λ members.
            (n : ℕ) → is_in members.joined (Proc n) ≡ true → n ≤ length marks.old) }
        ensures marks { IfSome self.old.members (λ members.
            (n : ℕ) → slot_at marks.new n
            ≡ (if is_in members.joined (Proc n)
            then Some (mark_of self.old.starter members n self.old.defers)
            else slot_at marks.old n)) }
        ensures length { length marks.new ≡ length marks.old }
        ensures owners { (o : Object) →
            owner_of owners.new o
            ≡ (if is_in self.old.objects o then Some self.old.starter.0
            else owner_of owners.old o) }
        ensures rest { self.new ≡ record self.old { members = None } }
    {
        if let Some(members) = self.members.take() {
            members.put_back(marks, self.starter, self.defers);
        }
        let _fresh = owners.take(self.starter, &self.objects);
    }

    /// Leads the transaction back: all parts that its log names are as they were when it began, and
    /// what is pending at the starter is what was kept. The log then has what was there, and what
    /// is kept is the pending signals that the log led to. It takes no memory.
    pub fn lead_back(&mut self, parts: &mut Parts)
        requires low { 1 ≤ self.old.starter.0 }
        requires high { self.old.starter.0 ≤ length parts.old.procs }
        requires named { AreNamed parts.old self.old.log }
        ensures parts { parts.new
            ≡ with_pending_at self.old.starter.0 self.old.kept.pending
            (undone parts.old self.old.log) }
        ensures txn { self.new ≡ record self.old {
          kept = record self.old.kept {
            pending = pending_in
                (slot_at (undone parts.old self.old.log).procs self.old.starter.0)
                self.old.kept.pending;
          };
          log = reverted parts.old self.old.log;
        } }
    {
        appended();
        self.log.lead_back(parts);
        // What is pending is large to exchange, and most often there is nothing.
        if !self.has_none_pending(parts) {
            parts
                .procs
                .swap_pending(self.starter, &mut self.kept.pending);
        }
    }

    /// Whether nothing was pending at the starter when it began, and nothing is now: exchanging
    /// these changes nothing.
    fn has_none_pending(&self, parts: &Parts) -> bool
        ensures { IsTrue result →
            pending_in (slot_at parts.now.procs self.now.starter.0) self.now.kept.pending
            ≡ self.now.kept.pending }
    {
        if !self.kept.pending.is_empty() {
            return false;
        }
        match parts.proc(self.starter) {
            Some(proc) => proc.pending.is_empty(),
            None => true,
        }
    }

    /// Makes again all that was led back.
    pub fn lead_forward(&mut self, parts: &mut Parts)
        requires low { 1 ≤ self.old.starter.0 }
        requires high { self.old.starter.0 ≤ length parts.old.procs }
        requires named { AreNamed parts.old self.old.log }
        ensures parts { parts.new
            ≡ applied (with_pending_at self.old.starter.0 self.old.kept.pending parts.old)
            self.old.log }
        ensures txn { self.new ≡ record self.old {
          kept = record self.old.kept {
            pending = pending_in
                (slot_at parts.old.procs self.old.starter.0) self.old.kept.pending;
          };
          log = exchanged (with_pending_at self.old.starter.0 self.old.kept.pending parts.old)
              self.old.log;
        } }
    {
        parts
            .procs
            .swap_pending(self.starter, &mut self.kept.pending);
        self.log.lead_forward(parts);
    }

    /// What a step is made inside, for the calls of a member.
    pub fn inside<'a>(&self, marks: &'a Slots<Mark>) -> Inside<'a>
        ensures transaction { transaction_of result ≡ inside_at self.now marks.now }
        ensures held { result.held ≡ member_sends (map sending_of self.now.outbox.sendings) }
    {
        Inside {
            starter: self.starter,
            marks,
            held: self.outbox.sent_by_members(),
            defers: self.defers,
        }
    }
}
