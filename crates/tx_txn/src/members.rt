//! The marks of a transaction's members.
ghost use Rattle.std.specs.Prelude.{◌≡◌, ◌≤◌, ℕ, not, true, false, length, if◌then◌else◌, ◌==◌, ◌||◌, Some};
ghost use Rattle.tx_base.specs.Slots.{slot_at};
ghost use Rattle.tx_model.specs.Membership.{is_of, others_open, mark_unless_of};
ghost use Rattle.tx_model.specs.State.{Object as TheObject, Proc};
ghost use Rattle.tx_reserve.specs.Objects.{is_in};
ghost use Rattle.tx_txn.specs.Marks.{IsCovered, ended_of, mark_of, table_at};

use tx_base::{Mark, Pid, Slots};
use tx_reserve::{Object, Objects, is_other_open};

/// Who the members of a transaction were when it ended, and whose part had ended, so that their
/// marks can be put back.
#[derive(Clone, Copy)]
pub struct Members {
    pub joined: Objects,
    pub ended: Objects,
}

impl Members {
    /// No members.
    pub fn none() -> Members
        ensures joined { (o : TheObject) → is_in result.joined o ≡ false }
        ensures ended { (o : TheObject) → is_in result.ended o ≡ false }
    {
        Members {
            joined: Objects::new(),
            ended: Objects::new(),
        }
    }

    /// Takes out the marks of a starter's transaction, whose members are among the objects. It goes
    /// over these objects, not over the table.
    pub fn take(marks: &mut Slots<Mark>, starter: Pid, objects: &Objects) -> Members
        requires { IsCovered starter.0 marks.old objects.now }
        ensures marks { (n : ℕ) →
            slot_at marks.new n ≡ mark_unless_of starter.0 (slot_at marks.old n) }
        ensures length { length marks.new ≡ length marks.old }
        ensures joined { (n : ℕ) →
            is_in result.joined (Proc n) ≡ is_of starter.0 (slot_at marks.old n) }
        ensures ended { (n : ℕ) →
            is_in result.ended (Proc n) ≡ ended_of starter.0 (slot_at marks.old n) }
    {
        let mut members = Members::none();
        let mut rest = *objects;
        while let Some(pid) = rest.pop_proc() {
            members.take_one(marks, starter, pid);
        }
        members
    }

    /// Takes out the mark of a number, if it is one of that starter's transaction.
    fn take_one(&mut self, marks: &mut Slots<Mark>, starter: Pid, pid: Pid)
        requires { pid.0 ≤ 256 }
        ensures marks { (n : ℕ) →
            slot_at marks.new n ≡ (if n == pid.0 then mark_unless_of starter.0 (slot_at marks.old n)
            else slot_at marks.old n) }
        ensures length { length marks.new ≡ length marks.old }
        ensures joined { (n : ℕ) →
            is_in self.new.joined (Proc n)
            ≡ (if n == pid.0 then is_of starter.0 (slot_at marks.old n)
            || is_in self.old.joined (Proc n) else is_in self.old.joined (Proc n)) }
        ensures ended { (n : ℕ) →
            is_in self.new.ended (Proc n)
            ≡ (if n == pid.0 then ended_of starter.0 (slot_at marks.old n)
            || is_in self.old.ended (Proc n) else is_in self.old.ended (Proc n)) }
    {
        let Some(mark) = marks.get(pid).copied() else {
            return;
        };
        if mark.starter != starter {
            return;
        }
        self.joined.insert(Object::Proc(pid));
        if mark.ended {
            self.ended.insert(Object::Proc(pid));
        }
        let _taken = marks.take(pid);
    }

    /// Puts back the marks of a starter's transaction that were taken out. The members' numbers
    /// must be in range.
    pub fn put_back(&self, marks: &mut Slots<Mark>, starter: Pid, defers: bool)
        requires { (n : ℕ) → is_in self.now.joined (Proc n) ≡ true → n ≤ length marks.old }
        ensures marks { (n : ℕ) →
            slot_at marks.new n ≡ (if is_in self.now.joined (Proc n)
            then Some (mark_of starter self.now n defers) else slot_at marks.old n) }
        ensures length { length marks.new ≡ length marks.old }
    {
        let mut rest = self.joined;
        while let Some(pid) = rest.pop_proc() {
            self.put_one(marks, starter, pid, defers);
        }
    }

    /// Puts back the mark of a member.
    fn put_one(&self, marks: &mut Slots<Mark>, starter: Pid, pid: Pid, defers: bool)
        requires low { 1 ≤ pid.0 }
        requires high { pid.0 ≤ length marks.old }
        ensures marks { (n : ℕ) →
            slot_at marks.new n ≡ (if n == pid.0 then Some (mark_of starter self.now pid.0 defers)
            else slot_at marks.old n) }
        ensures length { length marks.new ≡ length marks.old }
    {
        let ended = self.ended.has(Object::Proc(pid));
        let mark = Mark {
            starter,
            ended,
            defers,
        };
        marks.put(pid, mark);
    }
}

/// Whether this member is the last of a starter's transaction whose part is open, or no other's is.
/// All members must be among the objects. It goes over these, not over the table.
pub fn is_last_open(marks: &Slots<Mark>, starter: Pid, pid: Pid, objects: &Objects) -> bool
    requires { IsCovered starter.0 marks.now objects.now }
    ensures { result ≡ not (others_open (table_at marks.now) starter.0 pid.0 (length marks.now)) }
{
    let mut rest = *objects;
    while let Some(other) = rest.pop_proc() {
        if is_other_open(marks, starter, pid, other) {
            return false;
        }
    }
    true
}
