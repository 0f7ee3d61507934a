//! The mark that a step inside a transaction changes.
ghost use Rattle.std.specs.Prelude.{◌≡◌, ℕ, ◌≤◌, length, Some};
ghost use Rattle.tx_base.specs.Slots.{slot_at, with_slot};
ghost use Rattle.tx_content.specs.Inverses.{remarked, HasMark};
ghost use Rattle.tx_content.specs.Progresses.{role_of, HasChild};
ghost use Rattle.tx_model.specs.Membership.{defers_in, marks_after, new_mark, parked_mark};

use tx_base::{Mark, Pid, Slots};

/// What a step inside a transaction does to its members.
#[derive(Clone, Copy)]
pub enum Progress {
    Continues,
    /// The member ends its part.
    Parks,
    /// The child of this number joins.
    Forks(Pid),
}

/// A member that makes a step: its process, the starter of its transaction, and what the step does
/// to the members.
#[derive(Clone, Copy)]
pub struct Member {
    pub pid: Pid,
    pub starter: Pid,
    pub progress: Progress,
}

/// A mark, or none, of a process number.
#[derive(Clone, Copy)]
pub struct Marked {
    pub pid: Pid,
    pub mark: Option<Mark>,
}

/// Changes the mark of such a step. Answers what was there.
pub(crate) fn mark_progress(marks: &mut Slots<Mark>, member: Member) -> Option<Marked>
    requires low { 1 ≤ member.pid.0 }
    requires high { member.pid.0 ≤ length marks.old }
    requires child { HasChild (length marks.old) member.progress }
    ensures marks { (n : ℕ) →
        slot_at marks.new n ≡ marks_after (role_of member) member.pid.0 (slot_at marks.old) n }
    ensures length { length marks.new ≡ length marks.old }
    ensures back { remarked result marks.new ≡ marks.old }
    ensures mark { HasMark marks.new result }
{
    match member.progress {
        Progress::Continues => None,
        Progress::Parks => Some(swap_mark(marks, member.pid, parked(marks, member.pid))),
        Progress::Forks(child) => Some(swap_mark(marks, child, joined(marks, member.starter))),
    }
}

/// Puts this mark at a number. Answers what was there.
#[tactic(auto, using(tx_base::specs::SlotFacts::slot_twice, tx_base::specs::SlotFacts::slot_same))]
fn swap_mark(marks: &mut Slots<Mark>, pid: Pid, mark: Option<Mark>) -> Marked
    requires low { 1 ≤ pid.0 }
    requires high { pid.0 ≤ length marks.old }
    ensures marks { marks.new ≡ with_slot marks.old pid.0 mark }
    ensures pid { result.pid ≡ pid }
    ensures mark { result.mark ≡ slot_at marks.old pid.0 }
    ensures back { with_slot marks.new result.pid.0 result.mark ≡ marks.old }
{
    let mut mark = mark;
    marks.swap(pid, &mut mark);
    Marked { pid, mark }
}

/// The mark of a member whose part has ended.
fn parked(marks: &Slots<Mark>, pid: Pid) -> Option<Mark>
    ensures { result ≡ parked_mark (slot_at marks.now pid.0) }
{
    let mut mark = marks.get(pid).copied()?;
    mark.ended = true;
    Some(mark)
}

/// The mark of a member that joins.
fn joined(marks: &Slots<Mark>, starter: Pid) -> Option<Mark>
    ensures { result ≡ Some (new_mark starter.0 (defers_in (slot_at marks.now starter.0))) }
{
    let defers = match marks.get(starter) {
        Some(mark) => mark.defers,
        None => false,
    };
    Some(Mark {
        starter,
        ended: false,
        defers,
    })
}
