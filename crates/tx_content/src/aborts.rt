//! The abort of a transaction.
ghost use Rattle.std.specs.Prelude.{◌≡◌, ◌≤◌, ℕ, length, IsSome};
ghost use Rattle.tx_base.specs.Slots.{slot_at};
ghost use Rattle.tx_change.specs.Exchange.{parts_after, AreNamed};
ghost use Rattle.tx_content.specs.Aborts.{standing, standing_at, IsLedBack};
ghost use Rattle.tx_content.specs.Content.{content_of, IsShaped};
ghost use Rattle.tx_content.specs.Made.{IsMade};
ghost use Rattle.tx_model.specs.Events.{Note};
ghost use Rattle.tx_model.specs.Membership.{Aborts};
ghost use Rattle.tx_txn.specs.Content.{IsKept};

use crate::content::Content;
use crate::inverse::Inverse;
use crate::laws::laws;
use tx_base::Pid;
use tx_change::{Change, Parts};
use tx_proc::{Answer, Part};
use tx_txn::Txn;

impl Content {
    /// Aborts the live transaction of a starter, which is then at the point after its sys_xbegin,
    /// with this answer. Puts the inverse into its place. It takes no memory, and costs what the
    /// transaction changed.
    pub fn abort(&mut self, starter: Pid, ret: i64, inverse: &mut Inverse)
        requires shaped { IsShaped self.old }
        requires kept { IsKept (content_of self.old) }
        requires live { IsSome (slot_at self.old.txns starter.0) }
        ensures { (status process : ℕ) →
            IsMade self.old (Aborts starter.0 status) (Note starter.0 ret) process self.new
            inverse.new }
    {
        laws();
        let mut boxed = self.txns.take(starter).unwrap();
        let stood = take_back(&mut boxed.txn, &mut self.parts, ret);
        boxed.txn.end(&mut self.marks, &mut self.owners);
        self.owners.sized();
        self.put_inverse(inverse, Inverse::Aborted { boxed, stood });
    }
}

/// Leads the transaction back, and gives its starter this answer at the next point. Answers the
/// point and the answer that it had.
fn take_back(txn: &mut Txn, parts: &mut Parts, ret: i64) -> Answer
    requires low { 1 ≤ txn.old.starter.0 }
    requires high { txn.old.starter.0 ≤ length parts.old.procs }
    requires named { AreNamed parts.old txn.old.log }
    ensures { IsLedBack parts.old parts.new ret txn.old txn.new result }
{
    laws();
    txn.lead_back(parts);
    let stood = stands(parts, txn.starter);
    stand(parts, txn.starter, Answer::at(stood.point, ret));
    stood
}

/// The point and the answer of a process; those of the start where there is none.
pub(crate) fn stands(parts: &Parts, pid: Pid) -> Answer
    ensures { result ≡ standing (slot_at parts.now.procs pid.0) }
{
    match parts.proc(pid) {
        Some(proc) => Answer {
            point: proc.regs.point,
            ret: proc.regs.ret,
        },
        None => Answer { point: 0, ret: 0 },
    }
}

/// Gives a process this point and answer. Nothing happens if there is no process.
pub(crate) fn stand(parts: &mut Parts, pid: Pid, answer: Answer)
    requires low { 1 ≤ pid.0 }
    requires high { pid.0 ≤ length parts.old.procs }
    ensures { parts.new ≡ parts_after parts.old (standing_at pid answer) }
{
    Change::Part(pid, Part::Answer(answer)).swap(parts);
}
