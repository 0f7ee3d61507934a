//! Steps inside a transaction.
ghost use Rattle.std.specs.Prelude.{◌≡◌, ◌++◌, ◌-◌, true, length, Some, IfErr, IfOk, OnErr, OnOk, IsSome};
ghost use Rattle.tx_base.specs.Slots.{slot_at};
ghost use Rattle.tx_kernel.specs.Actors.{IsWhole};
ghost use Rattle.tx_content.specs.Content.{content_of, view_of, IsShaped};
ghost use Rattle.tx_content.specs.Insides.{event_inside, handed_out, is_handed_out, unmade_of, IsFootprint, IsFree, MakesIn, RefusesIn};
ghost use Rattle.tx_content.specs.Made.{Answers, IsMade, IsRunning, RefusesStep};
ghost use Rattle.tx_content.specs.Progresses.{role_of, HasChild};
ghost use Rattle.tx_laws.specs.Fits.{Fits};
ghost use Rattle.tx_txn.specs.Content.{IsKept};

use crate::content::Content;
use crate::inverse::Inverse;
use crate::laws::laws;
use crate::marking::{Member, mark_progress};
use crate::member_step::MemberStep;
use crate::planning::{Runner, plan};
use std::alloc::Global;
use tx_base::{Mark, NoMemory, Pid, Refusal, Slots};
use tx_change::Parts;
use tx_kernel::{Act, Outcome, Planned, Sends};
use tx_reserve::Objects;
use tx_txn::{Outbox, Txn};

impl Content {
    /// Makes the act of a member that runs, in its transaction, which is live after it. The
    /// footprint is that of the step, and no other transaction owns any of it. Answers its outcome,
    /// and puts its inverse into its place.
    ///
    /// Refuses as its plan does, and with NoMemory if there is no room for what it hands out; the
    /// content is then as it was.
    pub fn make_inside(
        &mut self,
        alloc: Global,
        member: Member,
        act: &Act,
        footprint: &Objects,
        inverse: &mut Inverse,
    ) -> Result<Outcome, Refusal>
        requires shaped { IsShaped self.old }
        requires kept { IsKept (content_of self.old) }
        requires whole { IsWhole self.old.parts }
        requires running { IsRunning (slot_at self.old.parts.procs member.pid.0) }
        requires live { IsSome (slot_at self.old.txns member.starter.0) }
        requires child { HasChild (length self.old.marks) member.progress }
        requires footprint { IsFootprint self.old (event_inside self.old member act.now)
            footprint.now }
        requires free { IsFree self.old member.starter.0 footprint.now }
        ensures made { OnOk result
            (Fits (role_of member) (event_inside self.old member act.now) member.pid.0
            (view_of self.old) →
            IsMade self.old (role_of member) (event_inside self.old member act.now) member.pid.0
            self.new inverse.new) }
        ensures answer { IfOk result (λ outcome.
            Answers self.old (event_inside self.old member act.now) member.pid self.new outcome) }
        ensures refused { IfErr result
            (RefusesStep self.old (event_inside self.old member act.now)) }
        ensures err { OnErr result (self.new ≡ self.old) }
    {
        laws();
        let Member { pid, starter, .. } = member;
        let boxed = self.txns.value_mut(starter);
        let txn = &mut *boxed.txn;
        let from = txn.log.len();
        let planned = make_in(alloc, &mut self.parts, &self.marks, pid, act, txn)?;
        let count = txn.log.len() - from;
        let objects = txn.reserve(&mut self.owners, footprint);
        self.owners.sized();
        let marked = mark_progress(&mut self.marks, member);
        let held = hands_out(&planned.sends);
        let step = MemberStep {
            starter,
            count,
            objects,
            marked,
        };
        self.put_inverse(inverse, Inverse::Inside { step, held });
        Ok(planned.outcome)
    }
}

/// Makes the act of a member: its exchanges are in the log then, and what it hands out is held.
///
/// Refuses as the plan does, and with NoMemory if there is no room for what it hands out; all is
/// then as it was.
pub(crate) fn make_in(
    alloc: Global,
    parts: &mut Parts,
    marks: &Slots<Mark>,
    pid: Pid,
    act: &Act,
    txn: &mut Txn,
) -> Result<Planned, Refusal>
    requires whole { IsWhole parts.old }
    requires running { IsRunning (slot_at parts.old.procs pid.0) }
    ensures made { IfOk result (λ planned.
        MakesIn parts.old parts.new marks.now pid act.now txn.old txn.new planned) }
    ensures refused { IfErr result (RefusesIn parts.old marks.now pid act.now txn.old) }
    ensures parts { OnErr result (parts.new ≡ parts.old) }
    ensures txn { OnErr result (txn.new ≡ txn.old) }
{
    let inside = txn.inside(marks);
    txn.log.settle()?;
    let from = txn.log.len();
    let runner = Runner {
        pid,
        inside: Some(inside),
    };
    let mut sends = Sends::Nothing;
    let outcome = plan(alloc, parts, runner, act, &mut txn.log, &mut sends)?;
    let Ok(()) = hold_sends(&mut txn.outbox, &sends) else {
        txn.log.truncate(from);
        return Err(Refusal::NoMemory);
    };
    txn.log.make_from(parts, from);
    Ok(Planned { outcome, sends })
}

/// Holds what a step hands out. If memory is refused, the outbox is as it was.
fn hold_sends(outbox: &mut Outbox, sends: &Sends) -> Result<(), NoMemory>
    ensures sendings { OnOk result
        (outbox.new.sendings ≡ outbox.old.sendings ++ handed_out sends.now) }
    ensures posts { OnOk result (outbox.new.posts ≡ outbox.old.posts ++ unmade_of sends.now) }
    ensures err { OnErr result (outbox.new ≡ outbox.old) }
{
    match sends {
        Sends::Nothing => Ok(()),
        Sends::AtOnce(_) => Ok(()),
        Sends::AtCommit(sending) => outbox.hold(*sending),
    }
}

/// Whether a step hands out a signal.
pub(crate) fn hands_out(sends: &Sends) -> bool
    ensures { result ≡ is_handed_out sends.now }
{
    match sends {
        Sends::Nothing => false,
        Sends::AtOnce(_) => false,
        Sends::AtCommit(_) => true,
    }
}
