//! The step that commits a transaction.
ghost use Rattle.std.specs.Prelude.{◌≡◌, IfOk, OnErr, OnOk, IsSome, Some};
ghost use Rattle.tx_base.specs.Slots.{slot_at};
ghost use Rattle.tx_base.specs.declared.steps.Reply.TheVariants.{Committed};
ghost use Rattle.tx_kernel.specs.Actors.{IsWhole};
ghost use Rattle.tx_kernel.specs.Acts.{event_of};
ghost use Rattle.tx_laws.specs.Fits.{Fits};
ghost use Rattle.tx_laws.specs.TwoStates.{made};
ghost use Rattle.tx_content.specs.Commits.{AreAnswered, MakesLast, missed_of};
ghost use Rattle.tx_content.specs.Content.{content_of, now_of, view_of, IsShaped};
ghost use Rattle.tx_content.specs.HeldPosts.{HaveSignals, IsEnd};
ghost use Rattle.tx_content.specs.Insides.{inside_in};
ghost use Rattle.tx_content.specs.Made.{IsMade, IsRunning, IsUnowned};
ghost use Rattle.tx_model.specs.Events.{Commit, reply_of};
ghost use Rattle.tx_model.specs.Membership.{Commits};
ghost use Rattle.tx_txn.specs.Content.{IsKept};

use crate::content::Content;
use crate::held_posts::post_held;
use crate::inside::{hands_out, make_in};
use crate::inverse::Inverse;
use crate::laws::laws;
use std::alloc::Global;
use tx_base::{Mark, NoMemory, Pid, Slots};
use tx_change::Parts;
use tx_kernel::{Act, Planned};
use tx_txn::Txn;

impl Content {
    /// Makes the act of the last member whose part is open, which ends that part, and commits the
    /// starter's transaction: what it held is posted, in order, and what it owned is nobody's. Puts
    /// the inverse into its place; its outbox says how each post was answered. If the step's own
    /// signals are delivered, the reply lists those of the outbox that could not be.
    ///
    /// NoMemory where the plan refuses, or where there is no room for what the step hands out; the
    /// content is then as it was.
    pub fn commit(
        &mut self,
        alloc: Global,
        pid: Pid,
        starter: Pid,
        act: &Act,
        inverse: &mut Inverse,
    ) -> Result<(), NoMemory>
        requires shaped { IsShaped self.old }
        requires kept { IsKept (content_of self.old) }
        requires whole { IsWhole self.old.parts }
        requires running { IsRunning (slot_at self.old.parts.procs pid.0) }
        requires live { IsSome (slot_at self.old.txns starter.0) }
        requires unowned { IsUnowned self.old (Some starter.0)
            (event_of (inside_in self.old starter) pid act.now) }
        requires end { IsEnd (event_of (inside_in self.old starter) pid act.now) (now_of self.old) }
        requires signals { HaveSignals
            ((made (event_of (inside_in self.old starter) pid act.now) (now_of self.old)
            (now_of self.old)).held starter.0) }
        ensures made { OnOk result
            (Fits (Commits starter.0) (event_of (inside_in self.old starter) pid act.now) pid.0
            (view_of self.old) →
            IsMade self.old (Commits starter.0)
            (Commit starter.0 (event_of (inside_in self.old starter) pid act.now)) pid.0
            self.new inverse.new) }
        ensures answer { OnOk result
            (AreAnswered (event_of (inside_in self.old starter) pid act.now) (now_of self.old) →
            reply_of (Commit starter.0 (event_of (inside_in self.old starter) pid act.now))
            (now_of self.old) ≡ Committed (record { items = missed_of inverse.new })) }
        ensures err { OnErr result (self.new ≡ self.old) }
    {
        laws();
        let mut boxed = self.txns.take(starter).unwrap();
        let made = make_last(
            alloc,
            &mut self.parts,
            &self.marks,
            pid,
            act,
            &mut boxed.txn,
        );
        let Ok(Last { planned, count }) = made else {
            self.txns.put(starter, boxed);
            return Err(NoMemory);
        };
        post_held(&mut self.parts, &mut self.txns, &mut boxed.txn.outbox);
        boxed.txn.end(&mut self.marks, &mut self.owners);
        self.owners.sized();
        let held = hands_out(&planned.sends);
        self.put_inverse(inverse, Inverse::Committed { boxed, count, held });
        Ok(())
    }
}

/// What the last step of a transaction came to.
#[derive(Clone, Copy)]
struct Last {
    planned: Planned,
    /// How many old parts of the log are its own.
    count: usize,
}

/// Makes the act of the last member.
///
/// NoMemory where `make_in` refuses; all is then as it was.
fn make_last(
    alloc: Global,
    parts: &mut Parts,
    marks: &Slots<Mark>,
    pid: Pid,
    act: &Act,
    txn: &mut Txn,
) -> Result<Last, NoMemory>
    requires whole { IsWhole parts.old }
    requires running { IsRunning (slot_at parts.old.procs pid.0) }
    ensures made { IfOk result (λ last.
        MakesLast parts.old parts.new marks.now pid act.now txn.old txn.new last) }
    ensures parts { OnErr result (parts.new ≡ parts.old) }
    ensures txn { OnErr result (txn.new ≡ txn.old) }
{
    let from = txn.log.len();
    let Ok(planned) = make_in(alloc, parts, marks, pid, act, txn) else {
        return Err(NoMemory);
    };
    let count = txn.log.len() - from;
    Ok(Last { planned, count })
}
