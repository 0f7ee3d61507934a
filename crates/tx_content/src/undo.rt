//! The undo of a step, by its inverse.
ghost use Rattle.std.specs.Prelude.{◌≡◌, ◌≤◌, ◌&&◌, not, length, Some, None, if◌then◌else◌};
ghost use Rattle.tx_change.specs.Exchange.{applied, undone, AreNamed};
ghost use Rattle.tx_content.specs.Aborts.{forth_parts, forth_txn};
ghost use Rattle.tx_content.specs.Inverses.{before_outside, first_of, last_of, less_last, remarked, step_back, GoesWith, HasMark, Undoes};
ghost use Rattle.tx_content.specs.Redone.{mark_there};
ghost use Rattle.tx_content.specs.declared.content.Content.{Content};
ghost use Rattle.tx_content.specs.declared.inverse.Inverse.TheVariants.{Aborted, Begun, Committed, Inside, Outside};
ghost use Rattle.tx_model.specs.State.{Object};
ghost use Rattle.tx_reserve.specs.Objects.{is_in};
ghost use Rattle.tx_reserve.specs.Reservations.{owner_of};

use crate::aborts::stand;
use crate::content::{BoxedTxn, Content};
use crate::crossing::Crossing;
use crate::held_posts::take_posts;
use crate::inverse::Inverse;
use crate::kept_posts::KeptPost;
use crate::laws::laws;
use crate::marking::Marked;
use crate::member_step::MemberStep;
use tx_base::{Mark, Pid, Slots};
use tx_change::{Log, Parts};
use tx_proc::Answer;
use tx_reserve::Reservations;
use tx_txn::Txn;

impl Content {
    /// Takes back the step with this inverse, on the content as that step left it. It takes no
    /// memory and is never refused.
    pub fn undo(&mut self, inverse: Inverse)
        requires { GoesWith self.old inverse }
        ensures { (before : Content) → Undoes self.old inverse before → self.new ≡ before }
    {
        match inverse {
            Inverse::Outside { log, post } => self.undo_outside(log, post),
            Inverse::Inside { step, held } => self.undo_inside(&step, held),
            Inverse::Begun { starter } => self.undo_begun(starter),
            Inverse::Committed { boxed, count, held } => self.undo_committed(boxed, count, held),
            Inverse::Aborted { boxed, stood } => self.undo_aborted(boxed, stood),
        }
    }

    /// Takes back a step outside transactions.
    fn undo_outside(&mut self, log: Log, post: Option<KeptPost>)
        requires { GoesWith self.old (Outside log post) }
        ensures { self.new ≡ before_outside self.old log post }
    {
        let mut left = Crossing::blank();
        self.take_back_outside(log, post, &mut left);
    }

    /// Takes back a step inside the starter's transaction.
    fn undo_inside(&mut self, step: &MemberStep, held: bool)
        requires { GoesWith self.old (Inside step.now held) }
        ensures { (prior : Content) → Undoes self.old (Inside step.now held) prior →
            self.new ≡ prior }
    {
        laws();
        let boxed = self.txns.value_mut(step.starter);
        take_step(
            &mut boxed.txn,
            &mut self.parts,
            &mut self.owners,
            step,
            held,
        );
        let _left = put_mark(&mut self.marks, step.marked);
    }

    /// Takes back the first step of the starter's transaction, and drops the transaction.
    fn undo_begun(&mut self, starter: Pid)
        requires { GoesWith self.old (Begun starter) }
        ensures { (prior : Content) → Undoes self.old (Begun starter) prior → self.new ≡ prior }
    {
        let mut left = Crossing::blank();
        self.take_back_begun(starter, &mut left);
    }

    /// Takes back the commit of this transaction.
    fn undo_committed(&mut self, boxed: BoxedTxn, count: usize, held: bool)
        requires { GoesWith self.old (Committed boxed count held) }
        ensures { (prior : Content) → Undoes self.old (Committed boxed count held) prior →
            self.new ≡ prior }
    {
        laws();
        let mut boxed = boxed;
        let starter = boxed.txn.starter;
        take_posts(&mut self.parts, &mut self.txns, &mut boxed.txn.outbox);
        take_last(&mut boxed.txn, &mut self.parts, count, held);
        boxed.txn.revive(&mut self.marks, &mut self.owners);
        self.owners.sized();
        self.txns.put(starter, boxed);
    }

    /// Takes back the abort of this transaction.
    pub(crate) fn undo_aborted(&mut self, boxed: BoxedTxn, stood: Answer)
        requires { GoesWith self.old (Aborted boxed stood) }
        ensures { (prior : Content) → Undoes self.old (Aborted boxed stood) prior →
            self.new ≡ prior }
    {
        laws();
        let mut boxed = boxed;
        let starter = boxed.txn.starter;
        lead_on(&mut boxed.txn, &mut self.parts, stood);
        boxed.txn.revive(&mut self.marks, &mut self.owners);
        self.owners.sized();
        self.txns.put(starter, boxed);
    }
}

/// Takes back the last step of a member: its changes, any signal that it handed out, and what it
/// was first to reserve.
fn take_step(
    txn: &mut Txn,
    parts: &mut Parts,
    owners: &mut Reservations,
    step: &MemberStep,
    held: bool,
)
    requires few { step.now.count ≤ length txn.old.log }
    requires named { AreNamed parts.old txn.old.log }
    ensures parts { parts.new ≡ undone parts.old (last_of step.now.count txn.old.log) }
    ensures owners { (o : Object) →
        owner_of owners.new o
        ≡ (if is_in txn.old.objects o && not (is_in step.now.objects o)
        then None else owner_of owners.old o) }
    ensures sized { length owners.new ≡ 352 }
    ensures txn { txn.new ≡ step_back step.now held txn.old }
{
    take_last(txn, parts, step.count, held);
    txn.give_up(owners, step.objects);
    owners.sized();
}

/// Takes back the last step of a transaction: this many of the log's last changes, and any signal
/// that it handed out.
fn take_last(txn: &mut Txn, parts: &mut Parts, count: usize, held: bool)
    requires few { count ≤ length txn.old.log }
    requires named { AreNamed parts.old txn.old.log }
    ensures parts { parts.new ≡ undone parts.old (last_of count txn.old.log) }
    ensures txn { txn.new ≡ record txn.old {
      log = first_of count txn.old.log;
      outbox = less_last held txn.old.outbox;
    } }
{
    txn.log.give_back(parts, count);
    if held {
        let _sending = txn.outbox.forget_last();
    }
}

/// Puts back a mark that a step changed, if it changed one. Answers the mark that was there.
pub(crate) fn put_mark(marks: &mut Slots<Mark>, marked: Option<Marked>) -> Option<Marked>
    requires { HasMark marks.old marked }
    ensures marks { marks.new ≡ remarked marked marks.old }
    ensures there { result ≡ mark_there marked marks.old }
{
    let Marked { pid, mut mark } = marked?;
    marks.swap(pid, &mut mark);
    Some(Marked { pid, mark })
}

/// Makes again all that an abort led back: its starter is as it was, and all changes of its log are
/// made.
fn lead_on(txn: &mut Txn, parts: &mut Parts, stood: Answer)
    requires low { 1 ≤ txn.old.starter.0 }
    requires high { txn.old.starter.0 ≤ length parts.old.procs }
    requires named { AreNamed parts.old txn.old.log }
    ensures parts { parts.new ≡ applied (forth_parts parts.old txn.old stood) txn.old.log }
    ensures txn { txn.new ≡ forth_txn parts.old txn.old stood }
{
    stand(parts, txn.starter, stood);
    txn.lead_forward(parts);
}
