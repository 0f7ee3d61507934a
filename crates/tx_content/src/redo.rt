//! The redo of a step that was taken back, by exchange.
ghost use Rattle.std.specs.Prelude.{◌≡◌, ◌≤◌, ◌++◌, [], List, length, Some, None, is_some, if◌then◌else◌, vec_capacity, IfOk, OnErr, OnOk};
ghost use Rattle.tx_change.specs.Exchange.{applied, exchanged, AreNamed};
ghost use Rattle.tx_change.specs.Stacks.{below_top, top_of};
ghost use Rattle.tx_change.specs.declared.change.Change.{Change};
ghost use Rattle.tx_content.specs.Content.{IsShaped};
ghost use Rattle.tx_content.specs.Crossings.{inverse_at, inverse_of, undone_of, moved_by_turn, moved_over, HoldsBack, HoldsForward, Remakes, Reverses};
ghost use Rattle.tx_content.specs.Inverses.{HasStarter};
ghost use Rattle.tx_content.specs.Redone.{after_outside, post_in, reposted_in, step_again, with_last, GoesAgain, Redoes, TakesBack};
ghost use Rattle.tx_content.specs.declared.content.Content.{Content};
ghost use Rattle.tx_content.specs.declared.crossing.Crossing.TheVariants.{Back, Forward};
ghost use Rattle.tx_content.specs.declared.inverse.Inverse.{Inverse as TheInverse};
ghost use Rattle.tx_content.specs.declared.undone.Undone.TheVariants as taken;
ghost use Rattle.tx_model.specs.State.{Object};
ghost use Rattle.tx_reserve.specs.Objects.{is_in};
ghost use Rattle.tx_reserve.specs.Reservations.{owner_of};
ghost use Rattle.tx_txn.specs.Outboxes.{Held};

use crate::aborts::{stand, stands};
use crate::content::{BoxedTxn, Content};
use crate::crossing::{Crossing, Turn};
use crate::held_posts::post_held;
use crate::inverse::Inverse;
use crate::kept_posts::{KeptPost, TakenPost, remake_post};
use crate::laws::laws;
use crate::member_step::MemberStep;
use crate::table::TxnTable;
use crate::undo::put_mark;
use crate::undone::Undone;
use std::mem;
use tx_base::{Mark, NoMemory, Pid, Sending};
use tx_change::{Change, Log, Parts};
use tx_proc::Answer;
use tx_reserve::{Objects, Reservations};
use tx_txn::{Members, Outbox, Txn};

impl Content {
    /// Makes the step again that this leads forward over, on the content before it, and exchanges
    /// it in place: then it leads back. It plans and judges nothing, and takes the changes of a
    /// step inside off the stack. It takes no memory but room that a step inside had in its
    /// transaction.
    ///
    /// `NoMemory` where that is refused; all is then as it was.
    pub fn redo(&mut self, crossing: &mut Crossing, stack: &mut Vec<Change>) -> Result<(), NoMemory>
        requires { HoldsForward crossing.old
            (λ undone. GoesAgain self.old undone stack.old.items) }
        ensures made { Remakes self.old crossing.old stack.old.items result self.new }
        ensures back { Reverses self.old crossing.old stack.old.items result crossing.new self.new }
        ensures moved { moved_over crossing.new ≡ moved_over crossing.old }
        ensures stack { OnOk result
            (stack.new.items ≡ below_top (moved_over crossing.old) stack.old.items) }
        ensures capacity { vec_capacity stack.new ≡ vec_capacity stack.old }
        ensures err { OnErr result (self.new ≡ self.old) }
        ensures crossing_err { OnErr result (crossing.new ≡ crossing.old) }
        ensures stack_err { OnErr result (stack.new ≡ stack.old) }
    {
        match crossing {
            Crossing::Turn(turn) => self.turn_forward(turn, stack),
            Crossing::Back(_) => Ok(()),
            Crossing::Forward(_) => self.make_again(crossing, stack),
        }
    }

    /// Makes a step again, and exchanges what leads both ways over it.
    ///
    /// NoMemory where a growth is refused; all is then as it was.
    fn turn_forward(&mut self, turn: &mut Turn, stack: &mut Vec<Change>) -> Result<(), NoMemory>
        requires { GoesAgain self.old (undone_of turn.old) stack.old.items }
        ensures made { (after : Content) (inverse : TheInverse) →
            Redoes self.old (undone_of turn.old) stack.old.items after inverse →
            OnOk result (self.new ≡ after) }
        ensures inverse { (after : Content) (inverse : TheInverse) →
            Redoes self.old (undone_of turn.old) stack.old.items after inverse →
            OnOk result (inverse_of turn.new ≡ inverse) }
        ensures moved { moved_by_turn turn.new ≡ moved_by_turn turn.old }
        ensures stack { OnOk result
            (stack.new.items ≡ below_top (moved_by_turn turn.old) stack.old.items) }
        ensures capacity { vec_capacity stack.new ≡ vec_capacity stack.old }
        ensures err { OnErr result (self.new ≡ self.old) }
        ensures turn_err { OnErr result (turn.new ≡ turn.old) }
        ensures stack_err { OnErr result (stack.new ≡ stack.old) }
    {
        match turn {
            Turn::Outside(log) => {
                self.redo_log(log);
                Ok(())
            }
            Turn::Inside(step) => self.redo_member(step, None, stack),
        }
    }

    /// Makes a step again over which this leads only forward, as `redo` does.
    ///
    /// NoMemory where a growth is refused; all is then as it was.
    #[inline(never)] // inlined, what it moves would cost each turn its room
    fn make_again(
        &mut self,
        crossing: &mut Crossing,
        stack: &mut Vec<Change>,
    ) -> Result<(), NoMemory>
        requires forward { inverse_at crossing.old ≡ None }
        requires goes { HoldsForward crossing.old
            (λ undone. GoesAgain self.old undone stack.old.items) }
        ensures made { Remakes self.old crossing.old stack.old.items result self.new }
        ensures back { Reverses self.old crossing.old stack.old.items result crossing.new self.new }
        ensures moved { moved_over crossing.new ≡ moved_over crossing.old }
        ensures stack { OnOk result
            (stack.new.items ≡ below_top (moved_over crossing.old) stack.old.items) }
        ensures capacity { vec_capacity stack.new ≡ vec_capacity stack.old }
        ensures err { OnErr result (self.new ≡ self.old) }
        ensures crossing_err { OnErr result (crossing.new ≡ crossing.old) }
        ensures stack_err { OnErr result (stack.new ≡ stack.old) }
    {
        let Crossing::Forward(undone) = mem::replace(crossing, Crossing::blank()) else {
            return Ok(());
        };
        match undone {
            Undone::Outside { log, post } => {
                self.redo_outside(log, post, crossing);
                Ok(())
            }
            Undone::Inside { step, held } => self.redo_inside(step, held, crossing, stack),
            Undone::Begun { boxed, mark } => {
                self.redo_begun(boxed, mark, crossing);
                Ok(())
            }
            Undone::Committed {
                starter,
                count,
                held,
            } => self.redo_committed(starter, count, held, crossing, stack),
            Undone::Aborted {
                starter,
                stands,
                members,
            } => {
                self.redo_aborted(starter, stands, members, crossing);
                Ok(())
            }
        }
    }

    /// Makes again a step outside transactions that posted nothing, and leaves its inverse in its
    /// log.
    fn redo_log(&mut self, log: &mut Log)
        requires { GoesAgain self.old (taken.Outside log.old None) [] }
        ensures made { self.new ≡ after_outside self.old log.old None }
        ensures inverse { log.new ≡ exchanged self.old.parts log.old }
    {
        log.lead_forward(&mut self.parts);
    }

    /// Makes again a step outside transactions, and puts its inverse into its place.
    fn redo_outside(&mut self, log: Log, post: Option<TakenPost>, crossing: &mut Crossing)
        requires { GoesAgain self.old (taken.Outside log post) [] }
        ensures made { self.new ≡ after_outside self.old log post }
        ensures inverse { crossing.new
            ≡ Back (Inverse.Outside (exchanged self.old.parts log) (post_in post)) }
    {
        let mut log = log;
        self.redo_log(&mut log);
        let post = remake_post_if(&mut self.txns, post);
        *crossing = Crossing::Back(Inverse::Outside { log, post });
    }

    /// Makes again a step inside the starter's transaction, whose changes are on top of the stack,
    /// and puts its inverse into its place.
    ///
    /// NoMemory where a growth is refused; all is then as it was, with what makes the step again in
    /// its place.
    fn redo_inside(
        &mut self,
        step: MemberStep,
        held: Option<Sending>,
        crossing: &mut Crossing,
        stack: &mut Vec<Change>,
    ) -> Result<(), NoMemory>
        requires { GoesAgain self.old (taken.Inside step held) stack.old.items }
        ensures made { (after : Content) (inverse : TheInverse) →
            Redoes self.old (taken.Inside step held) stack.old.items after inverse →
            OnOk result (self.new ≡ after) }
        ensures inverse { (after : Content) (inverse : TheInverse) →
            Redoes self.old (taken.Inside step held) stack.old.items after inverse →
            OnOk result (crossing.new ≡ Back inverse) }
        ensures moved { moved_over crossing.new ≡ step.count }
        ensures stack { OnOk result (stack.new.items ≡ below_top step.count stack.old.items) }
        ensures capacity { vec_capacity stack.new ≡ vec_capacity stack.old }
        ensures err { OnErr result (self.new ≡ self.old) }
        ensures crossing_err { OnErr result (crossing.new ≡ Forward (taken.Inside step held)) }
        ensures stack_err { OnErr result (stack.new ≡ stack.old) }
    {
        let mut step = step;
        let Ok(()) = self.redo_member(&mut step, held, stack) else {
            *crossing = Crossing::Forward(Undone::Inside { step, held });
            return Err(NoMemory);
        };
        *crossing = Crossing::Back(Inverse::Inside {
            step,
            held: held.is_some(),
        });
        Ok(())
    }

    /// Makes again a step inside the starter's transaction, whose changes are on top of the stack,
    /// and exchanges what it reserves and its mark.
    ///
    /// NoMemory where a growth is refused; all is then as it was.
    fn redo_member(
        &mut self,
        step: &mut MemberStep,
        held: Option<Sending>,
        stack: &mut Vec<Change>,
    ) -> Result<(), NoMemory>
        requires { GoesAgain self.old (taken.Inside step.old held) stack.old.items }
        ensures made { (after : Content) (inverse : TheInverse) →
            Redoes self.old (taken.Inside step.old held) stack.old.items after inverse →
            OnOk result (self.new ≡ after) }
        ensures inverse { (after : Content) (inverse : TheInverse) →
            Redoes self.old (taken.Inside step.old held) stack.old.items after inverse →
            OnOk result (Inverse.Inside step.new (is_some held) ≡ inverse) }
        ensures moved { step.new.count ≡ step.old.count }
        ensures stack { OnOk result (stack.new.items ≡ below_top step.old.count stack.old.items) }
        ensures capacity { vec_capacity stack.new ≡ vec_capacity stack.old }
        ensures err { OnErr result (self.new ≡ self.old) }
        ensures step_err { OnErr result (step.new ≡ step.old) }
        ensures stack_err { OnErr result (stack.new ≡ stack.old) }
    {
        laws();
        let boxed = self.txns.value_mut(step.starter);
        step.objects = remake_step(
            &mut boxed.txn,
            &mut self.parts,
            &mut self.owners,
            step,
            held,
            stack,
        )?;
        step.marked = put_mark(&mut self.marks, step.marked);
        Ok(())
    }

    /// Makes again the first step of this transaction, which is live then, and puts its inverse
    /// into its place.
    fn redo_begun(&mut self, boxed: BoxedTxn, mark: Option<Mark>, crossing: &mut Crossing)
        requires { GoesAgain self.old (taken.Begun boxed mark) [] }
        ensures made { (after : Content) (inverse : TheInverse) →
            Redoes self.old (taken.Begun boxed mark) [] after inverse → self.new ≡ after }
        ensures inverse { crossing.new ≡ Back (Inverse.Begun boxed.txn.value.starter) }
    {
        laws();
        let mut boxed = boxed;
        let mut mark = mark;
        let starter = boxed.txn.starter;
        boxed.txn.log.lead_forward(&mut self.parts);
        let _fresh = self.owners.take(starter, &boxed.txn.objects);
        self.owners.sized();
        self.marks.swap(starter, &mut mark);
        self.txns.put(starter, boxed);
        *crossing = Crossing::Back(Inverse::Begun { starter });
    }

    /// Makes again the commit of the starter's transaction, and puts its inverse into its place:
    /// the changes of its last step are on top of the stack, and what it held is posted.
    ///
    /// NoMemory where a growth is refused; all is then as it was, with what makes the step again in
    /// its place.
    fn redo_committed(
        &mut self,
        starter: Pid,
        count: usize,
        held: Option<Sending>,
        crossing: &mut Crossing,
        stack: &mut Vec<Change>,
    ) -> Result<(), NoMemory>
        requires { GoesAgain self.old (taken.Committed starter count held) stack.old.items }
        ensures made { (after : Content) (inverse : TheInverse) →
            Redoes self.old (taken.Committed starter count held) stack.old.items after inverse →
            OnOk result (self.new ≡ after) }
        ensures back { IsShaped self.old →
            OnOk result (HoldsBack crossing.new (TakesBack self.old self.new)) }
        ensures moved { moved_over crossing.new ≡ count }
        ensures stack { OnOk result (stack.new.items ≡ below_top count stack.old.items) }
        ensures capacity { vec_capacity stack.new ≡ vec_capacity stack.old }
        ensures err { OnErr result (self.new ≡ self.old) }
        ensures crossing_err { OnErr result
            (crossing.new ≡ Forward (taken.Committed starter count held)) }
        ensures stack_err { OnErr result (stack.new ≡ stack.old) }
    {
        laws();
        let mut boxed = self.txns.take(starter).unwrap();
        let made = remake_last(&mut boxed.txn, &mut self.parts, count, held, stack);
        let Ok(()) = made else {
            self.txns.put(starter, boxed);
            *crossing = Crossing::Forward(Undone::Committed {
                starter,
                count,
                held,
            });
            return Err(NoMemory);
        };
        post_held(&mut self.parts, &mut self.txns, &mut boxed.txn.outbox);
        boxed.txn.end(&mut self.marks, &mut self.owners);
        self.owners.sized();
        *crossing = Crossing::Back(Inverse::Committed {
            boxed,
            count,
            held: held.is_some(),
        });
        Ok(())
    }

    /// Makes again the abort of the starter's transaction, and puts its inverse into its place: its
    /// starter is then at this point, and these were its members.
    fn redo_aborted(
        &mut self,
        starter: Pid,
        answer: Answer,
        members: Option<Members>,
        crossing: &mut Crossing,
    )
        requires { GoesAgain self.old (taken.Aborted starter answer members) [] }
        ensures made { (after : Content) (inverse : TheInverse) →
            Redoes self.old (taken.Aborted starter answer members) [] after inverse →
            self.new ≡ after }
        ensures inverse { (after : Content) (inverse : TheInverse) →
            Redoes self.old (taken.Aborted starter answer members) [] after inverse →
            crossing.new ≡ Back inverse }
        ensures moved { moved_over crossing.new ≡ 0 }
    {
        laws();
        let mut boxed = self.txns.take(starter).unwrap();
        boxed.txn.lead_back(&mut self.parts);
        let stood = stands(&self.parts, starter);
        stand(&mut self.parts, starter, answer);
        boxed.txn.end(&mut self.marks, &mut self.owners);
        self.owners.sized();
        boxed.txn.members = members;
        *crossing = Crossing::Back(Inverse::Aborted { boxed, stood });
    }
}

/// Makes again a post to what is kept of a starter, if there was one. Answers what takes it back.
fn remake_post_if(txns: &mut TxnTable, post: Option<TakenPost>) -> Option<KeptPost>
    requires { HasStarter txns.old (post_in post) }
    ensures again { txns.new ≡ reposted_in post txns.old }
    ensures post { result ≡ post_in post }
{
    match post {
        Some(taken) => Some(remake_post(txns, taken)),
        None => None,
    }
}

/// Makes again the last step of a member, whose changes are on top of the stack, and reserves its
/// objects. Answers what was reserved before.
///
/// NoMemory where a growth is refused; all is then as it was.
fn remake_step(
    txn: &mut Txn,
    parts: &mut Parts,
    owners: &mut Reservations,
    step: &MemberStep,
    held: Option<Sending>,
    stack: &mut Vec<Change>,
) -> Result<Objects, NoMemory>
    requires few { step.now.count ≤ length stack.old.items }
    requires named { AreNamed parts.old (top_of step.now.count stack.old.items) }
    ensures parts { OnOk result
        (parts.new ≡ applied parts.old (top_of step.now.count stack.old.items)) }
    ensures owners { OnOk result
        ((o : Object) → owner_of owners.new o
        ≡ (if is_in step.now.objects o then Some txn.old.starter.0 else owner_of owners.old o)) }
    ensures sized { OnOk result (length owners.new ≡ 352) }
    ensures txn { OnOk result
        (txn.new ≡ step_again parts.old step.now held stack.old.items txn.old) }
    ensures stack { OnOk result (stack.new.items ≡ below_top step.now.count stack.old.items) }
    ensures before { IfOk result (λ before. before ≡ txn.old.objects) }
    ensures capacity { vec_capacity stack.new ≡ vec_capacity stack.old }
    ensures parts_err { OnErr result (parts.new ≡ parts.old) }
    ensures owners_err { OnErr result (owners.new ≡ owners.old) }
    ensures txn_err { OnErr result (txn.new ≡ txn.old) }
    ensures stack_err { OnErr result (stack.new ≡ stack.old) }
{
    remake_last(txn, parts, step.count, held, stack)?;
    let before = txn.take_again(owners, step.objects);
    owners.sized();
    Ok(before)
}

/// Makes again the last step of a transaction, whose changes are on top of the stack, and holds
/// what it handed out.
///
/// NoMemory where a growth is refused; all is then as it was.
fn remake_last(
    txn: &mut Txn,
    parts: &mut Parts,
    count: usize,
    held: Option<Sending>,
    stack: &mut Vec<Change>,
) -> Result<(), NoMemory>
    requires few { count ≤ length stack.old.items }
    requires named { AreNamed parts.old (top_of count stack.old.items) }
    ensures parts { OnOk result (parts.new ≡ applied parts.old (top_of count stack.old.items)) }
    ensures txn { OnOk result
        (txn.new ≡ record txn.old {
          log = txn.old.log
              ++ exchanged parts.old (top_of count stack.old.items);
          outbox = with_last held
              txn.old.outbox;
        }) }
    ensures stack { OnOk result (stack.new.items ≡ below_top count stack.old.items) }
    ensures capacity { vec_capacity stack.new ≡ vec_capacity stack.old }
    ensures parts_err { OnErr result (parts.new ≡ parts.old) }
    ensures txn_err { OnErr result (txn.new ≡ txn.old) }
    ensures stack_err { OnErr result (stack.new ≡ stack.old) }
{
    hold_again(&mut txn.outbox, held)?;
    if txn.log.move_forward(parts, count, stack).is_err() {
        forget_again(&mut txn.outbox, held);
        return Err(NoMemory);
    }
    Ok(())
}

/// Holds this too, if there is one. If memory is refused, the outbox is as it was.
fn hold_again(outbox: &mut Outbox, held: Option<Sending>) -> Result<(), NoMemory>
    ensures held { OnOk result (outbox.new ≡ with_last held outbox.old) }
    ensures err { OnErr result (outbox.new ≡ outbox.old) }
{
    match held {
        Some(sending) => outbox.hold(sending),
        None => Ok(()),
    }
}

/// Forgets what was held last, if there is one.
fn forget_again(outbox: &mut Outbox, held: Option<Sending>)
    ensures { (before : Held) → outbox.old ≡ with_last held before → outbox.new ≡ before }
{
    if held.is_some() {
        let _last = outbox.forget_last();
    }
}
