//! The undo of a step that keeps what makes the step again by exchange.
ghost use Rattle.std.specs.Prelude.{◌≡◌, ◌≤◌, ◌+◌, ◌&&◌, List, false, not, length, None, if◌then◌else◌, vec_capacity};
ghost use Rattle.tx_change.specs.Exchange.{reverted, undone, AreNamed};
ghost use Rattle.tx_change.specs.Stacks.{moved_onto};
ghost use Rattle.tx_change.specs.declared.change.Change.{Change};
ghost use Rattle.tx_content.specs.Content.{IsShaped};
ghost use Rattle.tx_content.specs.Crossings.{inverse_of, undone_at, undone_of, moved_by_turn, moved_over, HoldsBack, HoldsForward};
ghost use Rattle.tx_content.specs.Inverses.{before_outside, first_of, last_of, less_last, step_back, unposted_in, GoesWith, HasStarter, Undoes};
ghost use Rattle.tx_content.specs.Redone.{post_in, reposted_in, IsLastOf, IsTakenBack, EndsWhole};
ghost use Rattle.tx_content.specs.declared.content.Content.{Content};
ghost use Rattle.tx_content.specs.declared.inverse.Inverse.TheVariants.{Aborted, Begun, Committed, Inside, Outside};
ghost use Rattle.tx_content.specs.declared.undone.Undone.TheVariants as taken;
ghost use Rattle.tx_model.specs.State.{Object};
ghost use Rattle.tx_reserve.specs.Objects.{is_in};
ghost use Rattle.tx_reserve.specs.Reservations.{owner_of};

use crate::aborts::stands;
use crate::content::{BoxedTxn, Content};
use crate::crossing::{Crossing, Turn};
use crate::held_posts::take_posts;
use crate::inverse::Inverse;
use crate::kept_posts::{KeptPost, TakenPost, take_post};
use crate::laws::laws;
use crate::member_step::MemberStep;
use crate::table::TxnTable;
use crate::undo::put_mark;
use crate::undone::Undone;
use std::mem;
use tx_base::{Pid, Sending};
use tx_change::{Change, Log, Parts};
use tx_proc::Answer;
use tx_reserve::Reservations;
use tx_txn::Txn;

impl Content {
    /// Takes back the step that this leads back over, as `undo` does, and exchanges it in place:
    /// then it leads forward. The changes of a step inside go onto the stack, which must have room
    /// for them: see `Crossing::moved`. It takes no memory and is never refused.
    pub fn take_back(&mut self, crossing: &mut Crossing, stack: &mut Vec<Change>)
        requires fits { HoldsBack crossing.old (GoesWith self.old) }
        requires room { length stack.old.items + moved_over crossing.old ≤ vec_capacity stack.old }
        ensures before { (before : Content) →
            HoldsBack crossing.old (λ inverse. Undoes self.old inverse before) →
            self.new ≡ before }
        ensures again { HoldsForward crossing.new (λ undone.
            IsShaped self.old → HoldsBack crossing.old (EndsWhole self.old) →
            (before : Content) → IsShaped before →
            HoldsBack crossing.old (λ inverse. Undoes self.old inverse before) →
            IsTakenBack before undone stack.new.items self.old stack.old.items) }
        ensures moved { moved_over crossing.new ≡ moved_over crossing.old }
        ensures long { length stack.new.items ≡ length stack.old.items + moved_over crossing.old }
        ensures capacity { vec_capacity stack.new ≡ vec_capacity stack.old }
    {
        match crossing {
            Crossing::Turn(turn) => self.turn_back(turn, stack),
            Crossing::Back(_) => self.take_whole_back(crossing, stack),
            Crossing::Forward(_) => {}
        }
    }

    /// Takes back a step, and exchanges what leads both ways over it.
    fn turn_back(&mut self, turn: &mut Turn, stack: &mut Vec<Change>)
        requires fits { GoesWith self.old (inverse_of turn.old) }
        requires room { length stack.old.items + moved_by_turn turn.old ≤ vec_capacity stack.old }
        ensures before { (before : Content) → Undoes self.old (inverse_of turn.old) before →
            self.new ≡ before }
        ensures again { IsShaped self.old → (before : Content) →
            Undoes self.old (inverse_of turn.old) before →
            IsTakenBack before (undone_of turn.new) stack.new.items self.old stack.old.items }
        ensures moved { moved_by_turn turn.new ≡ moved_by_turn turn.old }
        ensures long { length stack.new.items ≡ length stack.old.items + moved_by_turn turn.old }
        ensures capacity { vec_capacity stack.new ≡ vec_capacity stack.old }
    {
        match turn {
            Turn::Outside(log) => self.take_log_back(log),
            Turn::Inside(step) => {
                let _none = self.take_member_back(step, false, stack);
            }
        }
    }

    /// Takes back a step over which this leads only back, as `take_back` does.
    #[inline(never)] // as `make_again`
    fn take_whole_back(&mut self, crossing: &mut Crossing, stack: &mut Vec<Change>)
        requires back { undone_at crossing.old ≡ None }
        requires fits { HoldsBack crossing.old (GoesWith self.old) }
        requires room { length stack.old.items + moved_over crossing.old ≤ vec_capacity stack.old }
        ensures before { (before : Content) →
            HoldsBack crossing.old (λ inverse. Undoes self.old inverse before) →
            self.new ≡ before }
        ensures again { HoldsForward crossing.new (λ undone.
            IsShaped self.old → HoldsBack crossing.old (EndsWhole self.old) →
            (before : Content) → IsShaped before →
            HoldsBack crossing.old (λ inverse. Undoes self.old inverse before) →
            IsTakenBack before undone stack.new.items self.old stack.old.items) }
        ensures moved { moved_over crossing.new ≡ moved_over crossing.old }
        ensures long { length stack.new.items ≡ length stack.old.items + moved_over crossing.old }
        ensures capacity { vec_capacity stack.new ≡ vec_capacity stack.old }
    {
        let Crossing::Back(inverse) = mem::replace(crossing, Crossing::blank()) else {
            return;
        };
        match inverse {
            Inverse::Outside { log, post } => self.take_back_outside(log, post, crossing),
            Inverse::Inside { step, held } => self.take_back_inside(step, held, crossing, stack),
            Inverse::Begun { starter } => self.take_back_begun(starter, crossing),
            Inverse::Committed { boxed, count, held } => {
                self.take_back_committed(boxed, count, held, crossing, stack)
            }
            Inverse::Aborted { boxed, stood } => self.take_back_aborted(boxed, stood, crossing),
        }
    }

    /// Takes back a step outside transactions that posted nothing, and leaves what makes it again
    /// in its log.
    fn take_log_back(&mut self, log: &mut Log)
        requires { GoesWith self.old (Outside log.old None) }
        ensures before { self.new ≡ before_outside self.old log.old None }
        ensures log { log.new ≡ reverted self.old.parts log.old }
        ensures again { (before : Content) (stack : List Change) →
            Undoes self.old (Outside log.old None) before →
            IsTakenBack before (taken.Outside log.new None) stack self.old stack }
    {
        laws();
        log.lead_back(&mut self.parts);
    }

    /// Takes back a step outside transactions, and puts what makes it again into its place.
    pub(crate) fn take_back_outside(
        &mut self,
        log: Log,
        post: Option<KeptPost>,
        crossing: &mut Crossing,
    )
        requires { GoesWith self.old (Outside log post) }
        ensures before { self.new ≡ before_outside self.old log post }
        ensures again { HoldsForward crossing.new (λ undone.
            (before : Content) (stack : List Change) → Undoes self.old (Outside log post) before →
            IsTakenBack before undone stack self.old stack) }
        ensures moved { moved_over crossing.new ≡ 0 }
    {
        laws();
        let mut log = log;
        self.take_log_back(&mut log);
        let post = take_post_if(&mut self.txns, post);
        *crossing = Crossing::Forward(Undone::Outside { log, post });
    }

    /// Takes back a step inside the starter's transaction, and puts into its place what makes it
    /// again, with the changes that it moves onto the stack.
    fn take_back_inside(
        &mut self,
        step: MemberStep,
        held: bool,
        crossing: &mut Crossing,
        stack: &mut Vec<Change>,
    )
        requires fits { GoesWith self.old (Inside step held) }
        requires room { length stack.old.items + step.count ≤ vec_capacity stack.old }
        ensures before { (prior : Content) → Undoes self.old (Inside step held) prior →
            self.new ≡ prior }
        ensures again { HoldsForward crossing.new (λ undone.
            IsShaped self.old → (prior : Content) → Undoes self.old (Inside step held) prior →
            IsTakenBack prior undone stack.new.items self.old stack.old.items) }
        ensures moved { moved_over crossing.new ≡ step.count }
        ensures long { length stack.new.items ≡ length stack.old.items + step.count }
        ensures capacity { vec_capacity stack.new ≡ vec_capacity stack.old }
    {
        let mut step = step;
        let held = self.take_member_back(&mut step, held, stack);
        *crossing = Crossing::Forward(Undone::Inside { step, held });
    }

    /// Takes back a step inside the starter's transaction, moves its changes onto the stack, and
    /// exchanges what was reserved and its mark. Answers the signal that it handed out, if it did.
    fn take_member_back(
        &mut self,
        step: &mut MemberStep,
        held: bool,
        stack: &mut Vec<Change>,
    ) -> Option<Sending>
        requires fits { GoesWith self.old (Inside step.old held) }
        requires room { length stack.old.items + step.old.count ≤ vec_capacity stack.old }
        ensures before { (prior : Content) → Undoes self.old (Inside step.old held) prior →
            self.new ≡ prior }
        ensures again { IsShaped self.old → (prior : Content) →
            Undoes self.old (Inside step.old held) prior →
            IsTakenBack prior (taken.Inside step.new result) stack.new.items self.old
            stack.old.items }
        ensures last { held ≡ false → result ≡ None }
        ensures moved { step.new.count ≡ step.old.count }
        ensures long { length stack.new.items ≡ length stack.old.items + step.old.count }
        ensures capacity { vec_capacity stack.new ≡ vec_capacity stack.old }
    {
        laws();
        let boxed = self.txns.value_mut(step.starter);
        let after = boxed.txn.objects;
        let last = move_step(
            &mut boxed.txn,
            &mut self.parts,
            &mut self.owners,
            step,
            held,
            stack,
        );
        step.objects = after;
        step.marked = put_mark(&mut self.marks, step.marked);
        last
    }

    /// Takes back the first step of the starter's transaction, and puts what makes it again into
    /// its place, which then owns the transaction.
    pub(crate) fn take_back_begun(&mut self, starter: Pid, crossing: &mut Crossing)
        requires { GoesWith self.old (Begun starter) }
        ensures before { (prior : Content) → Undoes self.old (Begun starter) prior →
            self.new ≡ prior }
        ensures again { HoldsForward crossing.new (λ undone.
            IsShaped self.old → (prior : Content) (stack : List Change) →
            Undoes self.old (Begun starter) prior →
            IsTakenBack prior undone stack self.old stack) }
        ensures moved { moved_over crossing.new ≡ 0 }
    {
        laws();
        let mut boxed = self.txns.take(starter).unwrap();
        boxed.txn.log.lead_back(&mut self.parts);
        self.owners.release(&boxed.txn.objects);
        self.owners.sized();
        let mark = self.marks.take(starter);
        *crossing = Crossing::Forward(Undone::Begun { boxed, mark });
    }

    /// Takes back the commit of this transaction, and puts into its place what makes it again, with
    /// the changes that it moves onto the stack.
    fn take_back_committed(
        &mut self,
        boxed: BoxedTxn,
        count: usize,
        held: bool,
        crossing: &mut Crossing,
        stack: &mut Vec<Change>,
    )
        requires fits { GoesWith self.old (Committed boxed count held) }
        requires room { length stack.old.items + count ≤ vec_capacity stack.old }
        ensures before { (prior : Content) → Undoes self.old (Committed boxed count held) prior →
            self.new ≡ prior }
        ensures again { HoldsForward crossing.new (λ undone.
            IsShaped self.old → EndsWhole self.old (Committed boxed count held) →
            (prior : Content) → IsShaped prior →
            Undoes self.old (Committed boxed count held) prior →
            IsTakenBack prior undone stack.new.items self.old stack.old.items) }
        ensures moved { moved_over crossing.new ≡ count }
        ensures long { length stack.new.items ≡ length stack.old.items + count }
        ensures capacity { vec_capacity stack.new ≡ vec_capacity stack.old }
    {
        laws();
        let mut boxed = boxed;
        let starter = boxed.txn.starter;
        take_posts(&mut self.parts, &mut self.txns, &mut boxed.txn.outbox);
        let last = move_last(&mut boxed.txn, &mut self.parts, count, held, stack);
        boxed.txn.revive(&mut self.marks, &mut self.owners);
        self.owners.sized();
        self.txns.put(starter, boxed);
        *crossing = Crossing::Forward(Undone::Committed {
            starter,
            count,
            held: last,
        });
    }

    /// Takes back the abort of this transaction, and puts what makes it again into its place.
    fn take_back_aborted(&mut self, boxed: BoxedTxn, stood: Answer, crossing: &mut Crossing)
        requires { GoesWith self.old (Aborted boxed stood) }
        ensures before { (prior : Content) → Undoes self.old (Aborted boxed stood) prior →
            self.new ≡ prior }
        ensures again { HoldsForward crossing.new (λ undone.
            IsShaped self.old → EndsWhole self.old (Aborted boxed stood) →
            (prior : Content) (stack : List Change) → IsShaped prior →
            Undoes self.old (Aborted boxed stood) prior →
            IsTakenBack prior undone stack self.old stack) }
        ensures moved { moved_over crossing.new ≡ 0 }
    {
        laws();
        let starter = boxed.txn.starter;
        let members = boxed.txn.members;
        let stands = stands(&self.parts, starter);
        self.undo_aborted(boxed, stood);
        *crossing = Crossing::Forward(Undone::Aborted {
            starter,
            stands,
            members,
        });
    }
}

/// Takes back a post to what is kept of a starter, if there was one, and answers what makes it
/// again.
fn take_post_if(txns: &mut TxnTable, post: Option<KeptPost>) -> Option<TakenPost>
    requires { HasStarter txns.old post }
    ensures taken { txns.new ≡ unposted_in post txns.old }
    ensures post { post_in result ≡ post }
    ensures again { reposted_in result txns.new ≡ txns.old }
{
    let post = post?;
    Some(take_post(txns, post))
}

/// Takes back the last step of a member: moves its changes onto the stack, and gives up what was
/// not reserved before. Answers the signal that it handed out, if it did.
fn move_step(
    txn: &mut Txn,
    parts: &mut Parts,
    owners: &mut Reservations,
    step: &MemberStep,
    held: bool,
    stack: &mut Vec<Change>,
) -> Option<Sending>
    requires few { step.now.count ≤ length txn.old.log }
    requires named { AreNamed parts.old txn.old.log }
    requires room { length stack.old.items + step.now.count ≤ vec_capacity stack.old }
    ensures parts { parts.new ≡ undone parts.old (last_of step.now.count txn.old.log) }
    ensures owners { (o : Object) →
        owner_of owners.new o
        ≡ (if is_in txn.old.objects o && not (is_in step.now.objects o) then None
        else owner_of owners.old o) }
    ensures sized { length owners.new ≡ 352 }
    ensures txn { txn.new ≡ step_back step.now held txn.old }
    ensures stack { stack.new.items
        ≡ moved_onto stack.old.items parts.old (last_of step.now.count txn.old.log) }
    ensures capacity { vec_capacity stack.new ≡ vec_capacity stack.old }
    ensures last { IsLastOf held txn.old.outbox result }
{
    let last = move_last(txn, parts, step.count, held, stack);
    txn.give_up(owners, step.objects);
    owners.sized();
    last
}

/// Takes back the last step of a transaction: moves this many of the log's last changes onto the
/// stack. Answers the signal that it handed out, if it did.
fn move_last(
    txn: &mut Txn,
    parts: &mut Parts,
    count: usize,
    held: bool,
    stack: &mut Vec<Change>,
) -> Option<Sending>
    requires few { count ≤ length txn.old.log }
    requires named { AreNamed parts.old txn.old.log }
    requires room { length stack.old.items + count ≤ vec_capacity stack.old }
    ensures parts { parts.new ≡ undone parts.old (last_of count txn.old.log) }
    ensures txn { txn.new
        ≡ record txn.old {
          log = first_of count txn.old.log;
          outbox = less_last held
              txn.old.outbox;
        } }
    ensures stack { stack.new.items
        ≡ moved_onto stack.old.items parts.old (last_of count txn.old.log) }
    ensures capacity { vec_capacity stack.new ≡ vec_capacity stack.old }
    ensures last { IsLastOf held txn.old.outbox result }
{
    txn.log.move_back(parts, count, stack);
    if held { txn.outbox.forget_last() } else { None }
}
